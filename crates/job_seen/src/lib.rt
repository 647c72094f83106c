// Refusal 16 in a job: where it is judged, and its place.
#![tactic(auto)]

ghost use Rattle.std.specs.Prelude.{◌≡◌, ◌||◌, true, false, eqb, MatchResult};
ghost use Rattle.calls.specs.Calls.{says_at, tells};
ghost use Rattle.calls.specs.declared.Refusal.TheVariants as refusal;
ghost use Rattle.job_steps.specs.Job.{seen_so_far, end_step};
ghost use Rattle.job_steps.specs.Steps.{parts_lent, known_of, ended, told_of};
ghost use Rattle.job_steps.specs.Between.{Parted};

use calls::{Refusal, RefusedAt};
use fields::Kind;
use job_steps::State;

// Whether 16 is not given: partitions are not what was read last, or each
// taxon is in one.
fn seen_so_far(s: State, parts: &[u64]) -> bool
    requires { Parted s parts.now }
    ensures { result ≡ seen_so_far (known_of s (parts_lent parts.now)) }
{
    s.at <= 4 || s.parts == 0 || s.moves != 0 || door::all_seen(s.taxa, &parts[..s.parts])
}

// The end of a job of so many bytes: refusals 12 and 16.
#[tactic(auto, unfolding(calls::specs::Calls::judged))]
pub fn read_end(long: usize, s: State, parts: &[u64]) -> Result<(), RefusedAt>
    requires { Parted s parts.now }
    ensures { let k = known_of s (parts_lent parts.now) in
        tells (λ u. ended) (says_at result) ≡ tells told_of (end_step long k) }
{
    if s.parts == 0 {
        return Err(Refusal::Field.at(long));
    }
    if !seen_so_far(s, parts) {
        return Err(Refusal::Unseen.at(long));
    }
    Ok(())
}

// Refusal 16 before a field with this tag. A further partition may have the
// taxon.
pub fn seen_before(tag: u8, s: State, parts: &[u64]) -> Result<(), Refusal>
    requires { Parted s parts.now }
    ensures { let seen = eqb tag 3 || seen_so_far (known_of s (parts_lent parts.now)) in
        MatchResult result (λ u. seen ≡ true)
        (λ why. (why ≡ refusal.Unseen) × (seen ≡ false)) }
{
    if tag != Kind::Partition as u8 && !seen_so_far(s, parts) {
        return Err(Refusal::Unseen);
    }
    Ok(())
}
