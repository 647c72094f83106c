// The step over one field of a job, from the state the last step gave.
#![tactic(auto)]

ghost use Rattle.std.specs.Prelude.{◌<◌, ◌≤◌, ◌≡◌, ◌||◌, [], eqb, leb, length};
ghost use Rattle.calls.specs.Calls.{says};
ghost use Rattle.taxa.specs.Most.{most};
ghost use Rattle.job_steps.specs.Job.{field, longest};
ghost use Rattle.job_steps.specs.Steps.{lending, known_of, holds, state_said, fitting, GivesFrom, Steps};
ghost use Rattle.job_steps.specs.Between.{Held};

use calls::{Refusal, RefusedAt};
use fields::Kind;
use job_steps::{Next, State};

// The most bytes in a job.
const LONGEST: usize = 65535;

// The next field of a state that a job can have: whether 16 is given before it,
// whether its tag is allowed, and what it holds.
fn read_next(
    job: &[u8],
    s: State,
    table: &mut [u8],
    parts: &mut [u64],
    out: &mut [u8],
) -> Result<Next, Refusal>
    requires { let b = job.now in
        (s.at < length b) × (length b ≤ longest)
        × (Held s (lending table.old parts.old out.old)) }
    ensures { let m = lending table.old parts.old out.old in
        let o = fitting s.at m (field job.now (known_of s m)) in
        GivesFrom s.at o result m (lending table.new parts.new out.new) }
{
    let tag = job[s.at];
    job_seen::seen_before(tag, s, parts)?;
    match fields::allowed(s.at, s.parts, s.moves, tag)? {
        Kind::Taxa => job_reads::read_taxa(job, s.at),
        Kind::Table => job_reads::read_table(job, s.at, s.taxa, table),
        Kind::Partition => job_reads::read_partition(job, s, parts),
        Kind::Move => job_reads::read_move(job, s, table, parts, out),
    }
}

// Whether an offset is that of the first field, or x is 4 or more.
fn four_after_start(at: usize, x: usize) -> bool
    ensures { result ≡ (eqb at 0 || leb 4 x) }
{
    at == 0 || 4 <= x
}

// Whether the lent memory has what a state holds: its table, once that was
// read, and its partitions.
fn memory_right(s: State, table: &[u8], parts: &[u64]) -> bool
    requires { s.taxa ≤ most }
    ensures { result ≡ holds s (lending table.now parts.now []) }
{
    (s.at <= 4 || job_steps::table_bytes(s.taxa) <= table.len()) && s.parts <= parts.len()
}

// Whether nothing about a state and the lent memory is such that no job has
// it: refusals 1, 11 and 12.
#[tactic(auto, unfolding(calls::specs::Calls::judged))]
fn state_right(s: State, table: &[u8], parts: &[u64]) -> Result<(), Refusal>
    ensures { says result ≡ state_said s (lending table.now parts.now []) }
{
    if taxa::MOST < s.taxa || !four_after_start(s.at, s.taxa) {
        return Err(Refusal::Count);
    }
    if !memory_right(s, table, parts) {
        return Err(Refusal::Room);
    }
    if !four_after_start(s.at, s.at) || (LONGEST as u64) < s.moves {
        return Err(Refusal::Field);
    }
    Ok(())
}

// The step over one field of a job, from the state the last step gave. The
// table and the partitions read so far are in the lent memory; a move's lines
// are written at the start of out. It gives none where the job is over.
pub fn step(
    job: &[u8],
    s: State,
    table: &mut [u8],
    parts: &mut [u64],
    out: &mut [u8],
) -> Result<Option<Next>, RefusedAt>
    ensures { let m = lending table.old parts.old out.old in
        let m' = lending table.new parts.new out.new in
        Steps job.now s m result m' }
{
    if LONGEST < job.len() {
        return Err(Refusal::Long.at(0));
    }
    state_right(s, table, parts).map_err(|why| why.at(s.at))?;
    if job.len() <= s.at {
        job_seen::read_end(job.len(), s, parts)?;
        return Ok(None);
    }
    let next = read_next(job, s, table, parts, out).map_err(|why| why.at(s.at))?;
    Ok(Some(next))
}
