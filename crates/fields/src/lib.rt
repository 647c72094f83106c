// The fields of a job: which kind may come where, whether a length is right,
// and numbers in bytes.
#![tactic(auto)]

ghost use Rattle.std.specs.Prelude.{◌+◌, ◌<◌, ◌≤◌, ◌≡◌, true, false, MatchResult};
ghost use Rattle.std.specs.Prelude.{length};
ghost use Rattle.calls.specs.declared.Refusal.TheVariants.{Field};
ghost use Rattle.fields.specs.Fields as fields_spec;
ghost use Rattle.fields.specs.Fields.{stated_at, content_at, length_right, number_in};
ghost use Rattle.fields.specs.Kinds.{tag_of};

use calls::Refusal;

// The kinds of field, with their tags.
#[derive(Clone, Copy, Debug, PartialEq, Eq)]
pub enum Kind {
    // the number of taxa.
    Taxa = 1,
    // the table.
    Table = 2,
    Partition = 3,
    Move = 4,
}

// The kind of a tag; 12 where none has it.
impl TryFrom<u8> for Kind {
    type Error = Refusal;

    ghost try_from_gives = { λ tag r. MatchResult r (λ kind. tag_of kind ≡ tag)
        (λ why. (why ≡ Field) × (1 ≤ tag → 4 < tag)) };

    fn try_from(tag: u8) -> Result<Kind, Refusal> {
        match tag {
            1 => Ok(Kind::Taxa),
            2 => Ok(Kind::Table),
            3 => Ok(Kind::Partition),
            4 => Ok(Kind::Move),
            _ => Err(Refusal::Field),
        }
    }
}

impl Kind {
    // Whether a field of this kind is allowed at an offset, after so many
    // partitions and moves.
    #[tactic(auto, unfolding(crate::specs::Fields::allowed_of))]
    fn comes(self, at: usize, parts: usize, moves: u64) -> bool
        ensures { result ≡ fields_spec.allowed at parts moves (tag_of self) }
    {
        match self {
            Kind::Taxa => at == 0,
            Kind::Table => at == 4,
            _ if at == 0 || at == 4 => false,
            Kind::Partition => parts == 0 || moves == 0 && parts < taxa::PARTITIONS,
            Kind::Move => parts != 0,
        }
    }
}

// The kind of a tag that is allowed at an offset, after so many partitions and
// moves; 12 where it is not.
#[tactic(auto, using(crate::proofs::FieldLaws::no_tag))]
pub fn allowed(at: usize, parts: usize, moves: u64, tag: u8) -> Result<Kind, Refusal>
    ensures { let ok = fields_spec.allowed at parts moves tag in
        MatchResult result (λ kind. (tag_of kind ≡ tag) × (ok ≡ true))
        (λ why. (why ≡ Field) × (ok ≡ false)) }
{
    let kind = Kind::try_from(tag)?;
    if !kind.comes(at, parts, moves) {
        return Err(Refusal::Field);
    }
    Ok(kind)
}

// The stated length of the field at an offset.
pub fn stated(job: &[u8], at: usize) -> usize
    requires { at + 3 ≤ length job.now }
    ensures { result ≡ stated_at job.now at }
{
    usize::from(u16::from_be_bytes([job[at + 1], job[at + 2]]))
}

// Whether the field at an offset has the length l and is there to its end.
pub fn length_right(job: &[u8], at: usize, l: usize) -> bool
    requires { at < length job.now }
    ensures { result ≡ length_right job.now at l }
{
    let rest = job.len() - at;
    3 <= rest && stated(job, at) == l && l <= rest - 3
}

// The content of the field at an offset, which must be N bytes; 12 where it is
// not, or is cut short.
pub fn content<const N: usize>(job: &[u8], at: usize) -> Result<&[u8; N], Refusal>
    requires { at < length job.now }
    ensures { let right = length_right job.now at N in
        MatchResult result (λ found. (right ≡ true) × (found.now ≡ content_at job.now at N))
        (λ why. (why ≡ Field) × (right ≡ false)) }
{
    if !length_right(job, at, N) {
        return Err(Refusal::Field);
    }
    Ok(job[at + 3..].first_chunk().unwrap())
}

// The number in eight bytes, the high byte first.
#[tactic(auto, using(crate::proofs::FieldLaws::eight_bytes))]
pub fn number_in(bytes: &[u8; 8]) -> u64
    ensures { result ≡ number_in bytes.now }
{
    u64::from_be_bytes(*bytes)
}
