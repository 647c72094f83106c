// A taxon's label at a place of a text, judged byte by byte.
#![tactic(auto)]

ghost use Rattle.std.specs.Prelude.{◌<◌, ◌≤◌, ◌≡◌, length, IfSome};
ghost use Rattle.taxa.specs.Sets as sets;
ghost use Rattle.newick_labels.specs.Between.{digit_at, begun, LabelIs};

// A label that was read: its taxon, and the place after it.
#[derive(Clone, Copy, Debug, PartialEq, Eq)]
pub struct Label {
    pub taxon: usize,
    pub end: usize,
}

// The text is not Newick: the first byte with which it can no longer become a
// tree's, or its length where it ends too soon.
#[derive(Clone, Copy, Debug, PartialEq, Eq)]
pub struct NotNewick {
    pub at: usize,
}

// The digit at a place, where one stands there.
#[tactic(auto, using(crate::proofs::HeadLaws::digits))]
pub fn digit_at(s: &[u8], at: usize) -> Option<usize>
    ensures is { result ≡ digit_at s.now at }
    ensures low { IfSome result (λ d. d < 10) }
{
    match s.get(at) {
        Some(b) if b.is_ascii_digit() => Some(usize::from(*b - b'0')),
        _ => None,
    }
}

// Whether d is in `allowed`, also for a number that no taxon has.
#[tactic(auto, using(crate::proofs::HeadLaws::has_not))]
fn among(allowed: u64, d: usize) -> bool
    ensures { result ≡ sets.has allowed d }
{
    d < taxa::MOST && taxa::has(allowed, d)
}

// Whether a taxon of `allowed` begins with the digit a: it is a, or one of the
// ten that have a second digit. With two digits a taxon is 10 to 63.
#[tactic(auto, using(crate::proofs::HeadLaws::heads))]
fn begins(allowed: u64, a: usize) -> bool
    requires { a < 10 }
    ensures { result ≡ begun allowed a }
{
    taxa::has(allowed, a) || (0 < a && a < 7 && (allowed >> (10 * a)) % 1024 != 0)
}

// The label at a place, which must be one of the taxa in `allowed`.
pub fn read(s: &[u8], at: usize, allowed: u64) -> Result<Label, NotNewick>
    requires { at ≤ length s.now }
    ensures { LabelIs s.now at allowed result }
{
    let a = digit_at(s, at).ok_or(NotNewick { at })?;
    if !begins(allowed, a) {
        return Err(NotNewick { at });
    }
    // 0 begins no other label
    if a == 0 {
        return Ok(Label {
            taxon: 0,
            end: at + 1,
        });
    }
    let (taxon, end) = match digit_at(s, at + 1) {
        Some(b) => (10 * a + b, at + 2),
        None => (a, at + 1),
    };
    if !among(allowed, taxon) {
        return Err(NotNewick { at: at + 1 });
    }
    Ok(Label { taxon, end })
}
