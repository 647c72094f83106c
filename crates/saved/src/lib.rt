// How many partitions count as saved by a move.
#![tactic(auto)]

ghost use Rattle.std.specs.Prelude.{◌≡◌};
ghost use Rattle.taxa.specs.Most.{most};
ghost use Rattle.saved.specs.Saved.{counts_as_saved, saved_of};

// The fewest taxa with which a partition is scored: over fewer there is one
// tree only, so it never changes.
const FEWEST_SCORED: usize = 4;

// Whether a partition counts as saved, where its distance is d: it is the same
// and has four or more taxa.
#[tactic(auto, unfolding(crate::specs::Saved::counts_as_saved, crate::specs::Saved::four_or_more))]
fn counts_as_saved(y: u64, d: u64) -> bool
    ensures { result ≡ counts_as_saved most y d }
{
    d == 0 && taxa::size(y) >= FEWEST_SCORED
}

// How many of the partitions count as saved, each with its distance.
pub fn saved_of(ys: &[u64], ds: &[u64]) -> usize
    ensures { result ≡ saved_of most ys.now ds.now }
{
    ys.iter()
        .zip(ds)
        .filter(|(y, d)| counts_as_saved(**y, **d))
        .count()
}
