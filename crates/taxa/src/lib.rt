// Sets of taxa as 64-bit numbers: bit i stands for taxon i.
#![tactic(auto)]

ghost use Rattle.std.specs.Prelude.{◌<◌, ◌≤◌, ◌^◌, ◌≡◌, ltb};
ghost use Rattle.taxa.specs.Most.{most};
ghost use Rattle.taxa.specs.Sets as sets;

// The largest number of taxa.
pub const MOST: usize = 64;

// The largest number of partitions on a list.
pub const PARTITIONS: usize = 64;

// Whether taxon i is in s.
#[tactic(auto, unfolding(crate::specs::Sets::has))]
pub fn has(s: u64, i: usize) -> bool
    requires { i < most }
    ensures { result ≡ sets.has s i }
{
    (s >> i) % 2 == 1
}

// The set of taxon i alone.
pub fn only(i: usize) -> u64
    requires { i < most }
    ensures { result ≡ sets.only i }
{
    1 << i
}

// All n taxa.
pub fn full(n: usize) -> u64
    requires { (0 < n) × (n ≤ most) }
    ensures { result ≡ sets.full n }
{
    let high = only(n - 1);
    high - 1 + high
}

// Whether y names none but the n taxa.
pub fn within(y: u64, n: usize) -> bool
    requires { (0 < n) × (n ≤ most) }
    ensures { result ≡ ltb y (2 ^ n) }
{
    y <= full(n)
}

// The union of the sets on a list.
pub fn union(ys: &[u64]) -> u64
    ensures { result ≡ sets.union ys.now }
{
    ys.iter().fold(0, |all, y| all | y)
}

// The members of y that are not in s.
#[tactic(auto, unfolding(crate::specs::Sets::less))]
pub fn less(y: u64, s: u64) -> u64
    ensures { result ≡ sets.less y s }
{
    y ^ (s & y)
}

// The lowest taxon of y, or the largest number of taxa where y is empty.
// Kept: a number for none, as the definition `lowest` has it, which theorems name.
#[tactic(auto, unfolding(crate::specs::Sets::lowest))]
pub fn lowest(y: u64) -> usize
    ensures { result ≡ sets.lowest most y }
{
    u64::trailing_zeros(y) as usize
}

// How many taxa y has.
#[tactic(auto, using(crate::proofs::Words::ones_size))]
pub fn size(y: u64) -> usize
    ensures { result ≡ sets.size most y }
{
    u64::count_ones(y) as usize
}
