// The induced splits of a tree over a partition, and the comparison of two
// trees.
#![tactic(auto)]

ghost use Rattle.std.specs.Prelude.{◌^◌, ◌≤◌, ◌≡◌, length};
ghost use Rattle.taxa.specs.Most.{most};
ghost use Rattle.tree.specs.Tree.{rows};
ghost use Rattle.tree.specs.Splits as spec;
ghost use Rattle.tree.specs.Refusals.{Accepted};
ghost use Rattle.sides.specs.Between.{Sided};
ghost use Rattle.splits.specs.Between.{SplitList, Listed, lists_apart};
ghost use Rattle.splits.specs.Promises.{Induces, apart, Compares};

use calls::Refusal;

// How far two trees are apart over a partition: the distance, and the smallest
// number that the second tree lacks, or 0.
#[derive(Clone, Copy, Debug, PartialEq, Eq)]
pub struct Apart {
    pub distance: usize,
    pub missing: u64,
}

// How many induced splits a tree has over a partition of m taxa.
fn members(m: usize) -> usize
    requires { m ≤ most }
    ensures { result ≡ spec.members m }
{
    if m < 2 {
        return 0;
    }
    2 * m - 3
}

// The same where the partition names none but the n taxa and the room
// suffices: refusals 6 and 11.
fn induced_tree(
    n: usize,
    t: &[u8],
    s: &[u64; sides::ROWS],
    y: u64,
    out: &mut [u64],
) -> Result<usize, Refusal>
    requires { Sided n t.now s.now }
    ensures { Induces n t.now y out.old result out.new }
{
    if !taxa::within(y, n) {
        return Err(Refusal::Partition);
    }
    let m = taxa::size(y);
    if out.len() < members(m) {
        return Err(Refusal::Room);
    }
    Ok(split_lists::tree_splits(n, t, s, y, out))
}

// The induced splits of a tree over y, ascending, each once, written into out:
// refusals 1 to 6 and 11.
pub fn induced_splits(n: usize, t: &[u8], y: u64, out: &mut [u64]) -> Result<usize, Refusal>
    ensures { Induces n t.now y out.old result out.new }
{
    let mut s = [0u64; sides::ROWS];
    sides::find_sides(n, t, &mut s)?;
    induced_tree(n, t, &s, y, out)
}

// The comparison of two lists of splits.
fn compare_lists(a: &[u64], b: &[u64]) -> Apart
    requires { (SplitList a.now) × (SplitList b.now) }
    ensures { apart result ≡ lists_apart a.now b.now }
{
    let lost = ascending::count_lacking(a, b);
    let gained = ascending::count_lacking(b, a);
    Apart {
        distance: lost + gained,
        missing: ascending::first_lacking(a, b),
    }
}

// The comparison of the tree t, whose splits over y are a, with the table u:
// refusals 2 to 5 of u. The lent array is for the sides of u.
fn compare_with(
    n: usize,
    t: &[u8],
    a: &[u64],
    u: &[u8],
    y: u64,
    s: &mut [u64; sides::ROWS],
) -> Result<Apart, Refusal>
    requires { (Listed n t.now y a.now) × (length s.old ≡ rows most) }
    ensures { Compares n t.now u.now y result }
{
    sides::find_sides(n, u, s)?;
    let mut b = [0u64; sides::ROWS];
    let j = split_lists::tree_splits(n, u, s, y, &mut b);
    Ok(compare_lists(a, &b[..j]))
}

// The comparison of the tree t with the table u where y names more than the
// taxa: refusals 2 to 5 of u, and 6.
fn compare_without(n: usize, t: &[u8], u: &[u8], y: u64) -> Result<Apart, Refusal>
    requires { (Accepted n t.now) × (2 ^ n ≤ y) }
    ensures { Compares n t.now u.now y result }
{
    sides::check_tree(n, u)?;
    Err(Refusal::Partition)
}

// The comparison of the tree t, whose sides are s, with the table u. The sides
// of u take their place when the splits of t are listed.
fn compare_second(
    n: usize,
    t: &[u8],
    u: &[u8],
    y: u64,
    s: &mut [u64; sides::ROWS],
) -> Result<Apart, Refusal>
    requires { Sided n t.now s.old }
    ensures { Compares n t.now u.now y result }
{
    if !taxa::within(y, n) {
        return compare_without(n, t, u, y);
    }
    let mut a = [0u64; sides::ROWS];
    let i = split_lists::tree_splits(n, t, s, y, &mut a);
    compare_with(n, t, &a[..i], u, y, s)
}

// The comparison of two trees over y: refusals 1, 2 to 5 of the first, 2 to 5
// of the second, and 6.
pub fn compare(n: usize, t: &[u8], u: &[u8], y: u64) -> Result<Apart, Refusal>
    ensures { Compares n t.now u.now y result }
{
    let mut s = [0u64; sides::ROWS];
    sides::find_sides(n, t, &mut s)?;
    compare_second(n, t, u, y, &mut s)
}
