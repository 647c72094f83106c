// The tree table in bytes: its rows, the refusals of document 01, and the
// checks 1 to 4.
#![tactic(auto)]

ghost use Rattle.std.specs.Prelude.{◌+◌, ◌*◌, ◌-◌, ◌<◌, ◌≤◌, ◌≡◌, eqb, length, get_or};
ghost use Rattle.std.specs.List.{list_all};
ghost use Rattle.taxa.specs.Most.{most};
ghost use Rattle.calls.specs.Calls.{says};
ghost use Rattle.tree.specs.Tree as tree_spec;
ghost use Rattle.tree.specs.Tree.{rows, nodes, in_order, every};
ghost use Rattle.table.specs.Between.{row_said, HasRow, Ordered, Counted};

use calls::Refusal;

// The most nodes that a tree has.
const NODES: usize = 126;

// The first end of row r.
// Kept: a bare table, for rows are read and written before it is known to be a tree.
// Kept: `lo` and `hi` are two words of the definition; one function over 0 and 1 says less.
pub fn lo(t: &[u8], r: usize) -> usize
    requires { HasRow t.now r }
    ensures { result ≡ tree_spec.lo t.now r }
{
    t[2 * r] as usize
}

// The second end of row r.
pub fn hi(t: &[u8], r: usize) -> usize
    requires { HasRow t.now r }
    ensures { result ≡ tree_spec.hi t.now r }
{
    t[2 * r + 1] as usize
}

// The end of row r that is not v.
#[tactic(auto, unfolding(tree::specs::Tree::far))]
pub fn far(t: &[u8], r: usize, v: usize) -> usize
    requires { HasRow t.now r }
    ensures { result ≡ tree_spec.far t.now r v }
{
    let a = lo(t, r);
    if a == v {
        return hi(t, r);
    }
    a
}

// Whether row r is at node v.
pub fn touches(t: &[u8], r: usize, v: usize) -> bool
    requires { HasRow t.now r }
    ensures { result ≡ tree_spec.touches t.now r v }
{
    if lo(t, r) == v {
        return true;
    }
    hi(t, r) == v
}

// Whether each row's ends are nodes, the smaller first; with no early end, so
// that a processor takes several rows at a time.
fn ordered(n: usize, t: &[u8]) -> bool
    requires { (4 ≤ n) × (n ≤ most) × (length t.now ≡ 2 * rows n) }
    ensures { result ≡ every (in_order n t.now) (rows n) }
{
    let top = (2 * n - 3) as u8;
    let (rows, _) = t.as_chunks::<2>();
    rows.iter().fold(
        true,
        |right, row| right & (row[0] < row[1]) & (row[1] <= top),
    )
}

// At how many rows each node is.
fn degrees(n: usize, t: &[u8]) -> [u8; NODES]
    requires { Ordered n t.now }
    ensures { Counted n t.now result (rows n) }
{
    let mut d = [0u8; NODES];
    for r in 0..2 * n - 3 {
        d[lo(t, r)] += 1;
        d[hi(t, r)] += 1;
    }
    d
}

// Whether each count is k; with no early end, so that a processor takes 16 of
// them at a time.
fn all_at(d: &[u8], k: u8) -> bool
    ensures { result ≡ list_all (λ x. eqb x k) d.now }
{
    d.iter().fold(true, |all, x| all & (*x == k))
}

// Whether each node is at as many rows as it must be: a taxon at one, an inner
// node at three.
fn degrees_right(n: usize, d: &[u8; NODES]) -> bool
    requires { (4 ≤ n) × (n ≤ most) }
    ensures { result ≡ every (λ v. eqb (get_or d.now v 0) (tree_spec.wanted n v)) (nodes n) }
{
    all_at(&d[..n], 1) && all_at(&d[n..2 * n - 2], 3)
}

// The checks 1 to 4.
pub fn check_rows(n: usize, t: &[u8]) -> Result<(), Refusal>
    ensures { says result ≡ row_said n t.now }
{
    if n < 4 {
        return Err(Refusal::Count);
    }
    if taxa::MOST < n {
        return Err(Refusal::Count);
    }
    if t.len() != 2 * (2 * n - 3) {
        return Err(Refusal::Length);
    }
    if !ordered(n, t) {
        return Err(Refusal::Ends);
    }
    let d = degrees(n, t);
    if !degrees_right(n, &d) {
        return Err(Refusal::Degree);
    }
    Ok(())
}
