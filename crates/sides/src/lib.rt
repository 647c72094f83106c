// The check of a tree, and the side of every row: both from an order of the
// inner nodes from the leaves inward.
#![tactic(auto)]

ghost use Rattle.std.specs.Prelude.{◌%◌, ◌^◌, ◌<◌, ◌≤◌, ◌≡◌, length, set};
ghost use Rattle.taxa.specs.Most.{most};
ghost use Rattle.tree.specs.Tree.{rows, far, part};
ghost use Rattle.tree.specs.Splits.{side};
ghost use Rattle.tree.specs.Refusals.{Accepted};
ghost use Rattle.table.specs.Between.{HasRow};
ghost use Rattle.node_rows.specs.Between.{no_rows, up};
ghost use Rattle.inward.specs.Between.{Inward};
ghost use Rattle.sides.specs.Between.{At, Sides, AtTaxa, Behind, Arranges};
ghost use Rattle.sides.specs.Between.{noted, Found, Sighted};
ghost use Rattle.sides.specs.Promises.{Checks};

use calls::Refusal;

// The most rows that a tree has.
pub const ROWS: usize = 125;

// Stores the side of row e, s being the taxa with its end v.
fn note(n: usize, t: &[u8], sides: &mut [u64; ROWS], e: usize, v: usize, s: u64)
    requires { (4 ≤ n) × (n ≤ most) × (HasRow t.now e) × (e < rows most) }
    ensures { sides.new ≡ set sides.old e (noted n t.now e v s) }
{
    if table::lo(t, e) == v {
        sides[e] = s;
        return;
    }
    let all = taxa::full(n);
    sides[e] = taxa::less(all, s);
}

// The taxa with the end of row x that is not v, s being its side.
#[tactic(auto, using(crate::proofs::FillLaws::across_lo, crate::proofs::FillLaws::across_hi))]
pub fn across(n: usize, t: &[u8], x: usize, v: usize, s: u64) -> u64
    requires { let t = t.now in (At n t x v) × (s ≡ side n t x) }
    ensures { let t = t.entry.now in result ≡ part n t x (far t x v) % 2 ^ n }
{
    if table::lo(t, x) == v {
        let all = taxa::full(n);
        return taxa::less(all, s);
    }
    s
}

// Stores the side of each row at a taxon.
fn taxa_sides(n: usize, t: &[u8], s: &mut [u64; ROWS])
    requires { (Accepted n t.now) × (length s.old ≡ rows most) }
    ensures { AtTaxa n t.now s.new (rows n) }
{
    for r in 0..2 * n - 3 {
        let v = table::lo(t, r);
        if v < n {
            s[r] = taxa::only(v);
        }
    }
}

// Stores the side of the row that leads on from the inner node v, from those
// of the two rows behind it.
#[tactic(auto, using(crate::proofs::FillLaws::gathered_here))]
fn gather_at(n: usize, t: &[u8], near: &[u8; node_rows::PLACES], s: &mut [u64; ROWS], v: usize)
    requires { Behind n t.now near.now s.old v }
    ensures { let r = up near.now v in
        s.new ≡ set s.old r (side n t.now r) }
{
    let p = 4 * v;
    let r = near[p] as usize;
    let f = near[p + 1] as usize;
    let g = near[p + 2] as usize;
    let x = across(n, t, f, v, s[f]) | across(n, t, g, v, s[g]);
    note(n, t, s, r, v, x);
}

// Stores the side of every row, node by node in the order; those of the rows
// at a taxon are stored before.
fn gather(n: usize, t: &[u8], near: &[u8; node_rows::PLACES], s: &mut [u64; ROWS])
    requires { let t = t.now in
        (Accepted n t) × (Inward n t near.now) × (AtTaxa n t s.old (rows n)) }
    ensures { Sides n t.now s.new }
{
    for j in 0..n - 2 {
        let v = near[4 * j + 3] as usize;
        gather_at(n, t, near, s, v);
    }
}

// The check of a tree; an order of its inner nodes is left in the lent array.
fn arrange(n: usize, t: &[u8], near: &mut [u8; node_rows::PLACES]) -> Result<(), Refusal>
    requires { near.old ≡ no_rows }
    ensures { Arranges n t.now result near.new }
{
    table::check_rows(n, t)?;
    if inward::order(n, t, near) {
        return Ok(());
    }
    Err(Refusal::Unreached)
}

// The check of a tree; the rows at each node and the side of every row of one
// are left in the lent arrays.
pub fn look(
    n: usize,
    t: &[u8],
    near: &mut [u8; node_rows::PLACES],
    sides: &mut [u64; ROWS],
) -> Result<(), Refusal>
    requires { (near.old ≡ no_rows) × (length sides.old ≡ rows most) }
    ensures { Found n t.now result near.new sides.new }
{
    arrange(n, t, near)?;
    taxa_sides(n, t, sides);
    gather(n, t, near, sides);
    Ok(())
}

// The check of a tree; the side of every row of one is left in the lent array.
pub fn find_sides(n: usize, t: &[u8], sides: &mut [u64; ROWS]) -> Result<(), Refusal>
    requires { length sides.old ≡ rows most }
    ensures { Sighted n t.now result sides.new }
{
    let mut near = [node_rows::FREE; node_rows::PLACES];
    look(n, t, &mut near, sides)
}

// The check of a tree: refusals 1 to 5.
pub fn check_tree(n: usize, t: &[u8]) -> Result<(), Refusal>
    ensures { Checks n t.now result }
{
    let mut near = [node_rows::FREE; node_rows::PLACES];
    arrange(n, t, &mut near)
}
