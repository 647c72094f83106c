// A move written into a tree table in place, by its plan.
#![tactic(auto)]

ghost use Rattle.std.specs.Prelude.{◌<◌, ◌≡◌};
ghost use Rattle.moves.specs.Moves as moves_spec;
ghost use Rattle.moves.specs.Moves.{end_on, nni, put_end, move_end};
ghost use Rattle.moves.specs.Between.{side_moved, plan_moved};
ghost use Rattle.table.specs.Between.{HasRow};
ghost use Rattle.moved_rows.specs.Between.{EndMoves, SideMoves, Rewrites};

use moves::{Plan, Side};

// Row r becomes u-v, the smaller end first.
#[tactic(auto, unfolding(moves::specs::Moves::put))]
fn put(t: &mut [u8], r: usize, u: usize, v: usize)
    requires { (HasRow t.old r) × (u < 256) × (v < 256) }
    ensures { t.new ≡ moves_spec.put t.old r u v }
{
    t[2 * r] = u.min(v) as u8;
    t[2 * r + 1] = u.max(v) as u8;
}

// The end that row x has on row e.
fn end_on(t: &[u8], e: usize, x: usize) -> usize
    requires { let t = t.now in (HasRow t e) × (HasRow t x) }
    ensures { result ≡ end_on t.now e x }
{
    let v = table::lo(t, e);
    if table::touches(t, x, v) {
        return v;
    }
    table::hi(t, e)
}

// The NNI edit: rows x and y exchange the ends that they have on row e.
#[tactic(auto, using(crate::proofs::Edits::far_byte, crate::proofs::Edits::end_byte), unfolding(moves::specs::Moves::nni))]
fn exchange(t: &mut [u8], e: usize, x: usize, y: usize)
    requires { let t = t.old in (HasRow t e) × (HasRow t x) × (HasRow t y) }
    ensures { t.new ≡ nni t.old e x y }
{
    let p = end_on(t, e, x);
    let q = table::far(t, e, p);
    let u = table::far(t, x, p);
    let v = table::far(t, y, q);
    put(t, x, q, u);
    put(t, y, p, v);
}

// Rows f and g at node p become one row f between their far ends, and row b
// becomes two rows through p: b and g.
#[tactic(auto, using(crate::proofs::Edits::far_byte, crate::proofs::Edits::one_byte))]
fn put_end(t: &mut [u8], p: usize, f: usize, g: usize, b: usize)
    requires { let t = t.old in (HasRow t f) × (HasRow t g) × (HasRow t b) × (p < 256) }
    ensures { t.new ≡ put_end t.old p f g b }
{
    let r = table::far(t, f, p);
    let s = table::far(t, g, p);
    let c = table::lo(t, b);
    let d = table::hi(t, b);
    put(t, f, r, s);
    put(t, b, c, p);
    put(t, g, p, d);
}

// The end p of row a is moved onto row b; near holds the rows at each node of
// a table whose rows at p are those of this one.
#[tactic(auto, using(crate::proofs::Fitting::two_rows), unfolding(moves::specs::Moves::move_end))]
fn move_end(n: usize, t: &mut [u8], near: &[u8], p: usize, a: usize, b: usize)
    requires { EndMoves n t.old near.now p a b }
    ensures { t.new ≡ move_end n t.old p a b }
{
    let o = node_rows::others(near, a, p);
    put_end(t, p, o.f, o.g, b);
}

// An end of row a is moved onto its target where it goes; else it stays.
fn move_side(n: usize, t: &mut [u8], near: &[u8], a: usize, end: Side)
    requires { SideMoves n t.old near.now a end }
    ensures { t.new ≡ side_moved n t.old a end }
{
    if let Some(b) = end.target {
        move_end(n, t, near, end.node, a, b);
    }
}

// The rows of a move are rewritten by its plan; near holds the rows at each
// node.
#[tactic(auto, unfolding(moves::specs::Between::plan_moved))]
pub fn move_rows(n: usize, t: &mut [u8], near: &[u8], p: Plan)
    requires { Rewrites n t.old near.now p }
    ensures { t.new ≡ plan_moved n t.old p }
{
    if let Some((x, y)) = p.exchanged {
        exchange(t, p.row, x, y);
        return;
    }
    move_side(n, t, near, p.row, p.first);
    move_side(n, t, near, p.row, p.second);
}
