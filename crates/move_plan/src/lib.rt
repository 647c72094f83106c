// Whether the four bytes of a move fit a tree, refusals 7 to 10, and the plan
// of one that does. The kind of a move is asked for here and nowhere else.
#![tactic(auto)]

ghost use Rattle.std.specs.Prelude.{◌*◌, ◌<◌, ◌≤◌, ◌≡◌, [], ◌∷◌};
ghost use Rattle.calls.specs.Calls.{says};
ghost use Rattle.taxa.specs.Most.{most};
ghost use Rattle.tree.specs.Tree.{rows};
ghost use Rattle.table.specs.Between.{HasRow};
ghost use Rattle.moves.specs.Moves as moves_spec;
ghost use Rattle.moves.specs.Moves.{all_rows, at_both};
ghost use Rattle.moves.specs.Between as plans_spec;
ghost use Rattle.move_plan.specs.Entries.{move_of};
ghost use Rattle.move_plan.specs.Between.{kind_of, plan_said, nni_said, spr_said, tbr_said};

use calls::Refusal;
use move_groups::TreeView;
use moves::{Plan, Side};

// The four bytes of a move: its kind, and three row numbers.
#[repr(C)]
#[derive(Clone, Copy)]
pub struct Move {
    pub kind: u8,
    pub first: u8,
    pub second: u8,
    pub third: u8,
}

// The kind of a move; its number is the move's first byte.
#[derive(Clone, Copy, Debug, PartialEq, Eq)]
pub enum Kind {
    Nni = 1,
    Spr = 2,
    Tbr = 3,
}

// The kind that a byte is the number of. Refusal 7.
impl TryFrom<u8> for Kind {
    type Error = Refusal;

    ghost try_from_gives = { λ byte found. found ≡ kind_of byte };

    fn try_from(byte: u8) -> Result<Self, Refusal> {
        match byte {
            1 => Ok(Kind::Nni),
            2 => Ok(Kind::Spr),
            3 => Ok(Kind::Tbr),
            _ => Err(Refusal::Kind),
        }
    }
}

// Whether each number on a list is that of a row.
fn all_rows(n: usize, numbers: &[usize]) -> bool
    requires { (4 ≤ n) × (n ≤ most) }
    ensures { result ≡ all_rows n numbers.now }
{
    let top = 2 * n - 4;
    numbers.iter().all(|r| *r <= top)
}

// Whether row x is at node u and row y at node v.
fn at_both(t: &[u8], x: usize, u: usize, y: usize, v: usize) -> bool
    requires { let t = t.now in (HasRow t x) × (HasRow t y) }
    ensures { result ≡ at_both t.now x u y v }
{
    table::touches(t, x, u) && table::touches(t, y, v)
}

// Whether rows e, x and y fit an NNI.
#[tactic(auto, unfolding(moves::specs::Moves::nni_fits))]
fn nni_fits(tree: &TreeView, e: usize, x: usize, y: usize) -> bool
    requires { let n = tree.now.n in (e < rows n) × (x < rows n) × (y < rows n) }
    ensures { result ≡ moves_spec.nni_fits tree.now.n tree.now.table.now e x y }
{
    let t = tree.table;
    let u = table::lo(t, e);
    let v = table::hi(t, e);
    if u < tree.n || x == e || y == e {
        return false;
    }
    at_both(t, x, u, y, v) || at_both(t, x, v, y, u)
}

// An end v that stays.
fn to_stay(v: usize) -> Side
    ensures { result ≡ plans_spec.to_stay v }
{
    Side {
        node: v,
        target: None,
    }
}

// An end v that is put onto row b, unless b touches it.
fn to_go(t: &[u8], v: usize, b: usize) -> Side
    requires { HasRow t.now b }
    ensures { result ≡ plans_spec.to_go t.now v b }
{
    Side {
        node: v,
        target: (!table::touches(t, b, v)).then_some(b),
    }
}

// An NNI: refusals 8 and 9.
#[tactic(auto, using(crate::proofs::FitLaws::fit_laws), unfolding(calls::specs::Calls::judged))]
fn plan_nni(tree: &TreeView, e: usize, x: usize, y: usize) -> Result<Plan, Refusal>
    ensures { says result ≡ nni_said tree.now.n tree.now.table.now e x y }
{
    if !all_rows(tree.n, &[e, x, y]) {
        return Err(Refusal::Row);
    }
    if !nni_fits(tree, e, x, y) {
        return Err(Refusal::Misfit);
    }
    Ok(Plan {
        row: e,
        first: to_stay(table::lo(tree.table, e)),
        second: to_stay(table::hi(tree.table, e)),
        exchanged: Some((x, y)),
    })
}

// An SPR: refusals 8 to 10.
#[tactic(auto, using(crate::proofs::FitLaws::fit_laws), unfolding(calls::specs::Calls::judged))]
fn plan_spr(tree: &TreeView, a: usize, b: usize) -> Result<Plan, Refusal>
    ensures { says result ≡ spr_said tree.now.n tree.now.table.now a b }
{
    if !all_rows(tree.n, &[a, b]) {
        return Err(Refusal::Row);
    }
    if a == b {
        return Err(Refusal::Misfit);
    }
    let p = tree.end_with(a, b);
    let first = to_go(tree.table, p, b);
    if first.target.is_none() {
        return Err(Refusal::Idle);
    }
    Ok(Plan {
        row: a,
        first,
        second: to_stay(table::far(tree.table, a, p)),
        exchanged: None,
    })
}

// Whether row b is a target for the smaller end of row a, and row c for its
// larger end.
fn tbr_fits(tree: &TreeView, a: usize, b: usize, c: usize) -> bool
    requires { let n = tree.now.n in (a < rows n) × (b < rows n) × (c < rows n) }
    ensures { result ≡ moves_spec.targets tree.now.n tree.now.table.now a b c }
{
    let u = table::lo(tree.table, a);
    let v = table::hi(tree.table, a);
    tree.is_target(a, u, b) && tree.is_target(a, v, c)
}

// A TBR: refusals 8 to 10.
#[tactic(auto, using(crate::proofs::FitLaws::fit_laws), unfolding(calls::specs::Calls::judged))]
fn plan_tbr(tree: &TreeView, a: usize, b: usize, c: usize) -> Result<Plan, Refusal>
    ensures { says result ≡ tbr_said tree.now.n tree.now.table.now a b c }
{
    if !all_rows(tree.n, &[a, b, c]) {
        return Err(Refusal::Row);
    }
    if !tbr_fits(tree, a, b, c) {
        return Err(Refusal::Misfit);
    }
    let t = tree.table;
    let u = table::lo(t, a);
    let v = table::hi(t, a);
    if at_both(t, b, u, c, v) {
        return Err(Refusal::Idle);
    }
    Ok(Plan {
        row: a,
        first: to_go(t, u, b),
        second: to_go(t, v, c),
        exchanged: None,
    })
}

// The plan of a move on a tree that was looked at: refusals 7 to 10.
#[tactic(auto, using(crate::proofs::KindLaws::kinds), unfolding(calls::specs::Calls::judged, moves::specs::Moves::kind_right, moves::specs::Moves::rows_right, moves::specs::Moves::fits, moves::specs::Moves::any_moves, moves::specs::Between::plan_of))]
pub fn plan_of(tree: &TreeView, m: Move) -> Result<Plan, Refusal>
    ensures { says result ≡ plan_said tree.now.n tree.now.table.now (move_of m) }
{
    let a = m.first as usize;
    let b = m.second as usize;
    let c = m.third as usize;
    match Kind::try_from(m.kind)? {
        Kind::Nni => plan_nni(tree, a, b, c),
        Kind::Spr if c == 0 => plan_spr(tree, a, b),
        Kind::Spr => Err(Refusal::Kind),
        Kind::Tbr => plan_tbr(tree, a, b, c),
    }
}
