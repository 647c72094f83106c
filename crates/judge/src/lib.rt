// The calls about a move: applied to a table, and judged for partitions before
// anything is scored.
#![tactic(auto)]

ghost use Rattle.std.specs.Prelude.{◌^◌, ◌<◌, ◌≡◌};
ghost use Rattle.calls.specs.Calls.{Pass};
ghost use Rattle.tree.specs.Splits.{dist, distances};
ghost use Rattle.tree.specs.Refusals.{partitions_checks};
ghost use Rattle.node_rows.specs.Between.{Near};
ghost use Rattle.moves.specs.Between.{Planned, plan_moved};
ghost use Rattle.move_plan.specs.Entries.{move_of};
ghost use Rattle.judge.specs.Promises.{Applies, JudgesAll, JudgesOne};
ghost use Rattle.judge.specs.Between.{JudgesPlan, Judgeable};
ghost use Rattle.calls.specs.Between.{Wrote};
ghost use Rattle.group_rule.specs.Zeros.{zeros};

use calls::Refusal;
use move_groups::{Groups, TreeView};
use move_plan::Move;
use moves::Plan;

// Applies a move to a table: refusals 1 to 5 and 7 to 10.
pub fn apply_move(n: usize, t: &mut [u8], m: Move) -> Result<(), Refusal>
    ensures { Applies n t.old (move_of m) result t.new }
{
    let mut near = [node_rows::FREE; node_rows::PLACES];
    let mut s = [0u64; sides::ROWS];
    let p = door::enter(n, t, &mut near, &mut s, Ok(()), m)?;
    moved_rows::move_rows(n, t, &near, p);
    Ok(())
}

// Writes the distance over each partition at the start of out; how many are
// the same.
pub fn judge_groups(tree: &TreeView, p: Plan, ys: &[u64], out: &mut [u64]) -> usize
    requires near { Near tree.now.n tree.now.table.now tree.now.near.now }
    requires judged { let n = tree.now.n in
        (Planned n tree.now.table.now p) × (Judgeable n ys.now out.old) }
    ensures { let n = tree.entry.now.n in
        let t = tree.entry.now.table.now in
        let ds = distances n t (plan_moved n t p) ys.now in
        Wrote zeros ds out.old result out.new }
{
    let mut gs = Groups::new();
    let mut hs = Groups::new();
    tree.groups(p.row, p.first, &mut gs);
    tree.groups(p.row, p.second, &mut hs);
    group_rule::distance_each(p.exchanged.is_some(), &gs, &hs, ys, out)
}

// The judgement of a move that fits, where the partitions are right: refusal
// 11.
fn judge_plan(tree: &TreeView, p: Plan, ys: &[u64], out: &mut [u64]) -> Result<usize, Refusal>
    requires near { Near tree.now.n tree.now.table.now tree.now.near.now }
    requires judged { let n = tree.now.n in
        (Planned n tree.now.table.now p) × (Pass (partitions_checks n ys.now)) }
    ensures { let v = tree.entry.now in
        JudgesPlan v.n v.table.now ys.entry.now p out.old result out.new }
{
    if out.len() < ys.len() {
        return Err(Refusal::Room);
    }
    Ok(judge_groups(tree, p, ys, out))
}

// Judges a move for a list of partitions: how many are the same. The distance
// of each is written into out; the table is not changed. Refusals 1 to 11, and
// 16 after 6.
pub fn judge_move(
    n: usize,
    t: &[u8],
    ys: &[u64],
    m: Move,
    out: &mut [u64],
) -> Result<usize, Refusal>
    ensures { let m = move_of m in
        JudgesAll n t.now ys.now m out.old result out.new }
{
    let mut near = [node_rows::FREE; node_rows::PLACES];
    let mut s = [0u64; sides::ROWS];
    let parts = door::parts_fit(n, ys);
    let p = door::enter(n, t, &mut near, &mut s, parts, m)?;
    let tree = TreeView {
        n,
        table: t,
        near: &near,
        sides: &s,
    };
    judge_plan(&tree, p, ys, out)
}

// The distance over y of a move that fits: that over the one partition of a
// list.
#[tactic(auto, using(crate::proofs::GroupLaws::of_one))]
fn one_groups(tree: &TreeView, p: Plan, y: u64) -> u64
    requires near { Near tree.now.n tree.now.table.now tree.now.near.now }
    requires judged { let n = tree.now.n in (Planned n tree.now.table.now p) × (y < 2 ^ n) }
    ensures { let n = tree.entry.now.n in
        let t = tree.entry.now.table.now in result ≡ dist n t (plan_moved n t p) y }
{
    let mut out = [0];
    judge_groups(tree, p, &[y], &mut out);
    out[0]
}

// Judges a move for one partition: its distance, 0 where it is the same.
// Refusals 1 to 10.
pub fn judge_one(n: usize, t: &[u8], y: u64, m: Move) -> Result<u64, Refusal>
    ensures { JudgesOne n t.now y (move_of m) result }
{
    let mut near = [node_rows::FREE; node_rows::PLACES];
    let mut s = [0u64; sides::ROWS];
    let parts = door::part_fits(n, y);
    let p = door::enter(n, t, &mut near, &mut s, parts, m)?;
    let tree = TreeView {
        n,
        table: t,
        near: &near,
        sides: &s,
    };
    Ok(one_groups(&tree, p, y))
}
