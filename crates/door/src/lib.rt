// The front door of the calls about a move: the tree, the partitions and the
// move are checked in the order of the refusals, and what was found goes on as
// the plan of the move.
#![tactic(auto)]

ghost use Rattle.std.specs.Prelude.{◌≤◌, ◌≡◌, length};
ghost use Rattle.calls.specs.Calls.{says};
ghost use Rattle.taxa.specs.Most.{most};
ghost use Rattle.taxa.specs.Sets.{has};
ghost use Rattle.tree.specs.Tree.{rows, every};
ghost use Rattle.tree.specs.Refusals.{all_seen, partition_checks, partitions_checks};
ghost use Rattle.node_rows.specs.Between.{no_rows};
ghost use Rattle.move_plan.specs.Entries.{move_of};
ghost use Rattle.door.specs.Between as entered;
ghost use Rattle.door.specs.Between.{parts_said, opened_said, Entered};

use calls::Refusal;
use move_groups::TreeView;
use move_plan::Move;
use moves::Plan;

// Whether n is a number of taxa.
fn counted(n: usize) -> bool
    ensures { result ≡ entered.counted n }
{
    (4..=taxa::MOST).contains(&n)
}

// Whether there is one partition at least and not too many.
fn count_right(count: usize) -> bool
    ensures { result ≡ entered.count_right count }
{
    (1..=taxa::PARTITIONS).contains(&count)
}

// Whether each of the n taxa is in y.
#[tactic(auto, using(crate::proofs::PartitionLaws::covers_is))]
fn covers(n: usize, y: u64) -> bool
    requires { (4 ≤ n) × (n ≤ most) }
    ensures { result ≡ every (has y) n }
{
    let all = taxa::full(n);
    taxa::less(all, y) == 0
}

// Whether each of the n taxa is in some partition on a list.
#[tactic(auto, using(crate::proofs::PartitionLaws::union_laws))]
pub fn all_seen(n: usize, ys: &[u64]) -> bool
    requires { (4 ≤ n) × (n ≤ most) }
    ensures { result ≡ all_seen n ys.now }
{
    covers(n, taxa::union(ys))
}

// The test of one partition: refusal 6. It says nothing where n is no number
// of taxa, for then the tree is refused.
#[tactic(auto, unfolding(calls::specs::Calls::judged))]
pub fn part_fits(n: usize, y: u64) -> Result<(), Refusal>
    ensures { says result ≡ parts_said n (partition_checks n y) }
{
    if !counted(n) {
        return Ok(());
    }
    if !taxa::within(y, n) {
        return Err(Refusal::Partition);
    }
    Ok(())
}

// The test of a list of partitions: refusals 6 and 16. Their union is found
// once.
#[tactic(auto, using(crate::proofs::PartitionLaws::list_laws))]
pub fn parts_fit(n: usize, ys: &[u64]) -> Result<(), Refusal>
    ensures { says result ≡ parts_said n (partitions_checks n ys.now) }
{
    if !counted(n) {
        return Ok(());
    }
    if !count_right(ys.len()) {
        return Err(Refusal::Partition);
    }
    let all = taxa::union(ys);
    if !taxa::within(all, n) {
        return Err(Refusal::Partition);
    }
    if !covers(n, all) {
        return Err(Refusal::Unseen);
    }
    Ok(())
}

// What is found of a move on a tree that was looked at, after the test of its
// partitions: their refusal, or 7 to 10.
pub fn plan_after(tree: &TreeView, parts: Result<(), Refusal>, m: Move) -> Result<Plan, Refusal>
    ensures { let n = tree.now.n in
        says result ≡ opened_said n tree.now.table.now (says parts) (move_of m) }
{
    parts?;
    move_plan::plan_of(tree, m)
}

// The front door: refusals 1 to 5, those of the partitions, and 7 to 10. The
// rows at each node and the side of every row are left in the lent arrays.
#[tactic(auto, using(crate::proofs::DoorLaws::entering))]
pub fn enter(
    n: usize,
    t: &[u8],
    near: &mut [u8; node_rows::PLACES],
    s: &mut [u64; sides::ROWS],
    parts: Result<(), Refusal>,
    m: Move,
) -> Result<Plan, Refusal>
    requires { (near.old ≡ no_rows) × (length s.old ≡ rows most) }
    ensures { Entered n t.now (says parts) (move_of m) result near.new s.new }
{
    sides::look(n, t, near, s)?;
    let tree = TreeView {
        n,
        table: t,
        near,
        sides: s,
    };
    plan_after(&tree, parts, m)
}
