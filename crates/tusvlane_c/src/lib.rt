// The archive for callers in C and Rust: each call of the library under its C
// name, with the same promise.
// Kept: C's names are exported by an archive alone, and no theorem can name an archive's calls.
#![tactic(auto)]

ghost use Rattle.std.specs.Prelude.{◌≡◌};
ghost use Rattle.move_plan.specs.Entries.{move_of};
ghost use Rattle.move_listing.specs.Listing.{page};
ghost use Rattle.job_steps.specs.Runs as runs;
ghost use Rattle.job_steps.specs.Steps.{lending};
ghost use Rattle.tusvlane.specs.Promises.{Checks, Induces, Compares, Applies};
ghost use Rattle.tusvlane.specs.Promises.{Judges, JudgesOne, Lists, Plants, Steps};

use job_steps::State;
use move_plan::Move;
use tusvlane::{Answer, Comparison, Placed, StepAnswer};

// Whether a table is a tree of n taxa: 0, or a refusal from 1 to 5.
#[unsafe(no_mangle)]
pub extern "C" fn tusvlane_check_tree(n: usize, table: &[u8]) -> u32
    ensures { Checks n table.now result }
{
    tusvlane::tusvlane_check_tree(n, table)
}

// Writes the induced splits of a tree over a partition; how many. Refusals 1
// to 6 and 11.
#[unsafe(no_mangle)]
pub extern "C" fn tusvlane_induced_splits(
    n: usize,
    table: &[u8],
    partition: u64,
    out: &mut [u64],
) -> Answer
    ensures { Induces n table.now partition out.old result out.new }
{
    tusvlane::tusvlane_induced_splits(n, table, partition, out)
}

// How far apart two trees are over a partition. Refusals 1 to 6.
#[unsafe(no_mangle)]
pub extern "C" fn tusvlane_compare(
    n: usize,
    first: &[u8],
    second: &[u8],
    partition: u64,
) -> Comparison
    ensures { Compares n first.now second.now partition result }
{
    tusvlane::tusvlane_compare(n, first, second, partition)
}

// Makes a move on the lent table: 0, or a refusal from 1 to 5 and 7 to 10.
#[unsafe(no_mangle)]
pub extern "C" fn tusvlane_apply_move(n: usize, table: &mut [u8], m: Move) -> u32
    ensures { Applies n table.old (move_of m) result table.new }
{
    tusvlane::tusvlane_apply_move(n, table, m)
}

// Writes the distance that a move makes over each partition; how many are 0.
// Refusals 1 to 11, and 16 after 6.
#[unsafe(no_mangle)]
pub extern "C" fn tusvlane_judge_move(
    n: usize,
    table: &[u8],
    partitions: &[u64],
    m: Move,
    out: &mut [u64],
) -> Answer
    ensures { let ys = partitions.now in
        Judges n table.now ys (move_of m) out.old result out.new }
{
    tusvlane::tusvlane_judge_move(n, table, partitions, m, out)
}

// The distance that a move makes over one partition. Refusals 1 to 10.
#[unsafe(no_mangle)]
pub extern "C" fn tusvlane_judge_one(n: usize, table: &[u8], partition: u64, m: Move) -> Answer
    ensures { JudgesOne n table.now partition (move_of m) result }
{
    tusvlane::tusvlane_judge_one(n, table, partition, m)
}

// Makes a move and writes its lines, under the number stated, into out from
// the place on; the place after them. Refusals 1 to 11, and 16 after 6.
#[unsafe(no_mangle)]
pub extern "C" fn tusvlane_list_move(
    n: usize,
    table: &mut [u8],
    partitions: &[u64],
    m: Move,
    number: u64,
    out: &mut [u8],
    place: usize,
) -> Answer
    ensures { let before = page table.old out.old in
        let after = page table.new out.new in
        Lists n partitions.now (move_of m) number place before result after }
{
    tusvlane::tusvlane_list_move(n, table, partitions, m, number, out, place)
}

// Reads a tree of n taxa from its Newick text into the lent table. Refusals 1,
// 14 with its place, and 11.
#[unsafe(no_mangle)]
pub extern "C" fn tusvlane_read_newick(n: usize, text: &[u8], out: &mut [u8]) -> Placed
    ensures { Plants n text.now out.old result out.new }
{
    tusvlane::tusvlane_read_newick(n, text, out)
}

// The state before the first field of a job.
#[unsafe(no_mangle)]
pub extern "C" fn tusvlane_start() -> State
    ensures { result ≡ runs.first }
{
    tusvlane::tusvlane_start()
}

// The step over one field of a job, from the state the last step gave.
#[unsafe(no_mangle)]
pub extern "C" fn tusvlane_step(
    job: &[u8],
    state: State,
    table: &mut [u8],
    partitions: &mut [u64],
    out: &mut [u8],
) -> StepAnswer
    ensures { let m = lending table.old partitions.old out.old in
        let m' = lending table.new partitions.new out.new in
        Steps job.now state m result m' }
{
    tusvlane::tusvlane_step(job, state, table, partitions, out)
}
