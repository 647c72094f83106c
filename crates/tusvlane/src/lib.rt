// The library's calls under their C names: include/tusvlane.h declares them.
// Each gives what the call beneath gives, with the refusal as its number.
#![tactic(auto)]

ghost use Rattle.std.specs.Prelude.{◌≡◌};
ghost use Rattle.calls.specs.Refusals.{number_of};
ghost use Rattle.calls.specs.Calls.{says, code_of, refuses};
ghost use Rattle.splits.specs.Promises.{compare_says};
ghost use Rattle.newick_reader.specs.Promises.{reading_says};
ghost use Rattle.move_plan.specs.Entries.{move_of};
ghost use Rattle.move_listing.specs.Listing.{page};
ghost use Rattle.job_steps.specs.Runs as runs;
ghost use Rattle.job_steps.specs.Steps.{lending, stepped_says};
ghost use Rattle.tusvlane.specs.Answers.{answer_of, comparison_of, placed_of, step_answer_of};
ghost use Rattle.tusvlane.specs.Promises.{Checks, Induces, Compares, Applies};
ghost use Rattle.tusvlane.specs.Promises.{Judges, JudgesOne, Lists, Plants, Steps};

use calls::{Refusal, RefusedAt};
use job_steps::{Next, State};
use move_plan::Move;
use newick_reader::Unread;
use splits::Apart;

// A refusal or 0, and one number.
// Kept: the C interface has a number and a value in its structs, here and below.
#[repr(C)]
#[derive(Clone, Copy)]
pub struct Answer {
    pub refusal: u64,
    pub value: u64,
}

// A refusal or 0, the distance, and the smallest number that the second tree
// lacks.
#[repr(C)]
#[derive(Clone, Copy)]
pub struct Comparison {
    pub refusal: u64,
    pub distance: u64,
    pub missing: u64,
}

// A refusal or 0, and its place in a text.
#[repr(C)]
#[derive(Clone, Copy)]
pub struct Placed {
    pub refusal: u64,
    pub place: usize,
}

// A step's refusal or 0 and its place, whether the job is over, how many bytes
// of lines were written, and the next state.
#[repr(C)]
#[derive(Clone, Copy)]
pub struct StepAnswer {
    pub refusal: u64,
    pub ended: u64,
    pub place: usize,
    pub wrote: usize,
    pub next: State,
}

// A refusal's number, as the structs have it.
fn number(why: Refusal) -> u64
    ensures { result ≡ number_of why }
{
    u64::from(u8::from(why))
}

// 0, or a refusal's number, for a call that answers nothing else.
// Kept: the C interface has it so.
fn code(answer: Result<(), Refusal>) -> u32
    ensures { result ≡ code_of (says answer) }
{
    match answer {
        Ok(()) => 0,
        Err(why) => u32::from(u8::from(why)),
    }
}

// A refusal alone.
fn refused(why: Refusal) -> Answer
    ensures { result ≡ answer_of (refuses why) }
{
    let k = number(why);
    Answer {
        refusal: k,
        value: 0,
    }
}

impl From<Result<u64, Refusal>> for Answer {
    ghost from_gives = { λ r a. a ≡ answer_of (says r) };

    fn from(answer: Result<u64, Refusal>) -> Answer {
        match answer {
            Ok(k) => Answer {
                refusal: 0,
                value: k,
            },
            Err(why) => refused(why),
        }
    }
}

impl From<Result<usize, Refusal>> for Answer {
    ghost from_gives = { λ r a. a ≡ answer_of (says r) };

    fn from(answer: Result<usize, Refusal>) -> Answer {
        answer.map(|k| k as u64).into()
    }
}

impl From<Result<Apart, Refusal>> for Comparison {
    ghost from_gives = { λ r a. a ≡ comparison_of (compare_says r) };

    fn from(answer: Result<Apart, Refusal>) -> Comparison {
        match answer {
            Ok(apart) => Comparison {
                refusal: 0,
                distance: apart.distance as u64,
                missing: apart.missing,
            },
            Err(why) => Comparison {
                refusal: number(why),
                distance: 0,
                missing: 0,
            },
        }
    }
}

impl From<Result<(), Unread>> for Placed {
    ghost from_gives = { λ r a. a ≡ placed_of (reading_says r) };

    fn from(answer: Result<(), Unread>) -> Placed {
        match answer {
            Ok(()) => Placed {
                refusal: 0,
                place: 0,
            },
            Err(Unread::Refused(why)) => Placed {
                refusal: number(why),
                place: 0,
            },
            Err(Unread::NotNewick(e)) => Placed {
                refusal: number(Refusal::Text),
                place: e.at,
            },
        }
    }
}

impl From<Result<Option<Next>, RefusedAt>> for StepAnswer {
    ghost from_gives = { λ r a. a ≡ step_answer_of (stepped_says r) };

    fn from(answer: Result<Option<Next>, RefusedAt>) -> StepAnswer {
        match answer {
            Ok(Some(next)) => StepAnswer {
                refusal: 0,
                ended: 0,
                place: 0,
                wrote: next.wrote,
                next: next.state,
            },
            Ok(None) => StepAnswer {
                refusal: 0,
                ended: 1,
                place: 0,
                wrote: 0,
                next: job_steps::start(),
            },
            Err(refused) => StepAnswer {
                refusal: number(refused.why),
                ended: 0,
                place: refused.place,
                wrote: 0,
                next: job_steps::start(),
            },
        }
    }
}

// Whether a table is a tree of n taxa: 0, or a refusal from 1 to 5.
pub fn tusvlane_check_tree(n: usize, table: &[u8]) -> u32
    ensures { Checks n table.now result }
{
    code(sides::check_tree(n, table))
}

// Writes the induced splits of a tree over a partition; how many. Refusals 1
// to 6 and 11.
pub fn tusvlane_induced_splits(n: usize, table: &[u8], partition: u64, out: &mut [u64]) -> Answer
    ensures { Induces n table.now partition out.old result out.new }
{
    splits::induced_splits(n, table, partition, out).into()
}

// How far apart two trees are over a partition. Refusals 1 to 6.
pub fn tusvlane_compare(n: usize, first: &[u8], second: &[u8], partition: u64) -> Comparison
    ensures { Compares n first.now second.now partition result }
{
    splits::compare(n, first, second, partition).into()
}

// Makes a move on the lent table: 0, or a refusal from 1 to 5 and 7 to 10.
pub fn tusvlane_apply_move(n: usize, table: &mut [u8], m: Move) -> u32
    ensures { Applies n table.old (move_of m) result table.new }
{
    code(judge::apply_move(n, table, m))
}

// Writes the distance that a move makes over each partition; how many are 0.
// Refusals 1 to 11, and 16 after 6.
pub fn tusvlane_judge_move(
    n: usize,
    table: &[u8],
    partitions: &[u64],
    m: Move,
    out: &mut [u64],
) -> Answer
    ensures { let ys = partitions.now in
        Judges n table.now ys (move_of m) out.old result out.new }
{
    judge::judge_move(n, table, partitions, m, out).into()
}

// The distance that a move makes over one partition. Refusals 1 to 10.
pub fn tusvlane_judge_one(n: usize, table: &[u8], partition: u64, m: Move) -> Answer
    ensures { JudgesOne n table.now partition (move_of m) result }
{
    judge::judge_one(n, table, partition, m).into()
}

// Makes a move and writes its lines, under the number stated, into out from
// the place on; the place after them. Refusals 1 to 11, and 16 after 6.
pub fn tusvlane_list_move(
    n: usize,
    table: &mut [u8],
    partitions: &[u64],
    m: Move,
    number: u64,
    out: &mut [u8],
    place: usize,
) -> Answer
    ensures { let before = page table.old out.old in
        let after = page table.new out.new in
        Lists n partitions.now (move_of m) number place before result after }
{
    move_listing::list_move(n, table, partitions, m, number, out, place).into()
}

// Reads a tree of n taxa from its Newick text into the lent table. Refusals 1,
// 14 with its place, and 11.
pub fn tusvlane_read_newick(n: usize, text: &[u8], out: &mut [u8]) -> Placed
    ensures { Plants n text.now out.old result out.new }
{
    newick_reader::read_newick(n, text, out).into()
}

// The state before the first field of a job.
pub fn tusvlane_start() -> State
    ensures { result ≡ runs.first }
{
    job_steps::start()
}

// The step over one field of a job, from the state the last step gave.
pub fn tusvlane_step(
    job: &[u8],
    state: State,
    table: &mut [u8],
    partitions: &mut [u64],
    out: &mut [u8],
) -> StepAnswer
    ensures { let m = lending table.old partitions.old out.old in
        let m' = lending table.new partitions.new out.new in
        Steps job.now state m result m' }
{
    job::step(job, state, table, partitions, out).into()
}
