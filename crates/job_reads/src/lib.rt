// The four kinds of field of a job, each read where its kind may come.
#![tactic(auto)]

ghost use Rattle.std.specs.Prelude.{◌+◌, ◌*◌, ◌<◌, ◌≤◌, ◌≡◌, length};
ghost use Rattle.taxa.specs.Most.{most};
ghost use Rattle.tree.specs.Tree.{rows};
ghost use Rattle.calls.specs.Calls.{tells};
ghost use Rattle.job_steps.specs.Job.{taxa_step, table_step, put_step, partition_step, move_step, longest};
ghost use Rattle.job_steps.specs.Steps.{lending, table_lent, parts_lent, known_of};
ghost use Rattle.job_steps.specs.Steps.{fitting, says_from, told_of, GivesFrom};
ghost use Rattle.job_steps.specs.Between.{kept_step, Held};

use calls::Refusal;
use job_steps::{Next, State};
use move_plan::Move;

// The number of taxa.
#[tactic(auto, unfolding(calls::specs::Calls::judged))]
pub fn read_taxa(job: &[u8], at: usize) -> Result<Next, Refusal>
    requires { at < length job.now }
    ensures { says_from at result ≡ tells told_of (taxa_step job.now at) }
{
    let [count] = *fields::content::<1>(job, at)?;
    let n = usize::from(count);
    if n < 4 || taxa::MOST < n {
        return Err(Refusal::Count);
    }
    Ok(Next {
        state: State {
            at: at + 4,
            taxa: n,
            parts: 0,
            moves: 0,
        },
        wrote: 0,
    })
}

// Puts the table t of a tree, read at an offset, into the lent memory; 11
// where it does not fit.
fn put_table(at: usize, n: usize, t: &[u8], table: &mut [u8]) -> Result<Next, Refusal>
    requires { (at ≤ longest) × (length t.now ≤ longest) }
    ensures { let m = table_lent table.old in
        GivesFrom at (fitting at m (put_step at n t.now)) result m (table_lent table.new) }
{
    if table.len() < t.len() {
        return Err(Refusal::Room);
    }
    table[..t.len()].copy_from_slice(t);
    Ok(Next {
        state: State {
            at: at + 3 + t.len(),
            taxa: n,
            parts: 0,
            moves: 0,
        },
        wrote: 0,
    })
}

// Keeps the table t of the field at an offset where it is a tree: refusals 3
// to 5, then 11.
#[tactic(auto, unfolding(calls::specs::Calls::judged))]
fn keep_table(at: usize, n: usize, t: &[u8], table: &mut [u8]) -> Result<Next, Refusal>
    requires { (at ≤ longest) × (4 ≤ n) × (n ≤ most) × (length t.now ≡ 2 * rows n) }
    ensures { let m = table_lent table.old in
        GivesFrom at (fitting at m (kept_step at n t.now)) result m (table_lent table.new) }
{
    sides::check_tree(n, t)?;
    put_table(at, n, t, table)
}

// The table. It is called and not inlined, so that what its check takes of the
// stack is not there when a move is listed.
#[inline(never)]
#[tactic(auto, unfolding(calls::specs::Calls::judged))]
pub fn read_table(job: &[u8], at: usize, n: usize, table: &mut [u8]) -> Result<Next, Refusal>
    requires { let l = length job.now in (at < l) × (l ≤ longest) × (4 ≤ n) × (n ≤ most) }
    ensures { let m = table_lent table.old in
        GivesFrom at (fitting at m (table_step job.now at n)) result m (table_lent table.new) }
{
    let from = at + 3;
    if job.len() < from {
        return Err(Refusal::Field);
    }
    let l = job_steps::table_bytes(n);
    if fields::stated(job, at) != l {
        return Err(Refusal::Length);
    }
    let t = job.get(from..from + l).ok_or(Refusal::Field)?;
    keep_table(at, n, t, table)
}

// A partition.
#[tactic(auto, unfolding(calls::specs::Calls::judged))]
pub fn read_partition(job: &[u8], s: State, parts: &mut [u64]) -> Result<Next, Refusal>
    requires { (s.at < length job.now) × (4 ≤ s.taxa) × (s.taxa ≤ most)
        × (s.parts ≤ length parts.old) }
    ensures { let m = parts_lent parts.old in
        let o = partition_step job.now (known_of s m) in
        GivesFrom s.at (fitting s.at m o) result m (parts_lent parts.new) }
{
    let y = fields::number_in(fields::content(job, s.at)?);
    if !taxa::within(y, s.taxa) {
        return Err(Refusal::Partition);
    }
    if s.parts == parts.len() {
        return Err(Refusal::Room);
    }
    parts[s.parts] = y;
    let state = State {
        at: s.at + 11,
        parts: s.parts + 1,
        ..s
    };
    Ok(Next { state, wrote: 0 })
}

// A move, on the tree the last left, and its lines.
#[tactic(auto, unfolding(calls::specs::Calls::judged))]
pub fn read_move(
    job: &[u8],
    s: State,
    table: &mut [u8],
    parts: &[u64],
    out: &mut [u8],
) -> Result<Next, Refusal>
    requires { (s.at < length job.now) × (4 < s.at)
        × (Held s (lending table.old parts.now out.old)) }
    ensures { let ys = parts.now in
        let m = lending table.old ys out.old in
        let o = move_step job.now (known_of s m) in
        GivesFrom s.at (fitting s.at m o) result m (lending table.new ys out.new) }
{
    let [kind, first, second, third] = *fields::content::<4>(job, s.at)?;
    let m = Move {
        kind,
        first,
        second,
        third,
    };
    let tree = &mut table[..job_steps::table_bytes(s.taxa)];
    let moves = s.moves + 1;
    let wrote = move_listing::list_move(s.taxa, tree, &parts[..s.parts], m, moves, out, 0)?;
    let state = State {
        at: s.at + 7,
        moves,
        ..s
    };
    Ok(Next { state, wrote })
}
