// Moves that are refused, run on the cases of standard input: a line for each
// with the number that each of the three calls about a move gives, and whether
// all that was lent is as it was.
#![tactic(auto)]

use calls::Refusal;
use case_lines::Case;
use case_lists::{LONG, MARK, bytes, marked, number_at, numbers};
use case_moves::four;
use case_prints::{Kept, line, put, tell};

// The number that a call is refused with, or 0.
fn number<T: Drop>(answer: Result<T, Refusal>) -> u8 {
    match answer {
        Ok(_) => 0,
        Err(why) => u8::from(why),
    }
}

// A case `refuse TAXA TABLE PARTITIONS MOVE TITLE`: the number that each of the
// three calls gives, of taxa 0 to 3 where a move is judged alone, and whether the
// table and a lent list are as they were.
fn refuse(rt: &impl Print, case: Case<'_>) {
    let n = case.size(1);
    let copy = bytes::<LONG>(case, 2);
    let mut t = bytes::<LONG>(case, 2);
    let ys = numbers::<2>(case.word(3));
    let ys = [number_at(&ys, 0), number_at(&ys, 1)];
    let m = four(case.word(4));
    let mut out = [MARK; 2];
    let applied = number(judge::apply_move(n, t.as_mut_slice(), m));
    let judged = number(judge::judge_move(n, &t, &ys, m, &mut out));
    let alone = number(judge::judge_one(n, &t, 15, m));
    tell(rt, applied, "applied, ");
    tell(rt, judged, "judged, ");
    tell(rt, alone, "alone, table ");
    put(rt, Kept(t == copy));
    put(rt, "list ");
    put(rt, Kept(marked(&out, MARK, 0)));
    line(rt, case.title(5));
}

// Reads the cases and runs them.
fn main(rt: HostRuntime) {
    case_lines::run(&mut rt.stdin(), |case| refuse(&rt, case));
}
