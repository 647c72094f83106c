// Cases of the three calls about a move.
use case_lines::Case;
use case_lists::{LONG, MARK, ROOM, bytes, first_mut, marked, numbers};
use case_moves::four;
use case_prints::{Kept, Numbers, Rows, line, put, tell};

// A case `one TAXA TABLE PARTITION MOVE TITLE`: the distance, or the refusal.
pub fn one(rt: &impl Print, case: Case<'_>) {
    let t = bytes::<LONG>(case, 2);
    match judge::judge_one(case.size(1), &t, case.number(3), four(case.word(4))) {
        Ok(d) => tell(rt, d, "apart, "),
        Err(why) => tell(rt, why, "refused, "),
    }
    line(rt, case.title(5));
}

// A case `each TAXA TABLE PARTITIONS MOVE ROOM TITLE`: how many are the same
// and the whole list that is lent, or the refusal and whether the list is as it
// was.
pub fn each(rt: &impl Print, case: Case<'_>) {
    let t = bytes::<LONG>(case, 2);
    let ys = numbers::<ROOM>(case.word(3));
    let mut out = [MARK; ROOM];
    let lent = first_mut(&mut out, case.size(5));
    match judge::judge_move(case.size(1), &t, &ys, four(case.word(4)), lent) {
        Ok(k) => {
            tell(rt, k, "same, list ");
            put(rt, Numbers(lent));
        }
        Err(why) => {
            tell(rt, why, "refused, list ");
            put(rt, Kept(marked(lent, MARK, 0)));
        }
    }
    line(rt, case.title(6));
}

// A case `apply TAXA TABLE MOVE TITLE`: the rows after the move, or the refusal
// and whether the table is as its copy.
pub fn apply(rt: &impl Print, case: Case<'_>) {
    let copy = bytes::<LONG>(case, 2);
    let mut t = bytes::<LONG>(case, 2);
    match judge::apply_move(case.size(1), t.as_mut_slice(), four(case.word(3))) {
        Ok(()) => {
            put(rt, "0 done, rows ");
            put(rt, Rows(&t));
        }
        Err(why) => {
            tell(rt, why, "refused, table ");
            put(rt, Kept(t == copy));
        }
    }
    line(rt, case.title(4));
}
