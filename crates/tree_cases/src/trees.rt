// Cases of the check, of induced splits and of a comparison.
use case_lines::{Case, piece};
use case_lists::{LONG, MARK, ROOM, bytes, first, first_mut};
use case_prints::{Numbers, line, put, say, tell};

// A case `tree TAXA TABLE TITLE`: 0, or the refusal's number.
pub fn tree(rt: &impl Print, case: Case<'_>) {
    let t = bytes::<LONG>(case, 2);
    match sides::check_tree(case.size(1), &t) {
        Ok(()) => say(rt, 0),
        Err(why) => say(rt, why),
    }
    line(rt, case.title(3));
}

// Part k of the title of a case of splits, parted from the next by a bar.
fn part<'a>(case: Case<'a>, k: usize) -> &'a [u8] {
    piece(case.title(6), b'|', k)
}

// A case `splits TAXA TABLE PARTITION ROOM SHOWN TITLE|TITLE`: how many splits
// the tree has, listed in what is lent, or the refusal; then a line for so many
// numbers of what was lent.
pub fn splits(rt: &impl Print, case: Case<'_>) {
    let t = bytes::<LONG>(case, 2);
    let mut out = [MARK; ROOM];
    let lent = first_mut(&mut out, case.size(4));
    match splits::induced_splits(case.size(1), &t, case.number(3), lent) {
        Ok(k) => tell(rt, k, "splits "),
        Err(why) => tell(rt, why, "refused "),
    }
    line(rt, part(case, 0));
    put(rt, Numbers(first(lent, case.size(5))));
    line(rt, part(case, 1));
}

// A case `compare TAXA TABLE TABLE PARTITION TITLE`: the distance and the
// missing split, or the refusal.
pub fn compare(rt: &impl Print, case: Case<'_>) {
    let t = bytes::<LONG>(case, 2);
    let u = bytes::<LONG>(case, 3);
    match splits::compare(case.size(1), &t, &u, case.number(4)) {
        Ok(a) => {
            tell(rt, a.distance, "apart, missing ");
            say(rt, a.missing);
        }
        Err(why) => tell(rt, why, "refused "),
    }
    line(rt, case.title(5));
}
