// Cases of one text.
use calls::Refusal;
use case_lines::Case;
use case_lists::{first_mut, marked};
use case_prints::{Kept, Rows, line, put, tell};
use newick_reader::Unread;

// A mark for lent tables, which is no node.
pub const MARK: u8 = 255;

// Room for any table.
pub const ROOM: usize = 250;

// Says what the reader answered.
fn answered(rt: &impl Print, answer: Result<(), Unread>) {
    match answer {
        Ok(()) => put(rt, "0 read, "),
        Err(Unread::Refused(why)) => tell(rt, why, "refused, "),
        Err(Unread::NotNewick(e)) => {
            tell(rt, Refusal::Text, "at ");
            put(rt, e.at);
            put(rt, ", ");
        }
    }
}

// A case `refuse TAXA TEXT TITLE`: the answer, with room for any table, and
// whether all of it is kept.
pub fn refuse(rt: &impl Print, case: Case<'_>, text: &[u8]) {
    let mut t = [MARK; ROOM];
    answered(rt, newick_reader::read_newick(case.size(1), text, &mut t));
    put(rt, Kept(marked(&t, MARK, 0)));
    line(rt, case.title(3));
}

// A case `cuts TAXA TEXT TITLE`: the text cut at every place.
pub fn cuts(rt: &impl Print, case: Case<'_>, text: &[u8]) {
    for k in 0..text.len() {
        refuse(rt, case, &text[..k]);
    }
}

// A case `lend TAXA TEXT ROOM FROM TITLE`: the answer, and whether the lent
// marks from a place on are kept.
pub fn lend(rt: &impl Print, case: Case<'_>, text: &[u8]) {
    let mut t = [MARK; ROOM];
    let lent = first_mut(&mut t, case.size(3));
    answered(rt, newick_reader::read_newick(case.size(1), text, lent));
    put(rt, Kept(marked(lent, MARK, case.size(4))));
    line(rt, case.title(5));
}

// A case `accept TAXA TEXT ROOM TITLE`: the answer, and a second line with the
// rows of the lent table.
pub fn accept(rt: &impl Print, case: Case<'_>, text: &[u8]) {
    let mut t = [MARK; ROOM];
    let lent = first_mut(&mut t, case.size(3));
    answered(rt, newick_reader::read_newick(case.size(1), text, lent));
    line(rt, case.title(4));
    put(rt, Rows(lent));
    line(rt, b"in the table");
}
