// Cases of a text beside a table or another text: the distance of the trees.
use crate::texts::{MARK, ROOM};
use case_lines::Case;
use case_lists::{first_mut, table_bytes};
use case_prints::{line, tell};

// A case `table TAXA TEXT TABLE PARTITION TITLE`: the distance between the tree
// of the text and that of the table, or the refusal.
pub fn table(rt: &impl Print, case: Case<'_>, text: &[u8], other: &[u8]) {
    let n = case.size(1);
    let mut t = [MARK; ROOM];
    let lent = first_mut(&mut t, table_bytes(n));
    let _ = newick_reader::read_newick(n, text, lent);
    match splits::compare(n, lent, other, case.number(4)) {
        Ok(a) => tell(rt, a.distance, "apart, "),
        Err(why) => tell(rt, why, "refused, "),
    }
    line(rt, case.title(5));
}

// A case `beside TAXA TEXT TEXT PARTITION TITLE`: the same with the table of a
// second text.
pub fn beside(rt: &impl Print, case: Case<'_>, text: &[u8], other: &[u8]) {
    let n = case.size(1);
    let mut t = [MARK; ROOM];
    let lent = first_mut(&mut t, table_bytes(n));
    let _ = newick_reader::read_newick(n, other, lent);
    table(rt, case, text, lent);
}
