// The calls on tables, run on the cases of standard input: a line for each, the
// number that matters first. The first letter of a case tells the call.
#![tactic(auto)]

mod trees;

use case_lines::Case;

// Runs a case.
fn call(rt: &impl Print, case: Case<'_>) {
    // Kept: the letter stands in the cases; an enum would name each once more for one match.
    match case.head() {
        Some(b't') => trees::tree(rt, case),
        Some(b's') => trees::splits(rt, case),
        Some(b'c') => trees::compare(rt, case),
        _ => case_prints::line(rt, b"no such call"),
    }
}

// Reads the cases and runs them.
fn main(rt: HostRuntime) {
    case_lines::run(&mut rt.stdin(), |case| call(&rt, case));
}
