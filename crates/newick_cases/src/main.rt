// Newick texts, read from the cases of standard input: a line for each, 0
// where it is accepted, otherwise the refusal's number and its place where it
// has one. The first letter of a case tells what is done.
#![tactic(auto)]

mod apart;
mod texts;

use case_lines::Case;
use case_lists::bytes;

// The most bytes of a text that a case can have.
const LONG: usize = 512;

// Runs a case on its text and its second list of bytes, if it has one.
fn on_text(rt: &impl Print, case: Case<'_>) {
    let text = bytes::<LONG>(case, 2);
    let other = bytes::<LONG>(case, 3);
    // Kept: the letter stands in the cases; an enum would name each once more for one match.
    match case.head() {
        Some(b'a') => texts::accept(rt, case, &text),
        Some(b'r') => texts::refuse(rt, case, &text),
        Some(b'l') => texts::lend(rt, case, &text),
        Some(b'c') => texts::cuts(rt, case, &text),
        Some(b't') => apart::table(rt, case, &text, &other),
        Some(b'b') => apart::beside(rt, case, &text, &other),
        _ => case_prints::line(rt, b"no such case"),
    }
}

// Reads the cases and runs them.
fn main(rt: HostRuntime) {
    case_lines::run(&mut rt.stdin(), |case| on_text(&rt, case));
}
