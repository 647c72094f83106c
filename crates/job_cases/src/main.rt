// Jobs, run on the cases of standard input: for each a line of its own, then
// the job's listing. The first letter of a case tells how it is run.
#![tactic(auto)]

mod long;

use case_lines::Case;
use case_lists::bytes;
use case_prints::{line, put, tell};

// Writes the line that introduces a job.
fn introduce(rt: &impl Print, case: Case<'_>) {
    put(rt, "job ");
    let _ = rt.write_all(case.word(1));
    put(rt, ": ");
    line(rt, case.title(3));
}

// A case `job NUMBER BYTES TITLE`: the listing.
fn listed(rt: &impl Print, case: Case<'_>, job: &[u8]) {
    introduce(rt, case);
    let _ = listing_writer::list(rt, job);
}

// A case `long NUMBER BYTES TITLE`: the end of the listing.
fn counted(rt: &impl Print, case: Case<'_>, job: &[u8]) {
    introduce(rt, case);
    long::count(rt, job);
}

// A case `cuts NUMBER BYTES TITLE`: the listings of the job cut at every place.
fn cuts(rt: &impl Print, case: Case<'_>, job: &[u8]) {
    for k in 0..job.len() {
        put(rt, "cut to ");
        tell(rt, k, "bytes, ");
        listed(rt, case, &job[..k]);
    }
}

// Runs a case on its job.
fn on_job(rt: &impl Print, case: Case<'_>) {
    let job = bytes::<{ whole_input::ROOM }>(case, 2);
    // Kept: the letter stands in the cases; an enum would name each once more for one match.
    match case.head() {
        Some(b'j') => listed(rt, case, &job),
        Some(b'l') => counted(rt, case, &job),
        Some(b'c') => cuts(rt, case, &job),
        _ => line(rt, b"no such case"),
    }
}

// Reads the cases and runs them.
fn main(rt: HostRuntime) {
    case_lines::run(&mut rt.stdin(), |case| on_job(&rt, case));
}
