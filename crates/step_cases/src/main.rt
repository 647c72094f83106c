// Steps over the table's field of a job, with more or less memory lent for the
// table, run on the cases of standard input: for each what is wrong, how many
// bytes were lent, whether they are as they were, and the answer.
#![tactic(auto)]

use calls::RefusedAt;
use case_lines::Case;
use case_lists::{LONG, bytes, first_mut, marked};
use case_prints::{Kept, line, put, say, tell};
use job_steps::{Next, State};

// A byte that the lent memory holds before a step, and no table of six taxa.
const MARK: u8 = 200;

// The state after the count of six taxa.
const COUNTED: State = State {
    at: 4,
    taxa: 6,
    parts: 0,
    moves: 0,
};

// Says a step's answer.
fn answered(rt: &impl Print, answer: Result<Option<Next>, RefusedAt>) {
    match answer {
        Ok(Some(next)) => {
            put(rt, "next at ");
            tell(rt, next.state.at, "with ");
            say(rt, next.wrote);
            line(rt, b"bytes of lines");
        }
        Ok(None) => line(rt, b"ended"),
        Err(refused) => {
            put(rt, "refused ");
            tell(rt, refused.why, "at ");
            put(rt, refused.place);
            line(rt, b"");
        }
    }
}

// A case `step ROOM BYTES TITLE`: the step over the field at 4, with so many
// marked bytes lent for the table.
fn step(rt: &impl Print, case: Case<'_>) {
    let job = bytes::<LONG>(case, 2);
    let mut parts = [0u64; 64];
    let mut out = [0u8; 64];
    let mut room = [MARK; job_steps::TABLE];
    let table = first_mut(&mut room, case.size(1));
    let answer = job::step(&job, COUNTED, table, &mut parts, &mut out);
    let _ = rt.write_all(case.title(3));
    put(rt, ", ");
    tell(rt, table.len(), "bytes lent: ");
    put(rt, Kept(marked(table, MARK, 0)));
    answered(rt, answer);
}

// Reads the cases and runs them.
fn main(rt: HostRuntime) {
    case_lines::run(&mut rt.stdin(), |case| step(&rt, case));
}
