// The end of a long job's listing.
use arrayvec::ArrayVec;
use case_prints::{line, say};
use job_steps::LINES;

// The same as the listing, but of the lines of moves only their number and the
// last move's, since a long job has thousands.
pub fn count(rt: &impl Print, input: &[u8]) {
    let mut lines: u64 = 0;
    let mut last = ArrayVec::<u8, LINES>::new();
    let Ok(ending) = listing_writer::walk(input, |new| {
        lines = lines.wrapping_add(new.iter().filter(|b| **b == b'\n').count() as u64);
        last.clear();
        let _ = last.try_extend_from_slice(new);
        Ok(())
    }) else {
        return;
    };
    say(rt, lines);
    line(rt, b"lines, the last of them");
    let _ = rt.write_all(&last);
    let _ = listing_writer::close(rt, ending);
}
