// Reads a job on standard input and writes its listing on standard output.
#![tactic(auto)]

// Lists the job where it was read whole; a failure is said on standard error,
// and the status is 0 all the same.
fn main(rt: HostRuntime) {
    let mut room = [0u8; whole_input::ROOM];
    let Ok(job) = whole_input::read_whole(&mut rt.stdin(), &mut room) else {
        let _ = rt.eprintln("the job could not be read");
        return;
    };
    if listing_writer::list(&rt, job).is_err() {
        let _ = rt.eprintln("the listing could not be written");
    }
}
