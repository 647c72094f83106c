// The listing of a whole job, written on standard output.
#![tactic(auto)]

ghost use Rattle.std.specs.Prelude.{IfOk};
ghost use Rattle.listing_writer.specs.Walk.{GivesListing};

use calls::{Refusal, RefusedAt};
use std::io;

// Takes the steps over a job, one field at a time, gives the lines of each to
// what is given, and stops where that fails; how the job ends, after so many
// moves or refused. There is room for any job, and each step but the last goes
// on in it, so that no step is one too many.
pub fn walk<F>(input: &[u8], mut give: F) -> io::Result<Result<u64, RefusedAt>>
where
    F: FnMut(&[u8]) -> io::Result<()>,
    requires { F.IsAlwaysCallable give }
    ensures { IfOk result (λ ending. GivesListing F.FnMut give input.now ending) }
{
    let mut tree = [0u8; job_steps::TABLE];
    let mut parts = [0u64; taxa::PARTITIONS];
    let mut out = [0u8; job_steps::LINES];
    let mut s = job_steps::start();
    loop {
        match job::step(input, s, &mut tree, &mut parts, &mut out) {
            Ok(Some(next)) => {
                give(&out[..next.wrote])?;
                s = next.state;
            }
            Ok(None) => return Ok(Ok(s.moves)),
            Err(refused) => return Ok(Err(refused)),
        }
    }
}

// Writes the closing line of a job that is over.
fn close_over(rt: &impl Print, moves: u64) -> io::Result<()> {
    let mut line = [0u8; 64];
    let wrote = lines::end_line(moves, &mut line);
    rt.write_all(&line[..wrote])
}

// Writes the closing line of a job that is refused.
fn close_refused(rt: &impl Print, why: Refusal, place: usize) -> io::Result<()> {
    let mut line = [0u8; 64];
    let number = u64::from(u8::from(why));
    let wrote = lines::refused_line(number, place as u64, &mut line);
    rt.write_all(&line[..wrote])
}

// Writes the closing line of a job.
pub fn close(rt: &impl Print, ending: Result<u64, RefusedAt>) -> io::Result<()> {
    match ending {
        Ok(moves) => close_over(rt, moves),
        Err(RefusedAt { why, place }) => close_refused(rt, why, place),
    }
}

// Writes the listing of a job, and stops at the first write that fails, so that
// a listing cut short does not pass for a whole one.
pub fn list(rt: &impl Print, input: &[u8]) -> io::Result<()> {
    let ending = walk(input, |lines| rt.write_all(lines))?;
    close(rt, ending)
}
