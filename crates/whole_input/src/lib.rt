// An input, read whole into a lent buffer.
#![tactic(auto)]

ghost use Rattle.std.specs.Prelude.{◌≡◌, ◌≢◌, ◌≤◌, ◌+◌, [], true, length, take, IfErr, IfOk, IsTrue};
ghost use Rattle.std.specs.Io.KnownBytes.{Consumes, IsAtEnd};
ghost use Rattle.whole_input.specs.Few.{ConsumesFew};

use std::io::Read;

// How many bytes are lent for an input, one more than a job may have.
pub const ROOM: usize = 65536;

// That an input was not read whole, and how many bytes of it were read.
#[derive(Clone, Copy, Debug)]
pub struct Cut {
    pub after: usize,
}

// Reads until the buffer is full, the input ends or a read fails; how many
// bytes were put at its start.
fn fill<R: Read>(input: &mut R, buf: &mut [u8]) -> usize
    ensures within { result ≤ length buf.new }
    ensures bytes { Consumes (R.remaining input.old) (R.remaining input.new) (take result buf.new) }
{
    // Kept: each read says how far it came, so no `for` and no method of std counts here.
    let mut done = 0;
    while done < buf.len() {
        match input.read(&mut buf[done..]) {
            Ok(0) | Err(_) => break,
            Ok(got) => done += got,
        }
    }
    done
}

// Whether the input has ended, where one more read answers exactly 0, since
// fill does not tell the end from a failure. It takes one byte at most.
fn ended<R: Read>(input: &mut R) -> bool
    ensures bytes { IsTrue result → Consumes (R.remaining input.old) (R.remaining input.new) [] }
    ensures end { IsTrue result → IsAtEnd (R.remaining input.new) }
    ensures one { ConsumesFew 1 (R.remaining input.old) (R.remaining input.new) }
{
    matches!(input.read(&mut [0u8; 1]), Ok(0))
}

// Whether an input of which so many bytes were read was read whole; one that
// fills the buffer is too long for its program, whatever follows.
pub fn whole<R: Read>(input: &mut R, got: usize) -> bool
    ensures full { got ≡ 65536 → result ≡ true }
    ensures bytes { IsTrue result → Consumes (R.remaining input.old) (R.remaining input.new) [] }
    ensures end { IsTrue result → got ≢ 65536 → IsAtEnd (R.remaining input.new) }
    ensures one { ConsumesFew 1 (R.remaining input.old) (R.remaining input.new) }
{
    got == ROOM || ended(input)
}

// An input, read into what is lent, or how far it was read where that is not
// whole. One of 65,536 bytes is too long for its program, whatever follows, and
// passes for whole.
pub fn read_whole<'a, R: Read>(input: &mut R, room: &'a mut [u8]) -> Result<&'a [u8], Cut>
    ensures within { IfOk result (λ all. length all.now ≤ length room.old) }
    ensures bytes { IfOk result (λ all.
        Consumes (R.remaining input.old) (R.remaining input.new) all.now) }
    ensures end { IfOk result (λ all. length all.now ≢ 65536 → IsAtEnd (R.remaining input.new)) }
    ensures cut { IfErr result (λ why. (why.after ≤ length room.old) × (why.after ≢ 65536)) }
    ensures read { IfErr result (λ why.
        ConsumesFew (why.after + 1) (R.remaining input.old) (R.remaining input.new)) }
{
    let got = fill(input, room);
    if whole(input, got) {
        Ok(&room[..got])
    } else {
        Err(Cut { after: got })
    }
}
