// Reads a number of taxa and a tree's Newick text on standard input, and
// writes the first two fields of a job, n and the table, on standard output.
#![tactic(auto)]

ghost use Rattle.std.specs.Prelude.{◌*◌, ◌≤◌, ◌≡◌, length, IfOk};
ghost use Rattle.tree.specs.Tree.{rows};
ghost use Rattle.newick_reader.specs.Promises.{Right};
ghost use Rattle.newick.specs.Input.{LineSays, heads};

use calls::Refusal;
use newick_labels::digit_at;
use newick_members::TABLE;
use newick_reader::Unread;
use std::io;

// The byte of a line feed.
const FEED: u8 = 10;

// The number that a line is, from 1 to 99. A tree has 4 taxa at least and 64 at
// most, so the others need not be told apart.
fn taxa_in(line: &[u8]) -> Option<usize>
    ensures { LineSays line.now result }
{
    let a = digit_at(line, 0)?;
    // no number but 0 begins with it
    if a == 0 {
        return None;
    }
    match line.len() {
        1 => Some(a),
        2 => Some(10 * a + digit_at(line, 1)?),
        _ => None,
    }
}

// What stands before the table of n taxa: field 1, then the tag and the length
// of field 2, at most 250.
fn before_table(n: usize) -> [u8; 7]
    requires { Right n }
    ensures { result ≡ heads n }
{
    let long = 2 * (2 * n - 3);
    [1, 0, 1, n as u8, 2, 0, long as u8]
}

// Writes the two fields, the table being the first bytes of what was lent for
// it.
fn put(rt: &impl Print, n: usize, lent: &[u8]) -> io::Result<()>
    requires { Right n × (2 * rows n ≤ length lent.now) }
{
    rt.write_all(&before_table(n))?;
    rt.write_all(&lent[..2 * (2 * n - 3)])
}

// Takes the input apart: n in its first line, and the text after the line
// feed, which is read into the table. n, or why there is no tree. The room is
// that of the largest table, so 11 does not arise.
fn read(input: &[u8], table: &mut [u8; TABLE]) -> Result<usize, Unread>
    ensures { IfOk result (λ n. Right n) }
{
    let end = input.iter().position(|b| *b == FEED).ok_or(Refusal::Count)?;
    let n = taxa_in(&input[..end]).ok_or(Refusal::Count)?;
    newick_reader::read_newick(n, &input[end + 1..], table)?;
    Ok(n)
}

// Says a refusal by its number, and its place where it has one.
// Kept: each part is a write, and is tried where the one before it failed.
fn say(rt: &impl Eprint, unread: Unread) {
    let _ = rt.eprint("refused ");
    match unread {
        Unread::Refused(why) => {
            let _ = rt.eprint(why);
            let _ = rt.eprint("\n");
        }
        Unread::NotNewick(e) => {
            let _ = rt.eprint(Refusal::Text);
            let _ = rt.eprint(" at ");
            let _ = rt.eprintln(e.at);
        }
    }
}

// Gives the fields of the tree that an input is, or says why there are none.
fn answer(rt: &(impl Print + Eprint), input: &[u8]) {
    let mut table = [0u8; TABLE];
    match read(input, &mut table) {
        Ok(n) => {
            if put(rt, n, &table).is_err() {
                let _ = rt.eprintln("the fields could not be written");
            }
        }
        Err(why) => say(rt, why),
    }
}

// Answers the input where it was read whole; a failure is said on standard
// error, and the status is 0 all the same. At most 65,536 bytes are read. The
// text of 64 taxa is far shorter, so a longer one is refused at a byte among
// those that were read.
fn main(rt: HostRuntime) {
    let mut room = [0u8; whole_input::ROOM];
    let Ok(input) = whole_input::read_whole(&mut rt.stdin(), &mut room) else {
        let _ = rt.eprintln("the text could not be read");
        return;
    };
    answer(&rt, input);
}
