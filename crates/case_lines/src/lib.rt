// The lines and words of the cases on standard input, for the programs of
// cases: a case to a line, its words parted by one blank. A case starts with a
// small letter. A line `NAME BYTES` gives a name in capitals its bytes. Every
// other line is a comment.
#![tactic(auto)]

use std::io::Read;

// A case: its line, and the input in which it stands, where names have bytes.
#[derive(Clone, Copy)]
pub struct Case<'a> {
    input: &'a [u8],
    line: &'a [u8],
}

impl<'a> Case<'a> {
    // Word k of the line.
    pub fn word(&self, k: usize) -> &'a [u8] {
        piece(self.line, b' ', k)
    }

    // The line from word k on.
    pub fn title(&self, k: usize) -> &'a [u8] {
        self.line
            .splitn(k.saturating_add(1), |b| *b == b' ')
            .nth(k)
            .unwrap_or(&[])
    }

    // The first letter of the line.
    pub fn head(&self) -> Option<u8> {
        self.line.first().copied()
    }

    // The number in word k.
    pub fn number(&self, k: usize) -> u64 {
        number(self.word(k))
    }

    // The same, to count by.
    pub fn size(&self, k: usize) -> usize {
        self.number(k) as usize
    }

    // The bytes that a line of the input gives a name, none where none does.
    pub fn named(&self, name: &[u8]) -> &'a [u8] {
        self.input
            .split(|b| *b == b'\n')
            .find(|line| piece(line, b' ', 0) == name)
            .map_or(&[], |line| piece(line, b' ', 1))
    }
}

// Piece k of a list that marks part, empty where there is none.
pub fn piece(s: &[u8], mark: u8, k: usize) -> &[u8] {
    s.split(|b| *b == mark).nth(k).unwrap_or(&[])
}

// A tenth of what a u64 holds, and what is over.
const TENTH: u64 = u64::MAX / 10 + 1;

// The number that a word's decimal digits give, without what a u64 has no room
// for.
pub fn number(word: &[u8]) -> u64 {
    // Kept: `parse` refuses other bytes and what is too large; here they count as before.
    word.iter().fold(0, |k, digit| {
        (k % TENTH * 10).wrapping_add(u64::from(*digit % 16))
    })
}

// Runs what is given on each case of the input, in their order.
fn on_each<F: Fn(Case<'_>)>(input: &[u8], run: F)
    requires { F.IsAlwaysCallable run }
{
    for line in input.split(|b| *b == b'\n') {
        if line.first().is_some_and(|b| *b >= b'a') {
            run(Case { input, line });
        }
    }
}

// Runs what is given on each case of an input that could be read whole.
pub fn run<R: Read, F: Fn(Case<'_>)>(input: &mut R, run: F)
    requires { F.IsAlwaysCallable run }
{
    let mut room = [0u8; whole_input::ROOM];
    if let Ok(input) = whole_input::read_whole(input, &mut room) {
        on_each(input, run);
    }
}
