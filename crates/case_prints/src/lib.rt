// What the programs of cases print. Each part is written by itself. After a
// write that fails they go on with the next; it shows where their output is
// compared.
#![tactic(auto)]

use std::fmt::{self, Display, Formatter, Write};

// Standard output, on which each part of a text is written by itself.
// Kept: `print!` would write it as one, and less of it where that fails.
#[derive(Drop)]
struct Parts<'a, P>(&'a P);

impl<P: Print> Write for Parts<'_, P> {
    fn write_str(&mut self, part: &str) -> fmt::Result {
        let _ = self.0.write_all(part.as_bytes());
        Ok(())
    }
}

// Prints a value.
pub fn put<D: Display + Drop>(rt: &impl Print, value: D) {
    let _ = Parts(rt).write(value);
}

// Prints a value and a blank, so that words or another number can follow.
pub fn say<D: Display + Drop>(rt: &impl Print, value: D) {
    put(rt, value);
    put(rt, " ");
}

// Prints a value, a blank and words.
pub fn tell<D: Display + Drop>(rt: &impl Print, value: D, words: &str) {
    say(rt, value);
    put(rt, words);
}

// Prints words, which need not be text, and ends the line.
pub fn line(rt: &impl Print, words: &[u8]) {
    let _ = rt.write_all(words);
    put(rt, "\n");
}

// The numbers of a list, a blank after each.
#[derive(Clone, Copy)]
pub struct Numbers<'a>(pub &'a [u64]);

impl Display for Numbers<'_> {
    // Writes one after the other.
    fn fmt<W: fmt::Write>(&self, f: &mut Formatter<W>) -> fmt::Result {
        for y in self.0 {
            write!(f, "{y} ")?;
        }
        Ok(())
    }
}

// The rows of a table as document 01 has them, a dash between the two ends and
// a blank after each row.
#[derive(Clone, Copy)]
pub struct Rows<'a>(pub &'a [u8]);

impl Display for Rows<'_> {
    // Writes one after the other.
    fn fmt<W: fmt::Write>(&self, f: &mut Formatter<W>) -> fmt::Result {
        let (rows, _) = self.0.as_chunks::<2>();
        for [low, high] in rows {
            write!(f, "{low}-{high} ")?;
        }
        Ok(())
    }
}

// Whether what was lent is as it was.
#[derive(Clone, Copy)]
pub struct Kept(pub bool);

impl Display for Kept {
    // Writes it as the start of a sentence.
    fn fmt<W: fmt::Write>(&self, f: &mut Formatter<W>) -> fmt::Result {
        f.write_str(if self.0 { "kept, " } else { "not kept, " })
    }
}
