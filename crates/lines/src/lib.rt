// Numbers and lines as text: what takes bytes takes each line, be it a page on
// which they are written or a count of them.
#![tactic(auto)]

ghost use Rattle.std.specs.Prelude.{◌+◌, ◌≤◌, ◌≡◌, length};
ghost use Rattle.taxa.specs.Most.{most_partitions};
ghost use Rattle.lines.specs.Lines.{bin, class_name};
ghost use Rattle.calls.specs.Between.{Wrote};
ghost use Rattle.lines.specs.Between.{Takes};
ghost use Rattle.lines.specs.Lines.{verdict_line, saved_line, end_line, refused_line};

mod sinks;

pub use sinks::{Count, Page, Sink};

// The smallest i with 10 s at most i times k, or 10.
#[tactic(auto, using(crate::proofs::Widths::bin_steps))]
fn class_bin(s: u64, k: u64) -> u64
    requires { (s ≤ most_partitions) × (k ≤ most_partitions) }
    ensures { result ≡ bin s k }
{
    for i in 1..10 {
        if 10 * s <= i * k {
            return i;
        }
    }
    10
}

// The terrace class of s of k partitions.
#[tactic(auto, using(crate::proofs::Widths::class_bytes))]
fn class<S: Sink>(s: u64, k: u64, out: &mut S)
    requires { (s ≤ most_partitions) × (k ≤ most_partitions)
        × (length (class_name s k) ≤ S.room out.old) }
    ensures { Takes S.room S.took out.old (class_name s k) out.new }
{
    if s == 0 {
        return out.word(b"none");
    }
    if s == k {
        return out.word(b"full");
    }
    out.word(b"pt");
    out.number(class_bin(s, k));
}

// The line of a move and a partition: `m p same 0` or `m p changed d`.
#[tactic(auto, using(crate::proofs::Widths::verdict_bytes))]
pub fn verdict_line<S: Sink>(m: u64, p: u64, d: u64, out: &mut S)
    requires { length (verdict_line m p d) ≤ S.room out.old }
    ensures { Takes S.room S.took out.old (verdict_line m p d) out.new }
{
    out.number(m);
    out.word(b" ");
    out.number(p);
    if d == 0 {
        return out.word(b" same 0\n");
    }
    out.word(b" changed ");
    out.number(d);
    out.word(b"\n");
}

// The line of a move: `m saved s t`, t being the class of same of k partitions.
#[tactic(auto, using(crate::proofs::Widths::line_bytes))]
pub fn saved_line<S: Sink>(m: u64, s: u64, same: u64, k: u64, out: &mut S)
    requires { (same ≤ most_partitions) × (k ≤ most_partitions)
        × (length (saved_line m s same k) ≤ S.room out.old) }
    ensures { Takes S.room S.took out.old (saved_line m s same k) out.new }
{
    out.number(m);
    out.word(b" saved ");
    out.number(s);
    out.word(b" ");
    class(same, k, out);
    out.word(b"\n");
}

// Writes the last line, `end m`, at the start of out; how many bytes.
#[tactic(auto, using(crate::proofs::Widths::line_bytes))]
pub fn end_line(m: u64, out: &mut [u8]) -> usize
    requires { length (end_line m) ≤ length out.old }
    ensures { Wrote length (end_line m) out.old result out.new }
{
    let mut page = Page { out, at: 0 };
    page.word(b"end ");
    page.number(m);
    page.word(b"\n");
    page.at
}

// Writes the line of a refusal, `refused r at p`, at the start of out; how many
// bytes.
#[tactic(auto, using(crate::proofs::Widths::line_bytes))]
pub fn refused_line(r: u64, p: u64, out: &mut [u8]) -> usize
    requires { length (refused_line r p) ≤ length out.old }
    ensures { Wrote length (refused_line r p) out.old result out.new }
{
    let mut page = Page { out, at: 0 };
    page.word(b"refused ");
    page.number(r);
    page.word(b" at ");
    page.number(p);
    page.word(b"\n");
    page.at
}
