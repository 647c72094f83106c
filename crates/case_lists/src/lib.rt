// Lists of bytes and of numbers, as a word of a case has them, and lent lists.
#![tactic(auto)]

ghost use Rattle.std.specs.Prelude.{◌≡◌, ◌<◌, ◌≤◌, [], length, slice_get, take, unwrap_or};
ghost use Rattle.case_lists.specs.Marks.{TellsBy};

use arrayvec::ArrayVec;
use case_lines::{Case, number};

// A mark for lent lists, which no answer writes, and the most numbers that a
// case can lend.
pub const MARK: u64 = 999;

pub const ROOM: usize = 128;

// The most bytes of a table that a case can have.
pub const LONG: usize = 256;

// How often a part of a word stands there, and what does: 64 and `00` for
// `64*00`.
fn repeated(part: &[u8]) -> (u64, &[u8]) {
    let mut pieces = part.split(|b| *b == b'*');
    match (pieces.next(), pieces.next()) {
        (Some(often), Some(what)) => (number(often), what),
        _ => (1, part),
    }
}

// Gives a part as often as it says.
fn repeat<F: FnMut(&[u8])>(part: &[u8], give: &mut F)
    requires { (state : F) (x : _) → F.pre state x }
{
    let (often, what) = repeated(part);
    for _ in 0..often {
        give(what);
    }
}

// Gives the parts of a word, in their order, each as often as it says.
fn parts<F: FnMut(&[u8])>(word: &[u8], mark: u8, mut give: F)
    requires { (state : F) (x : _) → F.pre state x }
{
    for part in word.split(move |b| *b == mark) {
        repeat(part, &mut give);
    }
}

// The numbers of a word such as `63,64*15`, as many as there is room for. A
// word `0*0` has none.
pub fn numbers<const N: usize>(word: &[u8]) -> ArrayVec<u64, N> {
    let mut out = ArrayVec::new();
    parts(word, b',', |what| {
        let _ = out.try_push(number(what));
    });
    out
}

// Number k of a list, 0 where there are fewer.
pub fn number_at(list: &[u64], k: usize) -> u64
    ensures { result ≡ unwrap_or (slice_get list.now k) 0 }
{
    list.get(k).copied().unwrap_or(0)
}

// The value of a hex digit.
fn digit(c: u8) -> u8 {
    // Kept: `to_digit` refuses other bytes, and here they count as before.
    if c < b'a' { c % 16 } else { c % 8 + 9 }
}

// The byte of two hex digits.
fn pair(high: u8, low: u8) -> u8 {
    digit(high) % 16 * 16 + digit(low) % 16
}

// Puts a part that is text after a quote, or hex, two digits to a byte, as far
// as there is room.
fn put<const N: usize>(out: &mut ArrayVec<u8, N>, part: &[u8]) {
    let _ = match part {
        [b'\'', text @ ..] => out.extend(text.iter().copied()),
        _ => out.extend(part.as_chunks::<2>().0.iter().map(|[h, l]| pair(*h, *l))),
    };
}

// Puts the parts that a name has.
fn put_named<const N: usize>(out: &mut ArrayVec<u8, N>, parts: &[u8]) {
    for part in parts.split(|b| *b == b'+') {
        put(out, part);
    }
}

// Puts a part that is a name in capitals, 65 to 90, or one that put knows.
fn put_any<const N: usize>(out: &mut ArrayVec<u8, N>, case: Case<'_>, part: &[u8]) {
    match part {
        [64..=95, ..] => put_named(out, case.named(part)),
        _ => put(out, part),
    }
}

// The bytes of word k of a case, as many as there is room for. Its parts have a
// plus between them: hex digits, text after a quote, or a name that a line of
// the input gives its bytes. A word `-` has none.
pub fn bytes<const N: usize>(case: Case<'_>, k: usize) -> ArrayVec<u8, N> {
    let mut out = ArrayVec::new();
    parts(case.word(k), b'+', |part| put_any(&mut out, case, part));
    out
}

// The first k elements, none where there are fewer.
pub fn first<T>(s: &[T], k: usize) -> &[T]
    ensures there { k ≤ length s.now → result.now ≡ take k s.now }
    ensures fewer { length s.now < k → result.now ≡ [] }
{
    s.get(..k).unwrap_or(&[])
}

// The same, to be lent.
pub fn first_mut<T>(s: &mut [T], k: usize) -> &mut [T]
    ensures there { k ≤ length s.old → result.now ≡ take k s.old }
    ensures fewer { length s.old < k → result.now ≡ [] }
{
    s.get_mut(..k).unwrap_or(&mut [])
}

// Whether each element of a lent list from a place on is the mark still.
pub fn marked<T: PartialEq + Copy>(lent: &[T], mark: T, from: usize) -> bool
    ensures { TellsBy T.eq lent.now mark from result }
{
    lent.iter().skip(from).all(|x| *x == mark)
}

// How many bytes a table of n taxa has, where there is one.
pub fn table_bytes(n: usize) -> usize {
    match n {
        4..=64 => 4 * n - 6,
        _ => 0,
    }
}
