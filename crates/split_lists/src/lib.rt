// The induced splits of a tree as an ascending list, from the sides of its
// rows.
#![tactic(auto)]

ghost use Rattle.std.specs.Prelude.{◌^◌, ◌<◌, ◌≤◌, ◌≡◌, length, take};
ghost use Rattle.taxa.specs.Most.{most};
ghost use Rattle.taxa.specs.Sets.{lowest};
ghost use Rattle.tree.specs.Splits as spec;
ghost use Rattle.sides.specs.Between.{Sided};
ghost use Rattle.calls.specs.Between.{Wrote};
ghost use Rattle.ascending.specs.Between.{RoomFor};
ghost use Rattle.split_lists.specs.Between.{added, row_splits};

use std::cmp::Ordering;

// The number of the split over y that s makes; low is the lowest taxon of y.
// Kept: 0 for none, as the definition `split` has it, which the theorems of demands rest on.
fn number(low: usize, y: u64, s: u64) -> u64
    requires { (low ≡ lowest most y) × (low < most) }
    ensures { result ≡ spec.split most y s }
{
    let inside = s & y;
    let outside = taxa::less(y, s);
    let own = taxa::size(inside);
    let other = taxa::size(outside);
    match own.cmp(&other) {
        Ordering::Less => inside,
        Ordering::Greater => outside,
        Ordering::Equal if taxa::has(s, low) => outside,
        Ordering::Equal => inside,
    }
}

// Puts the number x into the first len of out, unless it is 0; the new count.
// Kept: out and len stand apart, as in `ascending::insert`.
fn add(out: &mut [u64], len: usize, x: u64) -> usize
    requires { let o = out.old in (len ≤ length o) × (RoomFor (added x (take len o)) o) }
    ensures { let o = out.old in Wrote length (added x (take len o)) o result out.new }
{
    if x == 0 {
        return len;
    }
    ascending::insert(out, len, x)
}

// Lists the splits over y of the rows whose sides are given; how many there
// are.
fn list(n: usize, sides: &[u64; sides::ROWS], y: u64, out: &mut [u64]) -> usize
    requires { (4 ≤ n) × (n ≤ most) × (y < 2 ^ n) × (RoomFor (row_splits n y sides.now) out.old) }
    ensures { Wrote length (row_splits n y sides.now) out.old result out.new }
{
    if y == 0 {
        return 0;
    }
    let low = taxa::lowest(y);
    let mut len = 0;
    for side in &sides[..2 * n - 3] {
        let x = number(low, y, *side);
        len = add(out, len, x);
    }
    len
}

// Lists the induced splits over y of the tree t, whose sides are s; how many
// there are. The sides are all that is read; t is what the promise speaks of.
pub fn tree_splits(n: usize, t: &[u8], s: &[u64; sides::ROWS], y: u64, out: &mut [u64]) -> usize
    requires { let t = t.now in
        (Sided n t s.now) × (y < 2 ^ n) × (RoomFor (spec.splits n t y) out.old) }
    ensures { Wrote length (spec.splits n t.now y) out.old result out.new }
{
    list(n, s, y, out)
}
