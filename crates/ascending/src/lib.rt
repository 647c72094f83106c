// Ascending lists of numbers in the caller's slices: a number put in, and what
// one list lacks of another.
#![tactic(auto)]

ghost use Rattle.std.specs.Prelude.{◌≡◌, ◌<◌, ◌≤◌, length, take, ltb};
ghost use Rattle.std.specs.List.{prefix_len};
ghost use Rattle.tree.specs.Lists as lists_spec;
ghost use Rattle.tree.specs.Lists.{Asc};
ghost use Rattle.ascending.specs.Between.{RoomFor};
ghost use Rattle.calls.specs.Between.{Wrote};

// How many numbers at the start of the list are below x.
fn place(list: &[u64], x: u64) -> usize
    ensures { result ≡ prefix_len (λ y. ltb y x) list.now }
{
    list.iter().take_while(|y| **y < x).count()
}

// Puts x in its place of the first len numbers of out, which ascend, once; the
// new count.
// Kept: out and len stand apart, as the C call lends the memory that `Wrote` tells of.
pub fn insert(out: &mut [u64], len: usize, x: u64) -> usize
    requires { let o = out.old in (len ≤ length o) × (RoomFor (lists_spec.insert x (take len o)) o) }
    ensures { let o = out.old in
        Wrote length (lists_spec.insert x (take len o)) o result out.new }
{
    let i = place(&out[..len], x);
    if i < len && out[i] == x {
        return len;
    }
    out.copy_within(i..len, i + 1);
    out[i] = x;
    len + 1
}

// The first number of a that is not on b, or 0: the form is document 01's, two
// walks that are left by label.
// Kept: 0 stands for none, as `first_lack` has it and the answer of the C call.
pub fn first_lacking(a: &[u64], b: &[u64]) -> u64
    ensures { result ≡ lists_spec.first_lack a.now b.now }
{
    'walk: {
        'next: for x in a {
            for y in b {
                if y == x {
                    continue 'next;
                }
            }
            break 'walk *x;
        }
        0
    }
}

// How many numbers of a are not on b, where both ascend: one walk through both.
// Kept: two tests, for a match on `cmp` takes longer.
pub fn count_lacking(a: &[u64], b: &[u64]) -> usize
    requires a_ascends { Asc a.now }
    requires b_ascends { Asc b.now }
    ensures { result ≡ lists_spec.lacks a.now b.now }
{
    let mut both = 0;
    let (mut left, mut right) = (a, b);
    while let (Some((x, xs)), Some((y, ys))) = (left.split_first(), right.split_first()) {
        if *y < *x {
            right = ys;
        } else if *y == *x {
            both += 1;
            left = xs;
        } else {
            left = xs;
        }
    }
    a.len() - both
}
