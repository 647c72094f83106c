// An order of the inner nodes of a tree, from the leaves inward. It is found by
// loops, in a table of four places a node; where the table of rows is no tree,
// that is found instead.
#![tactic(auto)]

ghost use Rattle.std.specs.Prelude.{◌*◌, ◌<◌, ◌≡◌, length};
ghost use Rattle.taxa.specs.Most.{most};
ghost use Rattle.tree.specs.Tree.{rows, nodes};
ghost use Rattle.table.specs.Between.{Ordered, Rowed};
ghost use Rattle.node_rows.specs.Between.{no_rows};
ghost use Rattle.inward.specs.Between.{Arranged};
ghost use Rattle.inward.specs.Search.{mixed, Mixed, Climbs, Comes, Climbed};

// A way inward closes a ring or leads to a taxon: the table of rows is no tree.
#[derive(Clone, Copy)]
struct Ring;

// Mixes row r into node v's first place.
fn mix(a: &mut [u8; node_rows::PLACES], v: usize, r: u8)
    requires { v < nodes most }
    ensures { a.new ≡ mixed a.old v r }
{
    a[4 * v] ^= r;
}

// Mixes each row into the first place of its two ends. All places are free
// before.
fn mix_rows(n: usize, t: &[u8], a: &mut [u8; node_rows::PLACES])
    requires { (Ordered n t.now) × (a.old ≡ no_rows) }
    ensures { Mixed n t.now a.new (rows n) }
{
    for r in 0..2 * n - 3 {
        mix(a, table::lo(t, r), r as u8);
        mix(a, table::hi(t, r), r as u8);
    }
}

// Row r comes to the inner node w: as the first there; or as the second, which
// makes w node k of the order, and gives the third row, which leads on. Where two
// came before it there is a ring.
fn come(a: &mut [u8; node_rows::PLACES], w: usize, r: u8, k: usize) -> Result<Option<u8>, Ring>
    requires { (length a.old ≡ 4 * nodes most) × (w < nodes most) × (k < nodes most) }
    ensures { Comes a.old w r k result a.new }
{
    let p = 4 * w;
    let left = a[p] ^ r;
    if a[p + 1] == node_rows::FREE {
        a[p + 1] = r;
        a[p] = left;
        return Ok(None);
    }
    if a[p + 2] != node_rows::FREE {
        return Err(Ring);
    }
    let c = left ^ node_rows::FREE;
    a[p + 2] = r;
    a[p] = c;
    a[4 * k + 3] = w as u8;
    Ok(Some(c))
}

// The way inward from taxon i, k nodes being in the order: on from each node
// to which a second row comes. How many nodes are then in the order.
// Kept: a loop, for it follows rows and not an index; c is what it answers.
fn climb(
    n: usize,
    t: &[u8],
    a: &mut [u8; node_rows::PLACES],
    i: usize,
    k: usize,
) -> Result<usize, Ring>
    requires { let t = t.now in
        (Rowed n t) × (0 < i) × (i < n) × (Climbs n t a.old i k k) }
    ensures { Climbed n t.now i result a.new }
{
    let mut r = a[4 * i] ^ node_rows::FREE;
    let mut v = i;
    let mut c = k;
    loop {
        let w = table::far(t, r as usize, v);
        if w == 0 {
            return Ok(c);
        }
        if w < n {
            return Err(Ring);
        }
        let Some(x) = come(a, w, r, c)? else {
            return Ok(c);
        };
        r = x;
        v = w;
        c += 1;
    }
}

// An order of the inner nodes, left in the lent table, whose places are all
// free before; or that the table of rows is no tree.
pub fn order(n: usize, t: &[u8], a: &mut [u8; node_rows::PLACES]) -> bool
    requires { (Rowed n t.now) × (a.old ≡ no_rows) }
    ensures { Arranged n t.now result a.new }
{
    mix_rows(n, t, a);
    let mut k: usize = 0;
    for i in 1..n {
        let Ok(c) = climb(n, t, a, i, k) else {
            return false;
        };
        k = c;
    }
    k == n - 2
}
