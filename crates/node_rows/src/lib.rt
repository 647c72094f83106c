// The rows at each node, in the first three of its four places.
#![tactic(auto)]

ghost use Rattle.std.specs.Prelude.{◌*◌, ◌<◌, ◌≡◌, ltb, length};
ghost use Rattle.taxa.specs.Most.{most};
ghost use Rattle.taxa.specs.Sets.{pick};
ghost use Rattle.tree.specs.Tree.{nodes};
ghost use Rattle.node_rows.specs.Between.{OtherTwo};

// Four places for each of the most nodes that a tree has.
// Kept: one flat array with a mark for free, as `OtherTwo`, `Near` and `Inward` promise of it.
pub const PLACES: usize = 504;

// A place that holds nothing.
pub const FREE: u8 = 255;

// Two rows.
#[derive(Clone, Copy)]
pub struct Two {
    pub f: usize,
    pub g: usize,
}

// The rows x and y, the lower one first.
fn lower_first(x: usize, y: usize) -> Two
    ensures { (result.f ≡ pick (ltb x y) x y) × (result.g ≡ pick (ltb x y) y x) }
{
    Two {
        f: x.min(y),
        g: x.max(y),
    }
}

// The two rows at node v other than e, the lower one first.
pub fn others(near: &[u8], e: usize, v: usize) -> Two
    requires { (v < nodes most) × (length near.now ≡ 4 * nodes most) }
    ensures { OtherTwo e near.now v result.f result.g }
{
    let p = 4 * v;
    let x = near[p] as usize;
    let y = near[p + 1] as usize;
    let z = near[p + 2] as usize;
    if x == e {
        return lower_first(y, z);
    }
    if y == e {
        return lower_first(x, z);
    }
    lower_first(x, y)
}
