// The groups of taxa on the way from an end of a row to its target, from the
// sides of the rows alone.
#![tactic(auto)]

ghost use Rattle.std.specs.Prelude.{◌<◌, ◌≤◌, ◌≡◌, []};
ghost use Rattle.tree.specs.Tree.{rows};
ghost use Rattle.node_rows.specs.Between.{Near};
ghost use Rattle.sides.specs.Between.{At, Sided};
ghost use Rattle.moves.specs.Moves.{end_with, target};
ghost use Rattle.moves.specs.Groups as groups_spec;
ghost use Rattle.moves.specs.Between.{Aims, SideRight, side_groups};
ghost use Rattle.move_groups.specs.Between.{Paced};
ghost use Rattle.move_groups.specs.Props.{Sided-prop};

use arrayvec::ArrayVec;
use moves::Side;

// How many groups a list has room for: each has a taxon of its own.
pub const ROOM: usize = taxa::MOST;

// The groups on one side of a row.
pub type Groups = ArrayVec<u64, ROOM>;

// A tree that was looked at: how many taxa it has, its table, the rows at each
// node, and the side of every row. That these are its sides is part of it; that
// these are its rows is asked for where they are read.
#[derive(Clone, Copy)]
pub struct TreeView<'a> {
    pub n: usize,
    pub table: &'a [u8],
    pub near: &'a [u8],
    pub sides: &'a [u64],
    pub ghost sided: { Sided n table.now sides.now } by { Sided-prop n table.now sides.now },
}

// A step of a way: the row that leads on, and the taxa beyond the other.
#[derive(Clone, Copy)]
struct Step {
    on: usize,
    off: u64,
}

impl TreeView<'_> {
    // The taxa beyond row x, seen from its end v.
    #[tactic(auto, unfolding(moves::specs::Groups::beyond))]
    pub fn beyond(&self, v: usize, x: usize) -> u64
        requires { At self.now.n self.now.table.now x v }
        ensures { result ≡ groups_spec.beyond self.now.n self.now.table.now v x }
    {
        sides::across(self.n, self.table, x, v, self.sides[x])
    }

    // Whether row x, seen from its end v, is row b or leads to it.
    pub fn leads(&self, b: usize, v: usize, x: usize) -> bool
        requires { (At self.now.n self.now.table.now x v) × (b < rows self.now.n) }
        ensures { result ≡ groups_spec.leads self.now.n self.now.table.now b v x }
    {
        if x == b {
            return true;
        }
        let y = self.beyond(v, x);
        let i = y & self.sides[b];
        i != 0 && i != y
    }

    // The end of row a in the part where row b is.
    pub fn end_with(&self, a: usize, b: usize) -> usize
        requires { let n = self.now.n in (a < rows n) × (b < rows n) × (a ≡ b → ⊥) }
        ensures { result ≡ end_with self.now.n self.now.table.now a b }
    {
        let p = table::lo(self.table, a);
        let q = table::hi(self.table, a);
        if self.leads(b, q, a) { p } else { q }
    }

    // Whether row b can be the target of row a's end v.
    #[tactic(auto, using(crate::proofs::RowLaws::targets), unfolding(moves::specs::Moves::target))]
    pub fn is_target(&self, a: usize, v: usize, b: usize) -> bool
        requires { (At self.now.n self.now.table.now a v) × (b < rows self.now.n) }
        ensures { result ≡ target self.now.n self.now.table.now a v b }
    {
        if v < self.n {
            return b == a;
        }
        let w = table::far(self.table, a, v);
        b != a && self.leads(b, w, a)
    }

    // At the inner node v, come by row e: the row that leads on to b, and the
    // taxa beyond the other.
    fn pace(&self, b: usize, v: usize, e: usize) -> Step
        requires near { Near self.now.n self.now.table.now self.now.near.now }
        requires at { let n = self.now.n in
            (At n self.now.table.now e v) × (n ≤ v) × (b < rows n) }
        ensures { Paced self.now.n self.now.table.now b v e result.on result.off }
    {
        let o = node_rows::others(self.near, e, v);
        if self.leads(b, v, o.f) {
            return Step {
                on: o.f,
                off: self.beyond(v, o.g),
            };
        }
        Step {
            on: o.g,
            off: self.beyond(v, o.f),
        }
    }

    // Lists the groups on the way from row a's end v to its target b.
    #[tactic(auto, using(crate::proofs::WayLaws::turns))]
    fn way(&self, a: usize, v: usize, b: usize, out: &mut Groups)
        requires near { Near self.now.n self.now.table.now self.now.near.now }
        requires at { let n = self.now.n in
            let t = self.now.table.now in
            (At n t a v) × (Aims n t a v b) × (out.old.items ≡ []) }
        ensures { out.new.items ≡ groups_spec.groups self.now.n self.now.table.now a v b }
    {
        let mut w = v;
        let mut e = a;
        loop {
            let p = self.pace(b, w, e);
            out.push(p.off);
            if p.on == b {
                out.push(self.beyond(w, b));
                return;
            }
            w = table::far(self.table, p.on, w);
            e = p.on;
        }
    }

    // Lists the groups of row a's end v where it stays.
    fn stays(&self, a: usize, v: usize, out: &mut Groups)
        requires near { Near self.now.n self.now.table.now self.now.near.now }
        requires at { (At self.now.n self.now.table.now a v) × (out.old.items ≡ []) }
        ensures { out.new.items ≡ groups_spec.stayed self.now.n self.now.table.now a v }
    {
        if v < self.n {
            out.push(taxa::only(v));
            return;
        }
        let o = node_rows::others(self.near, a, v);
        out.push(self.beyond(v, o.f));
        out.push(self.beyond(v, o.g));
    }

    // Lists the groups on the side of an end of row a, and no more.
    #[tactic(auto, unfolding(moves::specs::Between::side_groups))]
    pub fn groups(&self, a: usize, end: Side, out: &mut Groups)
        requires near { Near self.now.n self.now.table.now self.now.near.now }
        requires end { let n = self.now.n in
            (a < rows n) × (SideRight n self.now.table.now a end) }
        ensures { out.new.items ≡ side_groups self.now.n self.now.table.now a end }
    {
        out.clear();
        match end.target {
            Some(b) => self.way(a, end.node, b, out),
            None => self.stays(a, end.node, out),
        }
    }
}
