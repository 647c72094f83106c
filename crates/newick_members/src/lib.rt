// The members of a tree's Newick text: a label or a group, its rows written
// into the table; or the first byte at which no continuation is a tree.
#![tactic(auto)]

ghost use Rattle.std.specs.Prelude.{◌+◌, ◌^◌, ◌<◌, ◌≤◌, ◌≡◌};
ghost use Rattle.taxa.specs.Most.{most};
ghost use Rattle.tree.specs.Tree.{rows};
ghost use Rattle.newick_grammar.specs.Numbers as numbers;
ghost use Rattle.newick_members.specs.Between as between;
ghost use Rattle.newick_members.specs.Between.{here};

use newick_labels::NotNewick;

// The bytes of the longest table.
pub const TABLE: usize = 250;

// Where the reader is: the place in the text, the number of the next group to
// close, and the taxa read.
#[derive(Clone, Copy, Debug, PartialEq, Eq)]
pub struct Cursor {
    pub at: usize,
    pub next: usize,
    pub used: u64,
}

impl Cursor {
    // The cursor one byte on.
    pub fn ahead(self) -> Cursor
        requires { self.at + 1 < 2 ^ 64 }
        ensures { result ≡ between.ahead self }
    {
        Cursor {
            at: self.at + 1,
            ..self
        }
    }
}

// A member that was read: where the reader is after it, and its node.
#[derive(Clone, Copy, Debug, PartialEq, Eq)]
pub struct Member {
    pub after: Cursor,
    pub node: usize,
}

// Whether the byte b stands at a place.
pub fn is_at(s: &[u8], at: usize, b: u8) -> bool
    ensures { result ≡ here s.now at b }
{
    s.get(at) == Some(&b)
}

// Row v joins node v to node p.
pub fn join(table: &mut [u8; TABLE], v: usize, p: usize)
    requires { (v < rows most) × (p < 256) }
    ensures { table.new ≡ numbers.join v p table.old }
{
    table[2 * v] = v as u8;
    table[2 * v + 1] = p as u8;
}

// A text that is read as a tree of n taxa.
#[derive(Clone, Copy)]
pub struct Text<'a> {
    pub bytes: &'a [u8],
    pub n: usize,
    pub ghost big: { 4 ≤ n },
    pub ghost few: { n ≤ most },
}

impl Text<'_> {
    ghost use Rattle.std.specs.Prelude.{◌≤◌, ◌≡◌, length};
    ghost use Rattle.newick_members.specs.Between.{Within, allowed};
    ghost use Rattle.newick_members.specs.Between.{PassedIs, TakenIs, Closes, ClosedIs};
    ghost use Rattle.newick_members.specs.Between.{Ready, GotIs};

    // The cursor past the byte b, which must stand at c.
    pub fn pass(&self, c: Cursor, b: u8) -> Result<Cursor, NotNewick>
        ensures { PassedIs self.now.bytes.now c b result }
    {
        if is_at(self.bytes, c.at, b) {
            Ok(c.ahead())
        } else {
            Err(NotNewick { at: c.at })
        }
    }

    // The taxa that may stand alone at a slot, `used` being those read before.
    // If no member may follow, a taxon must be the last.
    #[tactic(auto, using(crate::proofs::StageLaws::counts))]
    fn free_taxa(&self, used: u64, more: bool) -> u64
        requires { Within self.now.n used }
        ensures { result ≡ allowed self.now.n used more }
    {
        if more || taxa::size(used) + 1 == self.n {
            return taxa::less(taxa::full(self.n), used);
        }
        0
    }

    // The taxon whose label stands at a slot.
    fn taxon_at(&self, c: Cursor, more: bool) -> Result<Member, NotNewick>
        requires { (c.at ≤ length self.now.bytes.now) × Within self.now.n c.used }
        ensures { TakenIs self.now.n self.now.bytes.now c more result }
    {
        let label = newick_labels::read(self.bytes, c.at, self.free_taxa(c.used, more))?;
        Ok(Member {
            after: Cursor {
                at: label.end,
                used: c.used | taxa::only(label.taxon),
                ..c
            },
            node: label.taxon,
        })
    }

    // The end of a group of the node x and the member y: its node has the next
    // number, and their rows are written.
    fn close(&self, x: usize, y: Member, table: &mut [u8; TABLE]) -> Result<Member, NotNewick>
        requires { Closes y.after x y.node }
        ensures { ClosedIs self.now.bytes.now y.after x y.node table.old table.new result }
    {
        let c = self.pass(y.after, b')')?;
        join(table, x, c.next);
        join(table, y.node, c.next);
        Ok(Member {
            after: Cursor {
                next: c.next + 1,
                ..c
            },
            node: c.next,
        })
    }

    // The member at a slot, as `member` reads it. It calls itself for each group.
    // Little of a call stands on the stack: each reference is one word, and the
    // slots of both members have one place.
    #[tactic(auto, using(taxa::proofs::Sizes::size_le))]
    fn read_member(
        &self,
        c: Cursor,
        least: usize,
        more: bool,
        table: &mut [u8; TABLE],
    ) -> Result<Member, NotNewick>
        requires { Ready self.now.n self.now.bytes.now c least more }
        ensures { GotIs self.now.n self.now.bytes.now c least more table.old table.new result }
    {
        if !is_at(self.bytes, c.at, b'(') {
            return self.taxon_at(c, more);
        }
        // both of its members need a taxon
        if self.n < taxa::size(c.used) + least + 2 {
            return Err(NotNewick { at: c.at });
        }
        let mut slot = c.ahead();
        let x = self.read_member(slot, least + 1, true, table)?;
        slot = self.pass(x.after, b',')?;
        let y = self.read_member(slot, least, more, table)?;
        self.close(x.node, y, table)
    }

    // The member at a slot, its rows written into the table. At least `least`
    // members must follow it, and others may where `more` says so.
    pub fn member(
        &self,
        c: Cursor,
        least: usize,
        more: bool,
        table: &mut [u8; TABLE],
    ) -> Result<Member, NotNewick>
        requires { Ready self.now.n self.now.bytes.now c least more }
        ensures { GotIs self.now.n self.now.bytes.now c least more table.old table.new result }
    {
        self.read_member(c, least, more, table)
    }
}
