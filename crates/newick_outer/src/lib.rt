// The outermost group of a tree's Newick text, of two members or three, and
// the end of the text.
#![tactic(auto)]

ghost use Rattle.std.specs.Prelude.{◌<◌, ◌≤◌, ◌≡◌};
ghost use Rattle.taxa.specs.Most.{most};
ghost use Rattle.taxa.specs.Sets.{size};
ghost use Rattle.tree.specs.Tree.{rows};
ghost use Rattle.newick_grammar.specs.Numbers as numbers;
ghost use Rattle.newick_outer.specs.Between.{One, Two, EndIs, ParsedIs};

use newick_labels::NotNewick;
use newick_members::{Cursor, Member, TABLE, Text, join};

// The semicolon, and nothing after it.
fn finish(text: &Text, c: Cursor) -> Result<(), NotNewick>
    ensures { EndIs text.now.bytes.now c.at result }
{
    let end = text.pass(c, b';')?;
    if end.at < text.bytes.len() {
        return Err(NotNewick { at: end.at });
    }
    Ok(())
}

// One row joins the nodes x and y, and takes the smaller number.
fn join_both(table: &mut [u8; TABLE], x: usize, y: usize)
    requires { (numbers.smaller x y < rows most) × (x < 256) × (y < 256) }
    ensures { let t = table.old in
        table.new ≡ numbers.join (numbers.smaller x y) (numbers.larger x y) t }
{
    join(table, x.min(y), x.max(y));
}

// The third outermost member, after the node x and the member y, and the end of
// the text. The outermost group is the last node.
fn third(text: &Text, x: usize, y: Member, table: &mut [u8; TABLE]) -> Result<(), NotNewick>
    requires { let s = text.now.bytes.now in
        Two text.now.n s table.old y.after x y.node × (size text.now.n y.after.used < text.now.n) }
    ensures { ParsedIs text.now.n text.now.bytes.now table.new result }
{
    let c = text.pass(y.after, b',')?;
    let z = text.member(c, 0, false, table)?;
    let end = text.pass(z.after, b')')?;
    join(table, x, end.next);
    join(table, y.node, end.next);
    join(table, z.node, end.next);
    finish(text, end)
}

// What follows two outermost members, the node x and the member y: the end of
// the text where they have all taxa, and the outermost group is no node then;
// otherwise a third member.
fn after_two(text: &Text, x: usize, y: Member, table: &mut [u8; TABLE]) -> Result<(), NotNewick>
    requires { Two text.now.n text.now.bytes.now table.old y.after x y.node }
    ensures { ParsedIs text.now.n text.now.bytes.now table.new result }
{
    if taxa::size(y.after.used) != text.n {
        return third(text, x, y, table);
    }
    let end = text.pass(y.after, b')')?;
    join_both(table, x, y.node);
    finish(text, end)
}

// What follows the first outermost member.
fn after_one(text: &Text, x: Member, table: &mut [u8; TABLE]) -> Result<(), NotNewick>
    requires { One text.now.n text.now.bytes.now table.old x.after x.node }
    ensures { ParsedIs text.now.n text.now.bytes.now table.new result }
{
    let c = text.pass(x.after, b',')?;
    let y = text.member(c, 0, true, table)?;
    after_two(text, x.node, y, table)
}

// The tree that a text is, its rows written into a blank table.
pub fn outermost(text: &[u8], n: usize, table: &mut [u8; TABLE]) -> Result<(), NotNewick>
    requires { (4 ≤ n) × (n ≤ most) × (table.old ≡ numbers.blank most) }
    ensures { ParsedIs n text.now table.new result }
{
    let whole = Text { bytes: text, n };
    let start = Cursor {
        at: 0,
        next: n,
        used: 0,
    };
    let c = whole.pass(start, b'(')?;
    let x = whole.member(c, 1, true, table)?;
    after_one(&whole, x, table)
}
