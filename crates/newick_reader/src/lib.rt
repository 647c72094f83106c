// The reader of Newick text: one tree as a table, or the first byte at which
// no continuation is a tree.
#![tactic(auto)]

ghost use Rattle.std.specs.Prelude.{◌≡◌};
ghost use Rattle.newick_reader.specs.declared.Unread.TheVariants as unread;
ghost use Rattle.newick_reader.specs.Promises.{Plants};

use calls::Refusal;
use newick_labels::NotNewick;
use newick_members::TABLE;
use std::fmt;

// Why no table was written: a refusal; or refusal 14, with the place at which
// the text is no tree's.
#[derive(Clone, Copy)]
pub enum Unread {
    Refused(Refusal),
    NotNewick(NotNewick),
}

// The number of the refusal, and its place where it has one.
impl fmt::Display for Unread {
    fn fmt<W: fmt::Write>(&self, f: &mut fmt::Formatter<W>) -> fmt::Result {
        match self {
            Unread::Refused(why) => write!(f, "refused {why}"),
            Unread::NotNewick(e) => write!(f, "{}", Refusal::Text.at(e.at)),
        }
    }
}

impl From<Refusal> for Unread {
    ghost from_gives = { λ r u. u ≡ unread.Refused r };

    fn from(refusal: Refusal) -> Unread {
        Unread::Refused(refusal)
    }
}

impl From<NotNewick> for Unread {
    ghost from_gives = { λ e u. u ≡ unread.NotNewick e };

    fn from(error: NotNewick) -> Unread {
        Unread::NotNewick(error)
    }
}

// Reads a tree of n taxa from its Newick text into the lent table. Refusals 1,
// 14 with its place, and 11.
pub fn read_newick(n: usize, text: &[u8], out: &mut [u8]) -> Result<(), Unread>
    ensures { Plants n text.now out.old result out.new }
{
    if n < 4 || taxa::MOST < n {
        return Err(Refusal::Count.into());
    }
    let mut table = [0u8; TABLE];
    newick_outer::outermost(text, n, &mut table)?;
    let found = &table[..2 * (2 * n - 3)];
    if out.len() < found.len() {
        return Err(Refusal::Room.into());
    }
    out[..found.len()].copy_from_slice(found);
    Ok(())
}
