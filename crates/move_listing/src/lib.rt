// One move's lines, written into a lent output from a place on, and the move
// made on the lent table.
#![tactic(auto)]

ghost use Rattle.move_plan.specs.Entries.{move_of};
ghost use Rattle.move_lines.specs.Told.{told};
ghost use Rattle.move_listing.specs.Listing.{page, Lists};
ghost use Rattle.move_listing.specs.Between.{Puts};

use calls::Refusal;
use move_groups::TreeView;
use move_lines::MoveLines;
use move_plan::Move;

// Writes the lines of a move from the place on, where they fit; where they end.
// Refusal 11.
fn write_where_room(lines: &MoveLines, out: &mut [u8], place: usize) -> Result<usize, Refusal>
    ensures { Puts (told lines.now) place out.old result out.new }
{
    let room = out.len().checked_sub(place).ok_or(Refusal::Room)?;
    if room < lines.width() {
        return Err(Refusal::Room);
    }
    Ok(place + lines.write(&mut out[place..]))
}

// Makes a move on a table and writes its lines, under the number stated, into
// out from the place on. Refusals 1 to 11, and 16 after 6.
pub fn list_move(
    n: usize,
    t: &mut [u8],
    ys: &[u64],
    m: Move,
    number: u64,
    out: &mut [u8],
    place: usize,
) -> Result<usize, Refusal>
    ensures { let before = page t.old out.old in
        let after = page t.new out.new in
        Lists n ys.now (move_of m) number place before result after }
{
    let mut near = [node_rows::FREE; node_rows::PLACES];
    let mut s = [0u64; sides::ROWS];
    let parts = door::parts_fit(n, ys);
    let p = door::enter(n, t, &mut near, &mut s, parts, m)?;
    let mut ds = [0u64; taxa::PARTITIONS];
    let tree = TreeView {
        n,
        table: t,
        near: &near,
        sides: &s,
    };
    let same = judge::judge_groups(&tree, p, ys, &mut ds);
    let distances = &ds[..ys.len()];
    let saved = saved::saved_of(ys, distances);
    let lines = MoveLines::new(number, distances, saved, same);
    let end = write_where_room(&lines, out, place)?;
    moved_rows::move_rows(n, t, &near, p);
    Ok(end)
}
