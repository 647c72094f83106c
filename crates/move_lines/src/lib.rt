// The lines of one move, measured and written at the start of a lent output.
#![tactic(auto)]

ghost use Rattle.std.specs.Prelude.{◌+◌, ◌^◌, ◌<◌, ◌≤◌, ◌≡◌, length};
ghost use Rattle.taxa.specs.Most.{most_partitions};
ghost use Rattle.group_rule.specs.Zeros.{zeros};
ghost use Rattle.move_lines.specs.MoveLines.{lines_with};

use lines::{Count, Page, Sink};

// What the lines of one move tell: its number, the distance of each partition,
// how many partitions are saved, and how many of the distances are 0. They are
// so few bytes that these can be counted.
#[derive(Clone, Copy)]
pub struct MoveLines<'a> {
    number: u64,
    distances: &'a [u64],
    saved: usize,
    same: usize,
    ghost few: { length distances.now ≤ most_partitions },
    ghost counted: { same ≡ zeros distances.now },
    ghost short: { length (lines_with number distances.now saved) < 2 ^ 64 },
}

impl<'a> MoveLines<'a> {
    ghost use Rattle.calls.specs.Between.{Wrote};
    ghost use Rattle.lines.specs.Between.{Takes};
    ghost use Rattle.move_lines.specs.Told.{told};

    // The lines of a move with that number, where so many of the distances are
    // 0 and so many partitions are saved.
    #[tactic(auto, using(crate::proofs::LineLaws::lines_short))]
    pub fn new(number: u64, distances: &'a [u64], saved: usize, same: usize) -> MoveLines<'a>
        requires { (length distances.now ≤ most_partitions) × (same ≡ zeros distances.now) }
        ensures { told result ≡ lines_with number distances.now saved }
    {
        MoveLines {
            number,
            distances,
            saved,
            same,
        }
    }

    // The lines, for what takes them: a line for each distance, then the saved
    // line.
    fn tell<S: Sink>(&self, out: &mut S)
        requires { length (told self.now) ≤ S.room out.old }
        ensures { Takes S.room S.took out.old (told self.now) out.new }
    {
        for (i, d) in self.distances.iter().enumerate() {
            lines::verdict_line(self.number, i as u64 + 1, *d, out);
        }
        let (saved, same) = (self.saved as u64, self.same as u64);
        let partitions = self.distances.len() as u64;
        lines::saved_line(self.number, saved, same, partitions, out);
    }

    // How many bytes they take.
    pub fn width(&self) -> usize
        ensures { result ≡ length (told self.now) }
    {
        let mut count = Count(0);
        self.tell(&mut count);
        count.0
    }

    // Writes them at the start of out; how many bytes.
    #[tactic(auto, using(lines::proofs::Placing::starts))]
    pub fn write(&self, out: &mut [u8]) -> usize
        requires { length (told self.now) ≤ length out.old }
        ensures { Wrote length (told self.now) out.old result out.new }
    {
        let mut page = Page { out, at: 0 };
        self.tell(&mut page);
        page.at
    }
}
