// What a call can be refused for, each with its number in the documents. What
// every call promises is one shape, in specs/Calls.antt.
#![tactic(auto)]

ghost use Rattle.std.specs.Prelude.{◌≡◌};
ghost use Rattle.calls.specs.Refusals.{number_of};

use std::error::Error;
use std::fmt;

// What a call is refused for, in the order of the documents' numbers. All
// those of both documents stand here; no call gives 15 or 17 to 21 yet.
#[derive(Clone, Copy, Debug, PartialEq, Eq)]
pub enum Refusal {
    // the number of taxa is not from 4 to the most.
    Count = 1,
    // the table has not the length of a table of n taxa.
    Length = 2,
    // a row has an end above 2n-3, or its first end is not the smaller.
    Ends = 3,
    // a node has the wrong number of rows.
    Degree = 4,
    // a node cannot be reached from node 0.
    Unreached = 5,
    // a partition names a taxon n or above, or a list has none or too many.
    Partition = 6,
    // the kind is not 1 to 3, or the last row number of an SPR is not 0.
    Kind = 7,
    // a row number that the move uses is above 2n-4.
    Row = 8,
    // the rows do not fit the move.
    Misfit = 9,
    // an SPR or TBR in which no end moves.
    Idle = 10,
    // what was lent is too short for the whole answer.
    Room = 11,
    // a field of a job is wrong: its tag, order or length, or it is cut.
    Field = 12,
    // a job is longer than 65,535 bytes.
    Long = 13,
    // a text is not that of a tree of n taxa.
    Text = 14,
    // a kept number is not its row's side.
    Side = 15,
    // a taxon is in no partition.
    Unseen = 16,
    // the number of sites is 0 or above 1,000.
    Sites = 17,
    // the data have another length than sites times taxa.
    Data = 18,
    // a state is above 3.
    State = 19,
    // a length is wrong, or there are not as many as rows.
    Lengths = 20,
    // the rate is wrong.
    Rate = 21,
}

// The documents' number of a refusal.
impl From<Refusal> for u8 {
    ghost from_gives = { λ r k. k ≡ number_of r };

    fn from(r: Refusal) -> u8 {
        r as u8
    }
}

// A refusal is shown as its number.
impl fmt::Display for Refusal {
    fn fmt<W: fmt::Write>(&self, f: &mut fmt::Formatter<W>) -> fmt::Result {
        write!(f, "{}", u8::from(*self))
    }
}

impl Error for Refusal {}

// A refusal with its place in a job or in a text.
#[derive(Clone, Copy, Debug, PartialEq, Eq)]
pub struct RefusedAt {
    pub why: Refusal,
    pub place: usize,
}

impl Refusal {
    // The refusal with its place.
    pub fn at(self, place: usize) -> RefusedAt
        ensures { result ≡ record { why = self; place = place } }
    {
        RefusedAt { why: self, place }
    }
}

// It is shown as in the last line of a listing.
impl fmt::Display for RefusedAt {
    fn fmt<W: fmt::Write>(&self, f: &mut fmt::Formatter<W>) -> fmt::Result {
        write!(f, "refused {} at {}", self.why, self.place)
    }
}

impl Error for RefusedAt {}
