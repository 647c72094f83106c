// The three moves, their groups and their distances: definitions and laws. The
// only code is the two structs in which what was found of a move goes on.
#![tactic(auto)]

// An end of the row that a move is about: its node, and the row that it is put
// onto, if it does not stay.
#[derive(Clone, Copy)]
pub struct Side {
    pub node: usize,
    pub target: Option<usize>,
}

// What was found of a move that fits: its row, the two ends of the row, and of
// an NNI the two rows that are exchanged.
#[derive(Clone, Copy)]
pub struct Plan {
    pub row: usize,
    pub first: Side,
    pub second: Side,
    pub exchanged: Option<(usize, usize)>,
}
