// The move in a word of a case.
#![tactic(auto)]

use case_lists::{number_at, numbers};
use move_plan::Move;

// The move of a word: its kind and three row numbers.
pub fn four(word: &[u8]) -> Move {
    let m = numbers::<4>(word);
    let part = |k: usize| (number_at(&m, k) % 256) as u8;
    Move {
        kind: part(0),
        first: part(1),
        second: part(2),
        third: part(3),
    }
}
