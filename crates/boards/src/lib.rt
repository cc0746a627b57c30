// Sets of states as words: the next states of each listed move, what is ranked at each stock place, and whether a move serves an attack by these.
#![tactic(auto)]

pub mod board;
pub mod fires;
