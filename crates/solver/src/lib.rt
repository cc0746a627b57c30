// Ranks, moves and sets of the rows of a block.
#![tactic(auto)]

pub mod label;
mod needs;
pub mod ready;
pub mod rows;
pub mod table;
