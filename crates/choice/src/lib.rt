// What each side does at one position by the ranks: the table's moves, the ranks of a next row, and the replies.
#![tactic(auto)]

pub mod moves;
pub mod next;
pub mod replies;
pub mod tables;
