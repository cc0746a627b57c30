// What may be asked about one position: the team's move, and the reply to it.
#![tactic(auto)]

pub mod coalition;
pub mod opponents;
pub mod spots;
