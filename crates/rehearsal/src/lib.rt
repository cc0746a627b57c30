// A rehearsal: the team plays its table, and a script gives the replies.
#![tactic(auto)]

pub mod call;
mod script;
mod turn;
