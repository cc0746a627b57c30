// The ranks of until and always rows by stages: all positions of one rank are found before any of the next, each of them once.
#![tactic(auto)]

mod fire;
pub mod solve;
mod stage;
mod start;
mod staying;
