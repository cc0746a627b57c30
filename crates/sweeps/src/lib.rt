// The ranks of an until or an always row, found by sweeps over its positions.
#![tactic(auto)]

mod flagged;
pub mod solve;
pub mod sweep;
mod value;
