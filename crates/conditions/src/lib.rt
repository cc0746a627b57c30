// Numbers 2 to 5 of a block, each decided over the whole of it.
#![tactic(auto)]

mod bits;
pub mod nexts;
pub mod rows;
pub mod sizes;
pub mod states;
