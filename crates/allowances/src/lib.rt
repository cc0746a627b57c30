// The smallest allowances with which a row is true in a state.
#![tactic(auto)]

mod bounds;
pub mod call;
mod pairs;
