// The fields of a text, one after another: words, numbers, bounds and costs, each with what ends it. After a refusal no more is read, and what
// the block then holds is the program's choice: the reader hands nothing of it on.
#![tactic(auto)]

pub mod fields;
pub mod step;
