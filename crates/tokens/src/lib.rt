// What stands at a place of a text: numbers, each with the comma or line end after it, and fixed words.
#![tactic(auto)]

pub mod numeral;
pub mod words;
