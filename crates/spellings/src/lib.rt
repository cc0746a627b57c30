// The fields that have spellings of their own: which of them stands at a place of a text, whether it may stand there, what refuses it, and the
// byte that it stands for.
#![tactic(auto)]

mod bounds;
mod costs;
mod kinds;
pub mod spelled;
