// The moves of a row and the replies to them, listed once, and where they lead: from a stock place to a stock place, and from
// there, by the reply, to a state.
#![tactic(auto)]

pub mod back;
pub mod first;
pub mod landing;
pub mod lines;
pub mod listing;
pub mod packs;
pub mod rows;
pub mod worst;
