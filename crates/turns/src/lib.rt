// A turn of a play, as code: moves and replies, positions and where they lead, ranks and sets in lent buffers.
#![tactic(auto)]

pub mod buffers;
pub mod moves;
pub mod positions;
pub mod sets;
pub mod sizes;
