// Filling a lent buffer, and leaving working room.
ghost use Rattle.std.specs.Prelude.{Err, ◌++◌, ◌≡◌, ◌-◌, ◌≤◌, length, take, replicate};
ghost use Rattle.block.specs.Refusal.{RoomAfter};

use crate::refusal::Refusal;

// Zeros from a place on.
pub fn zeros(buffer: &mut [u8], at: usize)
    requires { at ≤ length buffer.old }
    ensures { buffer.new ≡ take at buffer.old ++ replicate (length buffer.old - at) 0 }
{
    buffer[at..].fill(0);
}

// Working room as a refusal leaves it: under number 1 as it was lent, and else filled with zeros.
pub fn leave(room: &mut [u8], r: Refusal)
    ensures { RoomAfter room.old room.new (Err r) }
{
    if r != Refusal::Length {
        zeros(room, 0);
    }
}
