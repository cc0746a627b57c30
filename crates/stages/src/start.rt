// The word that an attack starts from where there is no goal, and those that it ends with: never where no rank was given.
ghost use Rattle.std.specs.Prelude.{◌*◌, ◌≤◌, length};
ghost use Rattle.stages.specs.Solving.{Finished};

use block::layout;
use turns::{buffers, sizes};

// A word from here on stands for no rank yet.
pub const HOLD: usize = sizes::NEVER - layout::JOINT_ACTIONS;

// Turns words that stand for no rank into never.
pub fn finish(ranks: &mut [u8], positions: usize)
    requires { 2 * positions ≤ length ranks.old }
    ensures { Finished positions ranks.old ranks.new }
{
    for p in 0..positions {
        if HOLD <= buffers::rank_at(ranks, p) {
            buffers::set_rank(ranks, p, sizes::NEVER);
        }
    }
}
