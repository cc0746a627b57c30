// The ranks of an until or an always row: first 0 at a goal and 65535 elsewhere, then sweeps.
ghost use Rattle.std.specs.Prelude.{false, ◌≡◌, length};
ghost use Rattle.block.specs.Inner.Valid.{Valid};
ghost use Rattle.game.specs.Model.{arena_of};
ghost use Rattle.ways.specs.Listing.{Listed};
ghost use Rattle.ways.specs.Rows.{Playable};
ghost use Rattle.sweeps.specs.Solving.{Solved};
ghost use Rattle.turns.specs.Sizes.{room_bytes};

use crate::flagged;
use turns::sizes;
use ways::first;
use ways::rows::{Row, Side};

// The ranks of a row, whose moves are listed, for an attack on the goal. Past the last position they are 0.
pub fn solve(block: &[u8], row: Row, side: Side, ways: &[u8], goal: usize, ranks: &mut [u8])
    requires valid { Valid block.now }
    requires playable { Playable block.now row × Listed block.now row ways.now × (length ranks.old ≡ room_bytes) }
    requires into_value { row.into ≡ false }
    ensures { Solved (arena_of block.now row.index) side.most side.safe goal ranks.new × (length ranks.new ≡ length ranks.old) }
{
    first::first_ranks(block, row, goal, sizes::NEVER, ranks);
    flagged::settle_places(block, row, side, ways, ranks);
}
