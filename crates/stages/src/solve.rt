// The ranks of an until or an always row, stage by stage.
ghost use Rattle.std.specs.Prelude.{false, ◌≡◌, ℕ, ◌*◌, ◌≤◌, ◌<◌, length};
ghost use Rattle.block.specs.Inner.Valid.{Valid};
ghost use Rattle.game.specs.Position.{positions};
ghost use Rattle.game.specs.Model.{arena_of};
ghost use Rattle.turns.specs.Buffers.{rank_in};
ghost use Rattle.turns.specs.Sizes.{room_bytes, max_positions};
ghost use Rattle.ways.specs.Listing.{Listed};
ghost use Rattle.ways.specs.Rows.{Playable};
ghost use Rattle.ways.specs.First.{FirstRank};
ghost use Rattle.stages.specs.Stages.{hold, Prepared};
ghost use Rattle.stages.specs.Solving.{Found, Solved};

use crate::stage::Attack;
use crate::{stage, start};
use block::layout;
use boards::board;
use turns::sizes;
use ways::first;
use ways::rows::{Row, Side};

// Stages until one gives no rank.
fn run(
    block: &[u8],
    row: Row,
    side: Side,
    ways: &[u8],
    goal: usize,
    board: &mut [u8],
    ranks: &mut [u8],
)
    requires valid { Valid block.now × Prepared block.now row ways.now board.old }
    requires ranks_len { length ranks.old ≡ room_bytes }
    requires by_index { (n : ℕ) → n < max_positions → FirstRank hold goal row.places (positions (arena_of block.now row.index)) n (rank_in ranks.old n) }
    ensures { Found block.now row ways.now side.most side.safe goal ranks.old ranks.new }
{
    let mut flags = [1u8; 2 * sizes::MAX_STOCK_PLACES];
    let mut n = 1;
    let mut more = stage::turn_over(block, row, board, ranks, &mut flags, n);
    while more {
        let attack = Attack {
            row: row,
            most: side.most,
            safe: side.safe,
            stage: n,
        };
        stage::run_stage(block, ways, board, ranks, &mut flags, attack);
        n += 1;
        more = stage::turn_over(block, row, board, ranks, &mut flags, n);
    }
}

// The ranks of a row, whose moves are listed, for an attack on the goal. Past the last position they are 0.
pub fn solve(block: &[u8], row: Row, side: Side, ways: &[u8], goal: usize, ranks: &mut [u8])
    requires valid { Valid block.now }
    requires playable { Playable block.now row × Listed block.now row ways.now × (length ranks.old ≡ room_bytes) }
    requires into_value { row.into ≡ false }
    ensures { Solved (arena_of block.now row.index) side.most side.safe goal ranks.new × (length ranks.new ≡ length ranks.old) }
{
    let mut words = [0u8; board::BOARD_BYTES];
    first::first_ranks(block, row, goal, start::HOLD, ranks);
    board::store_nexts(block, row, ways, &mut words);
    board::store_reaches(block, row, ways, &mut words);
    run(block, row, side, ways, goal, &mut words, ranks);
    start::finish(ranks, layout::states(block) * row.places);
}
