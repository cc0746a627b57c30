// The ranks that an attack starts from: 0 at a goal, and another elsewhere.
ghost use Rattle.std.specs.Prelude.{◌≡◌, ℕ, ◌*◌, ◌≤◌, ◌<◌, length};
ghost use Rattle.block.specs.Inner.Valid.{Valid};
ghost use Rattle.game.specs.Position as P;
ghost use Rattle.turns.specs.Buffers.{rank_in};
ghost use Rattle.game.specs.Model.{arena_of};
ghost use Rattle.ways.specs.First.{FirstRank, FirstIn, SpanStored};
ghost use Rattle.ways.specs.Rows.{Playable};
ghost use Rattle.turns.specs.Sizes.{set_bits, rank_end, room_bytes, max_positions};

use crate::rows::Row;
use block::layout;
use turns::{buffers, sizes};

// The first rank at the positions of state s: 0 at a goal.
fn first_rank(goal: usize, s: usize, other: usize) -> usize
    requires { (s < set_bits) × (other < rank_end) }
    ensures { FirstIn other goal s result × (result < rank_end) }
{
    if buffers::has_bit(goal, s) { 0 } else { other }
}

// Stores a rank at the positions from `first` to before `end`.
fn store_ranks(ranks: &mut [u8], first: usize, end: usize, rank: usize)
    requires { (first ≤ end) × (2 * end ≤ length ranks.old) × (rank < rank_end) }
    ensures { SpanStored first end rank ranks.old ranks.new }
{
    for p in first..end {
        buffers::set_rank(ranks, p, rank);
    }
}

// Stores the first ranks of a row, state by state; past the last position they are 0.
pub fn first_ranks(block: &[u8], row: Row, goal: usize, other: usize, ranks: &mut [u8])
    requires valid { Valid block.now }
    requires playable { Playable block.now row × (length ranks.old ≡ room_bytes) }
    requires other_lt_rank_end { other < rank_end }
    ensures by_index { (n : ℕ) → n < max_positions → FirstRank other goal row.places (P.positions (arena_of block.now row.index)) n (rank_in ranks.new n) }
    ensures ranks_len_unchanged { length ranks.new ≡ length ranks.old }
{
    let c = row.places;
    let n = layout::states(block);
    for s in 0..n {
        store_ranks(ranks, s * c, (s + 1) * c, first_rank(goal, s, other));
    }
    store_ranks(ranks, n * c, sizes::MAX_POSITIONS, 0);
}
