// The worst that the replies to a move can do, by the ranks where they lead.
ghost use Rattle.std.specs.Prelude.{false, ◌≡◌, ℕ, ◌≤◌, ◌<◌, length};
ghost use Rattle.block.specs.Inner.Tests.{Decides};
ghost use Rattle.block.specs.Layout as L;
ghost use Rattle.block.specs.Inner.Valid.{Valid};
ghost use Rattle.game.specs.Position.{MoveOf};
ghost use Rattle.game.specs.Model.{structure_of, coalition_of};
ghost use Rattle.turns.specs.Buffers.{rank_in};
ghost use Rattle.turns.specs.Sizes.{rank_end, room_bytes};
ghost use Rattle.ways.specs.Extremes.{Beyond, Further};
ghost use Rattle.ways.specs.Landing.{Made, rank_after, WorstWithin};
ghost use Rattle.ways.specs.Lines.{count_in};
ghost use Rattle.ways.specs.Listing.{Listed};
ghost use Rattle.ways.specs.Rows.{Playable};

use crate::lines;
use crate::rows::Row;
use block::layout;
use turns::buffers;

// A move that is made: in which state, its number, and the stock place that it leads to.
#[derive(Clone, Copy)]
pub struct Step {
    pub state: usize,
    pub number: usize,
    pub place: usize,
}

// A rank past which a search need not go: the largest is looked for where `most`, and else the smallest.
#[derive(Clone, Copy)]
pub struct Limit {
    pub most: bool,
    pub rank: usize,
}

// The larger of two numbers, or the smaller.
pub fn further(most: bool, a: usize, b: usize) -> usize
    ensures { Further most a b result }
{
    if most { a.max(b) } else { a.min(b) }
}

// Whether v is at least x, or at most x.
pub fn beyond(most: bool, x: usize, v: usize) -> bool
    ensures { Decides (Beyond most x v) result }
{
    if most { x <= v } else { v <= x }
}

// The rank where the k-th reply to a move leads.
fn rank_after(block: &[u8], row: Row, ways: &[u8], ranks: &[u8], step: Step, k: usize) -> usize
    requires valid { Valid block.now }
    requires playable { Playable block.now row × Listed block.now row ways.now × (room_bytes ≤ length ranks.now) }
    requires made { Made block.now row step.state step.number step.place × (k < count_in ways.now step.state false) }
    ensures { (result ≡ rank_after block.now row ways.now ranks.now step.state step.number step.place k) × (result < rank_end) }
{
    let r = lines::number(ways, step.state, false, k);
    let next = layout::next(block, step.state, step.number + r);
    buffers::rank_at(ranks, next * row.places + step.place)
}

// The worst rank over the replies to a move, or the limit if that is smaller, or larger. Goes no further than the limit, since the
// ranks past it change nothing.
pub fn worst_at(
    block: &[u8],
    row: Row,
    ways: &[u8],
    ranks: &[u8],
    step: Step,
    limit: Limit,
) -> usize
    requires valid { Valid block.now }
    requires playable { Playable block.now row × Listed block.now row ways.now × (room_bytes ≤ length ranks.now) }
    requires made { Made block.now row step.state step.number step.place }
    ensures worst_within { WorstWithin block.now row ranks.now step.state step.number step.place limit.most limit.rank result }
    ensures upper_bound { limit.rank < rank_end → result < rank_end }
{
    let mut best = rank_after(block, row, ways, ranks, step, 0);
    if beyond(limit.most, limit.rank, best) {
        return limit.rank; // mostly the first reply does
    }
    let n = lines::count(ways, step.state, false);
    for k in 1..n {
        if beyond(limit.most, limit.rank, best) {
            return limit.rank;
        }
        best = further(
            limit.most,
            rank_after(block, row, ways, ranks, step, k),
            best,
        );
    }
    further(!limit.most, best, limit.rank)
}
