// The value of a position in one step: the best over the coalition's moves of the worst over the replies.
ghost use Rattle.std.specs.Prelude.{Option, true, false, not, ◌≡◌, ℕ, ◌+◌, ◌*◌, ◌≤◌, ◌<◌, length};
ghost use Rattle.block.specs.Inner.Tests.{Decides};
ghost use Rattle.block.specs.Layout as L;
ghost use Rattle.block.specs.Inner.Valid.{Valid};
ghost use Rattle.game.specs.Position.{Position};
ghost use Rattle.game.specs.Model.{arena_of};
ghost use Rattle.turns.specs.Buffers.{rank_in};
ghost use Rattle.turns.specs.Sizes.{rank_end, room_bytes};
ghost use Rattle.ways.specs.Landing.{Lands};
ghost use Rattle.ways.specs.Lines.{count_in, number_in};
ghost use Rattle.ways.specs.Listing.{Listed};
ghost use Rattle.ways.specs.Places.{PlacedAt};
ghost use Rattle.ways.specs.Rows.{Playable};
ghost use Rattle.sweeps.specs.Values.{Final, Gathered, MoveOffers, Valued};

use turns::buffers;
use ways::rows::{Row, Spot};
use ways::worst::{Limit, Step};
use ways::{landing, lines, worst};

// A listed move that is tried at a position: which one it is, and where it lands, `None` where it cannot be paid.
#[derive(Clone, Copy)]
struct Tried {
    k: usize,
    to: Option<usize>,
}

// The worst rank over the replies to a listed move, or the limit; the limit too where the position cannot pay the move.
fn offered(
    block: &[u8],
    row: Row,
    ways: &[u8],
    ranks: &[u8],
    spot: Spot,
    tried: Tried,
    limit: Limit,
) -> usize
    requires valid { Valid block.now }
    requires playable { Playable block.now row × Listed block.now row ways.now × (room_bytes ≤ length ranks.now) }
    requires state_bound { (spot.state < L.states block.now) × (spot.place < row.places) × (tried.k < count_in ways.now spot.state true) }
    requires lands { Lands (arena_of block.now row.index) spot.state spot.place (number_in ways.now spot.state true tried.k) tried.to }
    ensures gathered { Gathered (not limit.most) (MoveOffers (arena_of block.now row.index) limit.most (rank_in ranks.now) spot.state spot.place (number_in ways.now spot.state true tried.k)) limit.rank result }
    ensures upper_bound { limit.rank < rank_end → result < rank_end }
{
    match tried.to {
        Some(y) => {
            let step = Step {
                state: spot.state,
                number: lines::number(ways, spot.state, true, tried.k),
                place: y,
            };
            worst::worst_at(block, row, ways, ranks, step, limit)
        }
        None => limit.rank,
    }
}

// What a value is at first: no move is to do worse than the rank that stands, or the defence has nothing yet.
fn first_value(most: bool, rank: usize) -> usize
    requires { (0 < rank) × (rank < rank_end) }
    ensures { (most ≡ true → result + 1 ≡ rank) × (most ≡ false → result ≡ 0) × (result < rank_end) }
{
    if most {
        return rank - 1;
    }
    0
}

// Whether no other move changes what becomes of the rank: the attack cannot do better, or the rank stays.
fn is_final(most: bool, rank: usize, v: usize) -> bool
    requires { v < rank_end }
    ensures { Decides (Final most rank v) result }
{
    if most {
        return v == 0;
    }
    rank <= v + 1
}

// The value of a position, by where each listed move lands there.
fn value_by<F: Fn(usize) -> Option<usize>>(
    block: &[u8],
    row: Row,
    ways: &[u8],
    ranks: &[u8],
    spot: Spot,
    most: bool,
    rank: usize,
    lands: F,
) -> usize
    requires valid { Valid block.now }
    requires playable { Playable block.now row × Listed block.now row ways.now × (room_bytes ≤ length ranks.now) }
    requires into_value { (row.into ≡ false) × (spot.state < L.states block.now) × (spot.place < row.places) }
    requires rank_value { (rank ≡ rank_in ranks.now (spot.state * row.places + spot.place)) × (0 < rank) × (rank < rank_end) }
    requires callable { (k : ℕ) → k < count_in ways.now spot.state true → F.pre lands k }
    requires landed { (k : ℕ) (to : Option ℕ) → k < count_in ways.now spot.state true → F.post lands k to → Lands (arena_of block.now row.index) spot.state spot.place (number_in ways.now spot.state true k) to }
    ensures { ((p : Position) → PlacedAt (arena_of block.now row.index) spot.state spot.place p → Valued (arena_of block.now row.index) most (rank_in ranks.now) p result) × (result < rank_end) }
{
    let n = lines::count(ways, spot.state, true);
    let mut v = first_value(most, rank);
    for k in 0..n {
        let limit = Limit {
            most: most,
            rank: v,
        };
        let tried = Tried { k: k, to: lands(k) };
        let w = offered(block, row, ways, ranks, spot, tried, limit);
        if w != v {
            if is_final(most, rank, w) {
                return w;
            }
            v = w;
        }
    }
    v
}

// The value of a position, whose rank is given, as far as it matters to that rank. Where no listed move gives, a loop of its own: one that can fill
// up a stock takes up to 1.4 times as long.
pub fn value_at(
    block: &[u8],
    row: Row,
    ways: &[u8],
    ranks: &[u8],
    spot: Spot,
    most: bool,
    rank: usize,
) -> usize
    requires valid { Valid block.now }
    requires playable { Playable block.now row × Listed block.now row ways.now × (room_bytes ≤ length ranks.now) }
    requires into_value { (row.into ≡ false) × (spot.state < L.states block.now) × (spot.place < row.places) }
    requires rank_value { (rank ≡ rank_in ranks.now (spot.state * row.places + spot.place)) × (0 < rank) × (rank < rank_end) }
    ensures { ((p : Position) → PlacedAt (arena_of block.now row.index) spot.state spot.place p → Valued (arena_of block.now row.index) most (rank_in ranks.now) p result) × (result < rank_end) }
{
    if row.gives {
        return value_by(block, row, ways, ranks, spot, most, rank, |k| {
            landing::lands(block, row, ways, spot, k)
        });
    }
    value_by(block, row, ways, ranks, spot, most, rank, |k| {
        landing::spends(block, row, ways, spot, k)
    })
}
