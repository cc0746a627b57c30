// The moves of a row's table, position by position.
ghost use Rattle.std.specs.Prelude.{◌≡◌, ℕ, ◌+◌, ◌*◌, ◌≤◌, ◌<◌, length};
ghost use Rattle.block.specs.Layout as L;
ghost use Rattle.block.specs.Inner.Valid.{Valid};
ghost use Rattle.turns.specs.Sizes.{room_bytes, max_positions};
ghost use Rattle.rankings.specs.Kinds.{kind_of};
ghost use Rattle.ways.specs.Listing.{Listed};
ghost use Rattle.choice.specs.Choices.{Sought};
ghost use Rattle.choice.specs.Filling.{byte_in, FilledTo, MoveRight};
ghost use Rattle.choice.specs.Tables.{RanksOf, MovesOf};

use crate::{moves, next};
use block::{fill, layout};
use rankings::Goal;
use ways::rows::{Row, Spot};

// The table's move at a position. A next row has a search of its own, since the other takes twice as long for it.
fn move_of(block: &[u8], row: Row, ways: &[u8], ranks: &[u8], spot: Spot, goal: Goal) -> u8
    requires valid { Valid block.now }
    requires sought { Sought block.now row (kind_of goal) × Listed block.now row ways.now × (room_bytes ≤ length ranks.now) }
    requires state_bound { (spot.state < L.states block.now) × (spot.place < row.places) }
    ensures { MoveRight block.now row.index row.set ranks.now (spot.state * row.places + spot.place) result }
{
    match goal {
        Goal::Next => next::next_move(block, row, ways, ranks, spot),
        Goal::Always | Goal::Until => moves::move_at(block, row, ways, ranks, spot, goal),
    }
}

// Stores the moves of state s, where those of the states before it are there.
fn fill_places(
    block: &[u8],
    row: Row,
    ways: &[u8],
    ranks: &[u8],
    goal: Goal,
    s: usize,
    moves: &mut [u8],
)
    requires valid { Valid block.now }
    requires sought { Sought block.now row (kind_of goal) × Listed block.now row ways.now × (room_bytes ≤ length ranks.now) × (length moves.old ≡ max_positions) }
    requires s_bound { (s < L.states block.now) × FilledTo byte_in (MoveRight block.now row.index row.set ranks.now) (s * row.places) moves.old }
    ensures filled_to { FilledTo byte_in (MoveRight block.now row.index row.set ranks.now) ((s + 1) * row.places) moves.new }
    ensures moves_len_unchanged { length moves.new ≡ length moves.old }
{
    let c = row.places;
    for x in 0..c {
        let spot = Spot { state: s, place: x };
        moves[s * c + x] = move_of(block, row, ways, ranks, spot, goal);
    }
}

// Stores the moves of all states in a buffer of zeros.
fn fill_states(block: &[u8], row: Row, ways: &[u8], ranks: &[u8], goal: Goal, moves: &mut [u8])
    requires valid { Valid block.now }
    requires sought { Sought block.now row (kind_of goal) × Listed block.now row ways.now × (room_bytes ≤ length ranks.now) × (length moves.old ≡ max_positions) }
    requires filled_to { FilledTo byte_in (MoveRight block.now row.index row.set ranks.now) 0 moves.old }
    ensures filled_to_2 { FilledTo byte_in (MoveRight block.now row.index row.set ranks.now) (L.states block.now * row.places) moves.new }
    ensures moves_len_unchanged { length moves.new ≡ length moves.old }
{
    let n = layout::states(block);
    for s in 0..n {
        fill_places(block, row, ways, ranks, goal, s, moves);
    }
}

// The moves of a row that is listed for them, where its ranks are there: for the coalition the smallest good move where it wins.
pub fn fill_moves(block: &[u8], row: Row, ways: &[u8], ranks: &[u8], moves: &mut [u8])
    requires valid { Valid block.now }
    requires sought { Sought block.now row (L.kind block.now row.index) × Listed block.now row ways.now × (room_bytes ≤ length ranks.now) × (length moves.old ≡ max_positions) }
    ensures by_index { (right : ℕ) → RanksOf block.now row.index row.set right ranks.now → MovesOf block.now row.index row.set right ranks.now moves.new }
    ensures moves_len_unchanged { length moves.new ≡ length moves.old }
{
    let goal = rankings::goal_of(block, row.index);
    fill::zeros(moves, 0);
    fill_states(block, row, ways, ranks, goal, moves);
}
