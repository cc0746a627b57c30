// A position that a caller names, and the team's move there.
ghost use Rattle.std.specs.Prelude.{◌≤◌, ◌<◌, length};
ghost use Rattle.block.specs.Layout as L;
ghost use Rattle.block.specs.Refusal.{Answers};
ghost use Rattle.block.specs.Inner.Valid.{Valid};
ghost use Rattle.game.specs.Position as P;
ghost use Rattle.game.specs.Model.{arena_of};
ghost use Rattle.game.specs.Demand.{RowMove};
ghost use Rattle.ways.specs.Places.{PlacedAt};
ghost use Rattle.lookup.specs.Calls.{side_rules};
ghost use Rattle.solver.specs.Inner.Ready.{MadeReady};
ghost use Rattle.lookup.specs.Inner.Spots.{SpotMove};

use block::refusal::{Answer, Refusal};
use choice::moves;
use solver::ready::Ready;
use turns::{positions, sizes};
use ways::rows::Spot;

// The place of a position among the stock places of its state.
pub fn spot_of(block: &[u8], i: usize, s: usize, stocks: &[u8]) -> Spot
    requires valid { Valid block.now }
    requires i_bound { (i < L.rows block.now) × L.Strategic (L.kind block.now i) × (L.resources block.now ≤ length stocks.now) }
    requires position { P.IsPosition (arena_of block.now i) (P.position s stocks.now) }
    ensures { PlacedAt (arena_of block.now i) result.state result.place (P.position s stocks.now) }
{
    Spot {
        state: s,
        place: positions::number(block, i, 0, stocks),
    }
}

// The team's move at a spot of a row made ready, or that there is none.
pub fn spot_move(block: &[u8], i: usize, ready: Ready, ways: &[u8], ranks: &[u8], spot: Spot) -> u8
    requires made_ready { MadeReady block.now i ready ways.now ranks.now }
    requires state_bound { (spot.state < L.states block.now) × (spot.place < ready.row.places) }
    ensures { (p : P.Position) → PlacedAt (arena_of block.now i) spot.state spot.place p → SpotMove block.now i ready.row p result }
{
    let goal = rankings::goal_of(block, i);
    moves::move_at(block, ready.row, ways, ranks, spot, goal)
}

// The team's move at a position of a row made ready.
pub fn ready_move(
    block: &[u8],
    i: usize,
    ready: Ready,
    ways: &[u8],
    ranks: &[u8],
    s: usize,
    stocks: &[u8],
) -> Answer
    requires made_ready { MadeReady block.now i ready ways.now ranks.now }
    requires block_in_bounds { (L.resources block.now ≤ length stocks.now) × P.IsPosition (arena_of block.now i) (P.position s stocks.now) }
    ensures { Answers (side_rules block.now i (P.position s stocks.now)) (RowMove block.now i (P.position s stocks.now)) result }
{
    let spot = spot_of(block, i, s, stocks);
    let m = spot_move(block, i, ready, ways, ranks, spot);
    if m == sizes::NO_MOVE {
        return Err(Refusal::WrongSide);
    }
    Ok(usize::from(m))
}
