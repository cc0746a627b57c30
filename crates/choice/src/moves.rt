// The coalition's move at a position: the smallest that is allowed and whose every outcome is aimed at.
ghost use Rattle.std.specs.Prelude.{true, ◌≡◌, ◌+◌, ◌*◌, ◌≤◌, ◌<◌, length};
ghost use Rattle.block.specs.Inner.Tests.{Decides};
ghost use Rattle.block.specs.Layout as L;
ghost use Rattle.block.specs.Inner.Valid.{Valid};
ghost use Rattle.game.specs.Position.{Position};
ghost use Rattle.game.specs.Model.{arena_of};
ghost use Rattle.turns.specs.Sizes.{room_bytes};
ghost use Rattle.rankings.specs.Kinds.{kind_of};
ghost use Rattle.ways.specs.Landing.{Made};
ghost use Rattle.ways.specs.Lines.{ways_bytes, count_in, number_in};
ghost use Rattle.ways.specs.Listing.{Listed, LeadsInto};
ghost use Rattle.ways.specs.Places.{PlacedAt};
ghost use Rattle.choice.specs.Choices.{Sought, AimedFrom, GoodBy};
ghost use Rattle.choice.specs.Filling.{MoveRight};

use rankings::Goal;
use turns::{buffers, sizes};
use ways::rows::{Row, Spot};
use ways::worst::{Limit, Step};
use ways::{landing, lines, listing, rows, worst};

// What a side goes by at a position: the goal of the row, and the position's rank.
#[derive(Clone, Copy)]
pub struct Aim {
    pub goal: Goal,
    pub own: usize,
}

// Whether every outcome of a move that is made is aimed at. In a next row those of each listed move are.
fn aimed(block: &[u8], row: Row, ways: &[u8], ranks: &[u8], step: Step, aim: Aim) -> bool
    requires valid { Valid block.now }
    requires sought { Sought block.now row (kind_of aim.goal) × Listed block.now row ways.now × (room_bytes ≤ length ranks.now) }
    requires made { Made block.now row step.state step.number step.place }
    requires leads_into { kind_of aim.goal ≡ L.next_kind → LeadsInto block.now row.index step.state step.number row.set }
    ensures { AimedFrom block.now row ranks.now (kind_of aim.goal) aim.own step.state step.number step.place result }
{
    match aim.goal {
        Goal::Next => true,
        Goal::Always => {
            let limit = Limit {
                most: false,
                rank: sizes::LARGEST_RANK,
            };
            worst::worst_at(block, row, ways, ranks, step, limit) == sizes::NEVER
        }
        Goal::Until => {
            let limit = Limit {
                most: true,
                rank: aim.own,
            };
            worst::worst_at(block, row, ways, ranks, step, limit) < aim.own
        }
    }
}

// Whether the k-th listed move is good at a position.
fn is_good(
    block: &[u8],
    row: Row,
    ways: &[u8],
    ranks: &[u8],
    spot: Spot,
    aim: Aim,
    k: usize,
) -> bool
    requires valid { Valid block.now }
    requires sought { Sought block.now row (kind_of aim.goal) × Listed block.now row ways.now × (room_bytes ≤ length ranks.now) }
    requires state_bound { (spot.state < L.states block.now) × (spot.place < row.places) × (k < count_in ways.now spot.state true) }
    ensures { (p : Position) → PlacedAt (arena_of block.now row.index) spot.state spot.place p → Decides (GoodBy block.now row ranks.now (kind_of aim.goal) aim.own p (number_in ways.now spot.state true k)) result }
{
    match landing::lands(block, row, ways, spot, k) {
        Some(y) => {
            let step = Step {
                state: spot.state,
                number: lines::number(ways, spot.state, true, k),
                place: y,
            };
            aimed(block, row, ways, ranks, step, aim)
        }
        None => false,
    }
}

// The table's move at a position of a row with this goal, whose set is that of its left row: none where the coalition does not win, 0 where
// until is met, and else the smallest good one.
pub fn move_at(block: &[u8], row: Row, ways: &[u8], ranks: &[u8], spot: Spot, goal: Goal) -> u8
    requires valid { Valid block.now }
    requires sought { Sought block.now row (kind_of goal) × Listed block.now row ways.now × (room_bytes ≤ length ranks.now) }
    requires state_bound { (spot.state < L.states block.now) × (spot.place < row.places) }
    ensures { MoveRight block.now row.index row.set ranks.now (spot.state * row.places + spot.place) result }
{
    let own = buffers::rank_at(ranks, spot.state * row.places + spot.place);
    if !rankings::claims(goal, own) {
        return sizes::NO_MOVE;
    }
    if own == 0 {
        return 0; // only until is won at rank 0
    }
    let aim = Aim {
        goal: goal,
        own: own,
    };
    let n = lines::count(ways, spot.state, true);
    // a loop and no find: the clause of is_good, of every position, is not found inside a closure
    for k in 0..n {
        if is_good(block, row, ways, ranks, spot, aim, k) {
            return lines::number(ways, spot.state, true, k) as u8;
        }
    }
    sizes::NO_MOVE
}

// Lists row i, whose left row has the set left, for its moves: in a next row those that lead into the set.
pub fn list_moves(block: &[u8], i: usize, left: usize, ways: &mut [u8]) -> Row
    requires valid { Valid block.now }
    requires i_bound { (i < L.rows block.now) × L.Strategic (L.kind block.now i) × (length ways.old ≡ ways_bytes) }
    ensures { Sought block.now result (L.kind block.now result.index) × Listed block.now result ways.new × (result.index ≡ i) × (result.set ≡ left) }
{
    let soon = rankings::goal_of(block, i) == Goal::Next;
    let row = rows::row_of(block, i, soon, left);
    listing::list_row(block, row, ways);
    listing::known(block, row, ways)
}
