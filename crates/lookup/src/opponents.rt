// The reply of all others to the team's move at a position.
ghost use Rattle.std.specs.Prelude.{[], ◌∷◌, ◌≡◌, ◌≤◌, ◌<◌, length};
ghost use Rattle.block.specs.Layout as L;
ghost use Rattle.block.specs.Refusal.{Answers};
ghost use Rattle.block.specs.Inner.Valid.{Valid};
ghost use Rattle.game.specs.Position.{Position, position, IsPosition};
ghost use Rattle.game.specs.Inner.Stocks.{stock_places};
ghost use Rattle.game.specs.Model.{arena_of};
ghost use Rattle.game.specs.Demand.{RowReply, Demand3};
ghost use Rattle.ways.specs.Lines.{ways_bytes};
ghost use Rattle.ways.specs.Places.{PlacedAt};
ghost use Rattle.solver.specs.Inner.Labels.{Prepared};
ghost use Rattle.lookup.specs.Calls.{answer_rules, ReplyCall};
ghost use Rattle.turns.specs.Sizes.{room_bytes};

use crate::spots;
use block::fill;
use block::refusal::{Answer, Refusal};
use choice::replies;
use solver::ready;
use solver::ready::Ready;
use turns::{buffers, sizes};
use ways::rows::Spot;
use ways::worst::Step;
use ways::{lines, listing, rows};

// The reply to the move m at a position of a strategic row whose ranks are there. All its moves are listed anew, since a move that does not
// lead into the set of a next row can be made too.
fn reply_at(
    block: &[u8],
    i: usize,
    ready: Ready,
    ways: &mut [u8],
    spot: Spot,
    m: usize,
    ranks: &[u8],
) -> Answer
    requires valid { Valid block.now }
    requires i_bound { (i < L.rows block.now) × L.Strategic (L.kind block.now i) × (length ways.old ≡ ways_bytes) × (room_bytes ≤ length ranks.now) }
    requires prepared { Prepared block.now i ready.row.set ready.right ranks.now }
    requires state_bound { (spot.state < L.states block.now) × (spot.place < stock_places (arena_of block.now i)) }
    ensures { (p : Position) → PlacedAt (arena_of block.now i) spot.state spot.place p → Answers (answer_rules block.now i p m) (RowReply block.now i p m) result }
{
    let row = rows::row_of(block, i, false, ready.row.set);
    let own = buffers::rank_at(ranks, spot.state * row.places + spot.place);
    if rankings::claims(rankings::goal_of(block, i), own) {
        return Err(Refusal::WrongSide);
    }
    listing::list_row(block, row, ways);
    match replies::way_to(block, row, ways, spot, m) {
        Some(y) => {
            let step = Step {
                state: spot.state,
                number: m,
                place: y,
            };
            let r = replies::reply_to(block, row, ways, ranks, step, own, ready.right);
            Ok(r)
        }
        None => Err(Refusal::Move),
    }
}

// The same with the ranks of the row found first.
fn opponents_at(
    block: &[u8],
    i: usize,
    s: usize,
    stocks: &[u8],
    m: usize,
    room: &mut [u8],
) -> Answer
    requires valid { Valid block.now }
    requires i_bound { (i < L.rows block.now) × L.Strategic (L.kind block.now i) × (L.resources block.now ≤ length stocks.now) × (length room.old ≡ room_bytes) }
    requires position { IsPosition (arena_of block.now i) (position s stocks.now) }
    ensures answers { Answers (answer_rules block.now i (position s stocks.now) m) (RowReply block.now i (position s stocks.now) m) result }
    ensures room_len_unchanged { length room.new ≡ length room.old }
{
    let mut ways = [0u8; lines::WAYS_BYTES];
    let ready = ready::prepare(block, i, &mut ways, room);
    let spot = spots::spot_of(block, i, s, stocks);
    reply_at(block, i, ready, &mut ways, spot, m, room)
}

// The reply to the move m in row i, state s with these stocks. The room is left filled with zeros, unless a buffer has another length.
pub fn reply(
    block: &[u8],
    i: usize,
    s: usize,
    stock0: u8,
    stock1: u8,
    m: usize,
    room: &mut [u8],
) -> Answer
    ensures reply_call { ReplyCall block.now i s (stock0 ∷ stock1 ∷ []) m room.old room.new result }
    ensures demand3 { Demand3 block.now i }
{
    if room.len() != sizes::ROOM_BYTES {
        return Err(Refusal::Length);
    }
    let stocks = [stock0, stock1];
    match admission::position(block, i, s, &stocks) {
        Ok(_) => {
            let answer = opponents_at(block, i, s, &stocks, m, room);
            fill::zeros(room, 0);
            answer
        }
        Err(r) => {
            fill::leave(room, r);
            Err(r)
        }
    }
}
