// The team's move at a position.
ghost use Rattle.std.specs.Prelude.{[], ◌∷◌, ◌≡◌, ◌≤◌, ◌<◌, length};
ghost use Rattle.block.specs.Layout as L;
ghost use Rattle.block.specs.Refusal.{Answers};
ghost use Rattle.block.specs.Inner.Valid.{Valid};
ghost use Rattle.game.specs.Position.{position, IsPosition};
ghost use Rattle.game.specs.Model.{arena_of};
ghost use Rattle.game.specs.Demand.{RowMove, Demand3};
ghost use Rattle.lookup.specs.Calls.{side_rules, MoveCall};
ghost use Rattle.turns.specs.Sizes.{room_bytes};

use crate::spots;
use block::fill;
use block::refusal::{Answer, Refusal};
use solver::ready;
use turns::sizes;
use ways::lines;

// The team's move at a position of a strategic row.
fn coalition_at(block: &[u8], i: usize, s: usize, stocks: &[u8], room: &mut [u8]) -> Answer
    requires valid { Valid block.now }
    requires i_bound { (i < L.rows block.now) × L.Strategic (L.kind block.now i) × (L.resources block.now ≤ length stocks.now) × (length room.old ≡ room_bytes) }
    requires position { IsPosition (arena_of block.now i) (position s stocks.now) }
    ensures answers { Answers (side_rules block.now i (position s stocks.now)) (RowMove block.now i (position s stocks.now)) result }
    ensures room_len_unchanged { length room.new ≡ length room.old }
{
    let mut ways = [0u8; lines::WAYS_BYTES];
    let ready = ready::prepare(block, i, &mut ways, room);
    spots::ready_move(block, i, ready, &ways, room, s, stocks)
}

// The team's move of row i in state s with these stocks. The room is left filled with zeros, unless a buffer has another length.
pub fn coalition_move(
    block: &[u8],
    i: usize,
    s: usize,
    stock0: u8,
    stock1: u8,
    room: &mut [u8],
) -> Answer
    ensures move_call { MoveCall block.now i s (stock0 ∷ stock1 ∷ []) room.old room.new result }
    ensures demand3 { Demand3 block.now i }
{
    if room.len() != sizes::ROOM_BYTES {
        return Err(Refusal::Length);
    }
    let stocks = [stock0, stock1];
    match admission::position(block, i, s, &stocks) {
        Ok(_) => {
            let answer = coalition_at(block, i, s, &stocks, room);
            fill::zeros(room, 0);
            answer
        }
        Err(r) => {
            fill::leave(room, r);
            Err(r)
        }
    }
}
