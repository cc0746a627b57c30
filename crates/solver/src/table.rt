// The table of a strategic row: rank and move of every position.
ghost use Rattle.std.specs.Prelude.{◌≡◌, ◌<◌, length};
ghost use Rattle.block.specs.Layout as L;
ghost use Rattle.block.specs.Inner.Valid.{Valid};
ghost use Rattle.game.specs.Demand.{Demand3};
ghost use Rattle.solver.specs.Calls.{RowTable, TableCall};
ghost use Rattle.turns.specs.Sizes.{room_bytes, max_positions};

use crate::ready;
use block::refusal::{Answer, Refusal};
use choice::tables;
use turns::sizes;
use ways::lines;

// Fills the table of row i.
fn fill_table(block: &[u8], i: usize, ranks: &mut [u8], moves: &mut [u8])
    requires valid { Valid block.now }
    requires i_bound { (i < L.rows block.now) × L.Strategic (L.kind block.now i) }
    requires ranks_len { (length ranks.old ≡ room_bytes) × (length moves.old ≡ max_positions) }
    ensures { RowTable block.now i ranks.new moves.new }
{
    let mut ways = [0u8; lines::WAYS_BYTES];
    let ready = ready::prepare(block, i, &mut ways, ranks);
    tables::fill_moves(block, ready.row, &ways, ranks, moves);
}

// The table of row i, a strategic row of a block that passes the check.
pub fn table(block: &[u8], i: usize, ranks: &mut [u8], moves: &mut [u8]) -> Answer
    ensures table_call { TableCall block.now i ranks.old moves.old ranks.new moves.new result }
    ensures demand3 { Demand3 block.now i }
{
    if ranks.len() != sizes::ROOM_BYTES {
        return Err(Refusal::Length);
    }
    if moves.len() != sizes::MOVES_BYTES {
        return Err(Refusal::Length);
    }
    admission::row(block, i)?;
    fill_table(block, i, ranks, moves);
    Ok(0)
}
