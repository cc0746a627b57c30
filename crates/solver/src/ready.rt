// A row made ready to be asked about its positions: the rows that it needs labelled, itself listed and ranked.
ghost use Rattle.std.specs.Prelude.{◌≡◌, ◌<◌, length};
ghost use Rattle.block.specs.Layout as L;
ghost use Rattle.block.specs.Inner.Valid.{Valid};
ghost use Rattle.turns.specs.Sizes.{room_bytes};
ghost use Rattle.ways.specs.Lines.{ways_bytes};
ghost use Rattle.solver.specs.Inner.Labels.{LowerTold};
ghost use Rattle.solver.specs.Inner.Ready.{MadeReady};

use crate::{label, rows};
use turns::sizes;
use ways::rows::Row;

// The row as it is listed for its moves, with the set of its left row, and the set of its right row.
#[derive(Clone, Copy)]
pub struct Ready {
    pub row: Row,
    pub right: usize,
}

// The sets of the rows that a row names.
#[derive(Clone, Copy)]
pub struct Lower {
    pub left: usize,
    pub right: usize,
}

// Labels the rows that row i needs, and tells the sets of those that it names. The ways and the ranks are working room.
pub fn lower_sets(block: &[u8], i: usize, ways: &mut [u8], ranks: &mut [u8]) -> Lower
    requires valid { Valid block.now }
    requires i_bound { (i < L.rows block.now) × (length ways.old ≡ ways_bytes) × (length ranks.old ≡ room_bytes) }
    ensures lower_told { LowerTold block.now i result.left result.right }
    ensures ways_len_unchanged { (length ways.new ≡ length ways.old) × (length ranks.new ≡ length ranks.old) }
{
    let mut sets = [0u8; sizes::SETS_BYTES];
    label::label_needed(block, i, &mut sets, ways, ranks);
    Lower {
        left: label::left_set(block, &sets, i),
        right: label::right_set(block, &sets, i),
    }
}

// Labels the rows that row i needs, lists it and stores its ranks.
pub fn prepare(block: &[u8], i: usize, ways: &mut [u8], ranks: &mut [u8]) -> Ready
    requires valid { Valid block.now }
    requires i_bound { (i < L.rows block.now) × L.Strategic (L.kind block.now i) × (length ways.old ≡ ways_bytes) × (length ranks.old ≡ room_bytes) }
    ensures { MadeReady block.now i result ways.new ranks.new }
{
    let lower = lower_sets(block, i, ways, ranks);
    let row = rows::rank_row(block, i, lower.left, lower.right, ways, ranks);
    Ready {
        row: row,
        right: lower.right,
    }
}
