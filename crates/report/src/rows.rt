// The lines of all rows, each solved once from the sets of lower rows.
ghost use Rattle.std.specs.Prelude.{List, ◌≡◌, ℕ, ◌+◌, ◌≤◌, ◌<◌, length, take};
ghost use Rattle.block.specs.Layout as L;
ghost use Rattle.block.specs.Inner.Valid.{Valid};
ghost use Rattle.text.specs.Inner.Adding.{Adds, HasRoom, Within};
ghost use Rattle.turns.specs.Sizes.{sets_bytes, room_bytes, moves_bytes};
ghost use Rattle.ways.specs.Lines.{ways_bytes};
ghost use Rattle.solver.specs.Calls.{RowTable};
ghost use Rattle.solver.specs.Inner.Labels.{LowerSets, RowLabelled, Ranked};
ghost use Rattle.report.specs.Call.{listing_bytes};
ghost use Rattle.report.specs.Listing.{RowListed, Listed};

use crate::plans::plan_lines;
use block::layout;
use choice::{moves, tables};
use printing::{list_line, set_line};
use solver::label;
use text::output::Output;
use turns::{buffers, sizes};
use ways::lines;

// The table of a strategic row, whose ranks are there.
fn row_table(block: &[u8], i: usize, sets: &[u8], ways: &mut [u8], ranks: &[u8], moves: &mut [u8])
    requires valid { Valid block.now }
    requires i_bound { (i < L.rows block.now) × L.Strategic (L.kind block.now i) }
    requires sets_len { (length sets.now ≡ sets_bytes) × (length ways.old ≡ ways_bytes) × (length ranks.now ≡ room_bytes) × (length moves.old ≡ moves_bytes) }
    requires ranked { Ranked block.now i sets.now ranks.now }
    ensures { RowTable block.now i ranks.now moves.new }
{
    let left = label::left_set(block, sets, i);
    let row = moves::list_moves(block, i, left, ways);
    tables::fill_moves(block, row, ways, ranks, moves);
}

// The lines of row i, at most 1,015 bytes, where lower rows have their sets; its own is stored.
fn row_lines(
    block: &[u8],
    i: usize,
    sets: &mut [u8],
    ranks: &mut [u8],
    moves: &mut [u8],
    out: &mut Output,
)
    requires valid { Valid block.now × (i < L.rows block.now) }
    requires sets_len { (length sets.old ≡ sets_bytes) × (length ranks.old ≡ room_bytes) × (length moves.old ≡ moves_bytes) × HasRoom 1015 out.old }
    requires lower_sets { LowerSets block.now i sets.old }
    ensures row_labelled { RowLabelled block.now i sets.old sets.new }
    ensures ranks_len { (length ranks.new ≡ room_bytes) × (length moves.new ≡ moves_bytes) }
    ensures listed { (lines : List ℕ) × (RowListed block.now i lines × Adds lines out.old out.new) }
    ensures within { Within 1015 out.old out.new }
{
    let mut ways = [0u8; lines::WAYS_BYTES];
    label::label_row(block, i, sets, &mut ways, ranks);
    let set = buffers::word_at(sets, i);
    set_line(out, i, set);
    if layout::kind(block, i) >= layout::NEXT_KIND {
        row_table(block, i, sets, &mut ways, ranks, moves);
        plan_lines(block, i, set, ranks, moves, out);
    }
}

// The listing of a job, from the front of the buffer.
pub fn job_lines(block: &[u8], out: &mut [u8], ranks: &mut [u8], moves: &mut [u8]) -> usize
    requires valid { Valid block.now }
    requires out_len { (length out.old ≡ listing_bytes) × (length ranks.old ≡ room_bytes) × (length moves.old ≡ moves_bytes) }
    ensures listed { Listed block.now (take result out.new) × (result ≤ listing_bytes) }
    ensures ranks_len { (length ranks.new ≡ room_bytes) × (length moves.new ≡ moves_bytes) }
{
    let mut sets = [0u8; sizes::SETS_BYTES];
    let n = layout::rows(block);
    let mut lines = Output::new(out);
    list_line(&mut lines, n);
    for i in 0..n {
        row_lines(block, i, &mut sets, ranks, moves, &mut lines);
    }
    lines.len()
}
