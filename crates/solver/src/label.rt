// Labelling: the sets of the rows, each from the sets of lower rows.
ghost use Rattle.std.specs.Prelude.{◌≡◌, ◌≤◌, ◌<◌, length};
ghost use Rattle.block.specs.Layout as L;
ghost use Rattle.block.specs.Inner.Valid.{Valid};
ghost use Rattle.turns.specs.Buffers.{word_in};
ghost use Rattle.solver.specs.Calls.{LabelCall};
ghost use Rattle.solver.specs.Inner.Labels.{NamedSets, InWord, Closed, RowsLabelled, RowLabelled, Ranked};
ghost use Rattle.solver.specs.Inner.Needs.{Needs};
ghost use Rattle.ways.specs.Lines.{ways_bytes};
ghost use Rattle.turns.specs.Sizes.{sets_bytes, room_bytes};

use crate::{needs, rows};
use block::refusal::{Answer, Refusal};
use block::{fill, layout};
use turns::{buffers, sizes};
use ways::lines;

// The word of all rows.
const ALL_ROWS: usize = (1 << layout::MAX_ROWS) - 1;

// The set of the row that row i names left; 0 where it names none.
pub fn left_set(block: &[u8], sets: &[u8], i: usize) -> usize
    requires valid { Valid block.now }
    requires i_bound { (i < L.rows block.now) × (sets_bytes ≤ length sets.now) }
    ensures value { L.prop_kind < L.kind block.now i → result ≡ word_in sets.now (L.left block.now i) }
    ensures value_2 { L.kind block.now i ≡ L.prop_kind → result ≡ 0 }
{
    if layout::kind(block, i) == layout::PROP_KIND {
        return 0;
    }
    buffers::word_at(sets, layout::left(block, i))
}

// The set of the row that row i names right; 0 where it names none.
pub fn right_set(block: &[u8], sets: &[u8], i: usize) -> usize
    requires valid { Valid block.now }
    requires i_bound { (i < L.rows block.now) × (sets_bytes ≤ length sets.now) }
    ensures value { L.Binary (L.kind block.now i) → result ≡ word_in sets.now (L.right block.now i) }
    ensures value_2 { (L.Binary (L.kind block.now i) → ⊥) → result ≡ 0 }
{
    if needs::names_right(block, i) {
        return buffers::word_at(sets, layout::right(block, i));
    }
    0
}

// Stores the set of row i, where the rows that it names have theirs. The ranks become those of a strategic row, and stay as they are for any other.
pub fn label_row(block: &[u8], i: usize, sets: &mut [u8], ways: &mut [u8], ranks: &mut [u8])
    requires valid { Valid block.now }
    requires i_bound { (i < L.rows block.now) × (sets_bytes ≤ length sets.old) × (length ways.old ≡ ways_bytes) × (length ranks.old ≡ room_bytes) }
    requires named_sets { NamedSets block.now i sets.old }
    ensures row_labelled { RowLabelled block.now i sets.old sets.new }
    ensures ranked { Ranked block.now i sets.new ranks.new }
    ensures ranks_unchanged { (L.Strategic (L.kind block.now i) → ⊥) → ranks.new ≡ ranks.old }
    ensures ways_len_unchanged { (length ways.new ≡ length ways.old) × (length ranks.new ≡ length ranks.old) }
{
    let left = left_set(block, sets, i);
    let right = right_set(block, sets, i);
    if layout::kind(block, i) >= layout::NEXT_KIND {
        rows::rank_row(block, i, left, right, ways, ranks);
    }
    let w = rows::row_word(block, i, left, right, ranks);
    buffers::set_word(sets, i, w);
}

// Stores the sets of those of the first n rows that the word has. The ways and the ranks are working room: what they hold afterwards is the program's choice.
fn label_rows(
    block: &[u8],
    n: usize,
    word: usize,
    sets: &mut [u8],
    ways: &mut [u8],
    ranks: &mut [u8],
)
    requires valid { Valid block.now }
    requires n_bound { (n ≤ L.rows block.now) × (sets_bytes ≤ length sets.old) × (length ways.old ≡ ways_bytes) × (length ranks.old ≡ room_bytes) }
    requires closed { Closed block.now n word }
    ensures rows_labelled { RowsLabelled block.now (InWord n word) sets.old sets.new }
    ensures ways_len_unchanged { (length ways.new ≡ length ways.old) × (length ranks.new ≡ length ranks.old) }
{
    for i in 0..n {
        if buffers::has_bit(word, i) {
            label_row(block, i, sets, ways, ranks);
        }
    }
}

// Stores the sets of the rows that row i needs, and of no others. The ways and the ranks are working room.
pub fn label_needed(block: &[u8], i: usize, sets: &mut [u8], ways: &mut [u8], ranks: &mut [u8])
    requires valid { Valid block.now }
    requires i_bound { (i < L.rows block.now) × (sets_bytes ≤ length sets.old) × (length ways.old ≡ ways_bytes) × (length ranks.old ≡ room_bytes) }
    ensures rows_labelled { RowsLabelled block.now (Needs block.now i) sets.old sets.new }
    ensures ways_len_unchanged { (length ways.new ≡ length ways.old) × (length ranks.new ≡ length ranks.old) }
{
    let word = needs::needed(block, i);
    label_rows(block, i, word, sets, ways, ranks);
}

// The sets of all rows of a block that passes the check. The room is left filled with zeros, unless a buffer has another length.
pub fn label(block: &[u8], sets: &mut [u8], room: &mut [u8]) -> Answer
    ensures { LabelCall block.now sets.old room.old sets.new room.new result }
{
    if sets.len() != sizes::SETS_BYTES {
        return Err(Refusal::Length);
    }
    if room.len() != sizes::ROOM_BYTES {
        return Err(Refusal::Length);
    }
    match validate::check(block) {
        Ok(_) => {
            fill::zeros(sets, 0);
            let mut ways = [0u8; lines::WAYS_BYTES];
            let n = layout::rows(block);
            label_rows(block, n, ALL_ROWS, sets, &mut ways, room);
            fill::zeros(room, 0);
            Ok(0)
        }
        Err(r) => {
            fill::leave(room, r);
            Err(r)
        }
    }
}
