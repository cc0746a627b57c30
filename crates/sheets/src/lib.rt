// The team's moves at the positions of a worksheet: the row is solved once for all of them.
#![tactic(auto)]

ghost use Rattle.std.specs.Prelude.{◌≡◌, ◌<◌, length};
ghost use Rattle.block.specs.Layout as L;
ghost use Rattle.block.specs.Refusal.{Answers, NoValue};
ghost use Rattle.block.specs.Inner.Valid.{Valid};
ghost use Rattle.game.specs.Demand.{Demand3};
ghost use Rattle.sheets.specs.Worksheet.{sheet_count, words_bytes, sheet_rules, word_for, SheetCall};
ghost use Rattle.solver.specs.Inner.Ready.{MadeReady};
ghost use Rattle.sheets.specs.Inner.Sheets.{AnsweredAt, WordsTo};
ghost use Rattle.turns.specs.Sizes.{room_bytes};

use block::refusal::{Answer, Refusal};
use block::{fill, layout, refusal};
use lookup::spots;
use solver::ready;
use solver::ready::Ready;
use turns::{buffers, sizes};
use ways::lines;

// A position takes a byte for its state, and one for the stock of each resource.
const POSITION_BYTES: usize = layout::MAX_RESOURCES + 1;

const SHEET_POSITIONS: usize = 64;

const SHEET_BYTES: usize = SHEET_POSITIONS * POSITION_BYTES;

// A word of 256 and more tells a refusal.
const REFUSED: usize = 256;

// The refusal of a call with a list, words and a room of these lengths, or 0.
fn turned_down(block: &[u8], i: usize, list: usize, words: usize, room: usize) -> Answer
    ensures { Answers (sheet_rules block.now i list words room) NoValue result }
{
    if SHEET_BYTES < list {
        return Err(Refusal::Length);
    }
    if list % POSITION_BYTES != 0 {
        return Err(Refusal::Length);
    }
    if words != 2 * (list / POSITION_BYTES) {
        return Err(Refusal::Length);
    }
    if room != sizes::ROOM_BYTES {
        return Err(Refusal::Length);
    }
    admission::row(block, i)
}

// What is answered at position k of the list.
fn answer_at(
    block: &[u8],
    i: usize,
    ready: Ready,
    ways: &[u8],
    ranks: &[u8],
    list: &[u8],
    k: usize,
) -> Answer
    requires made_ready { MadeReady block.now i ready ways.now ranks.now }
    requires k_bound { k < sheet_count (length list.now) }
    ensures { AnsweredAt block.now i list.now k result }
{
    let at = POSITION_BYTES * k;
    let s = usize::from(list[at]);
    let stocks = &list[at + 1..at + POSITION_BYTES];
    if admission::no_position(block, i, s, stocks) {
        return Err(Refusal::Position);
    }
    spots::ready_move(block, i, ready, ways, ranks, s, stocks)
}

// An answer as a word: the move, or 256 plus the number of the refusal.
fn word(a: Answer) -> usize
    ensures { result ≡ word_for a }
{
    match a {
        Ok(m) => m,
        Err(r) => REFUSED + usize::from(r.number()),
    }
}

// Stores the word of each position of the list.
fn fill_words(
    block: &[u8],
    i: usize,
    ready: Ready,
    ways: &[u8],
    ranks: &[u8],
    list: &[u8],
    words: &mut [u8],
)
    requires made_ready { MadeReady block.now i ready ways.now ranks.now }
    requires words_len { length words.old ≡ words_bytes (length list.now) }
    ensures { WordsTo block.now i list.now words.new (sheet_count (length list.now)) }
{
    for k in 0..list.len() / POSITION_BYTES {
        let answer = answer_at(block, i, ready, ways, ranks, list, k);
        buffers::set_rank(words, k, word(answer));
    }
}

// The same with the row made ready first.
fn fill_sheet(block: &[u8], i: usize, list: &[u8], words: &mut [u8], room: &mut [u8])
    requires valid { Valid block.now }
    requires i_bound { (i < L.rows block.now) × L.Strategic (L.kind block.now i) × (length room.old ≡ room_bytes) }
    requires words_len { length words.old ≡ words_bytes (length list.now) }
    ensures { WordsTo block.now i list.now words.new (sheet_count (length list.now)) × (length room.new ≡ length room.old) }
{
    let mut ways = [0u8; lines::WAYS_BYTES];
    let ready = ready::prepare(block, i, &mut ways, room);
    fill_words(block, i, ready, &ways, room, list, words);
}

// Fills a word for each position of the list with what the team's move call answers there. The room is left filled with zeros, unless a buffer
// has another length.
pub fn worksheet(block: &[u8], i: usize, list: &[u8], words: &mut [u8], room: &mut [u8]) -> Answer
    ensures sheet_call { SheetCall block.now i list.now words.old room.old words.new room.new result }
    ensures demand3 { Demand3 block.now i }
{
    match turned_down(block, i, list.len(), words.len(), room.len()) {
        Ok(_) => {
            fill_sheet(block, i, list, words, room);
            fill::zeros(room, 0);
            Ok(0)
        }
        Err(r) => {
            fill::leave(room, r);
            Err(r)
        }
    }
}
