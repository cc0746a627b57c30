// The board: a word for the next states of each listed move, one for the states that are ranked by now at each stock place, and one for all
// states that each state leads to.
ghost use Rattle.std.specs.Prelude.{true, ◌≡◌, ℕ, ◌^◌, ◌≤◌, ◌<◌, length};
ghost use Rattle.block.specs.Decide.{Bit};
ghost use Rattle.block.specs.Layout as L;
ghost use Rattle.block.specs.Inner.Tests.{Decides};
ghost use Rattle.block.specs.Inner.Valid.{Valid};
ghost use Rattle.turns.specs.Buffers.{narrow_in};
ghost use Rattle.turns.specs.Sizes.{narrow_bits, room_bytes};
ghost use Rattle.ways.specs.Lines.{ways_bytes, count_in, number_in};
ghost use Rattle.ways.specs.Listing.{Listed};
ghost use Rattle.ways.specs.Rows.{Playable};
ghost use Rattle.boards.specs.Boards.{nexts_words, board_bytes, to_in, won_in, reach_in, Nexts, RankedWithin};

use block::layout;
use turns::{buffers, sizes};
use ways::lines;
use ways::rows::Row;

// The words before those of the stock places.
pub const NEXTS: usize = layout::MAX_STATES * layout::JOINT_ACTIONS;

// The words behind them: what can be reached from each state.
pub const REACHES: usize = NEXTS + sizes::MAX_STOCK_PLACES;

pub const BOARD_BYTES: usize = 3 * (REACHES + layout::MAX_STATES);

// The states where the replies to the k-th listed move of state s lead.
fn next_states(block: &[u8], row: Row, ways: &[u8], s: usize, k: usize) -> usize
    requires valid { Valid block.now }
    requires playable { Playable block.now row × Listed block.now row ways.now }
    requires s_bound { (s < L.states block.now) × (k < count_in ways.now s true) }
    ensures { Nexts block.now row s (number_in ways.now s true k) result × (result < 2 ^ narrow_bits) }
{
    let m = lines::number(ways, s, true, k);
    let n = lines::count(ways, s, false);
    let mut w = 0;
    for j in 0..n {
        let q = layout::next(block, s, m + lines::number(ways, s, false, j));
        w = buffers::with_bit(w, q);
    }
    w
}

// Stores those of state s.
fn store_state(block: &[u8], row: Row, ways: &[u8], s: usize, board: &mut [u8])
    requires valid { Valid block.now }
    requires playable { Playable block.now row × Listed block.now row ways.now }
    requires s_bound { (s < L.states block.now) × (length board.old ≡ board_bytes) }
    ensures by_index { (k : ℕ) → k < count_in ways.now s true → Nexts block.now row s (number_in ways.now s true k) (to_in board.new s k) }
    ensures by_index_2 { ((t k : ℕ) → t < s → k < L.max_joint → to_in board.new t k ≡ to_in board.old t k) × (length board.new ≡ length board.old) }
{
    let n = lines::count(ways, s, true);
    for k in 0..n {
        let w = next_states(block, row, ways, s, k);
        buffers::set_narrow(board, layout::JOINT_ACTIONS * s + k, w);
    }
}

// Stores the next states of every listed move.
pub fn store_nexts(block: &[u8], row: Row, ways: &[u8], board: &mut [u8])
    requires valid { Valid block.now }
    requires playable { Playable block.now row × Listed block.now row ways.now × (length board.old ≡ board_bytes) }
    ensures by_index { (s k : ℕ) → s < L.states block.now → k < count_in ways.now s true → Nexts block.now row s (number_in ways.now s true k) (to_in board.new s k) }
    ensures board_len_unchanged { length board.new ≡ length board.old }
{
    let n = layout::states(block);
    for s in 0..n {
        store_state(block, row, ways, s, board);
    }
}

// All states that a listed move of state s may lead to.
fn reach_of(ways: &[u8], board: &[u8], s: usize) -> usize
    requires { (length ways.now ≡ ways_bytes) × (count_in ways.now s true ≤ L.max_joint) × (length board.now ≡ board_bytes) × (s < L.max_states) }
    ensures { ((k q : ℕ) → k < count_in ways.now s true → Bit (to_in board.now s k) q → Bit result q) × (result < 2 ^ narrow_bits) }
{
    let n = lines::count(ways, s, true);
    let mut w = 0;
    for k in 0..n {
        w = w | to_at(board, s, k);
    }
    w
}

// Stores them for every state.
pub fn store_reaches(block: &[u8], row: Row, ways: &[u8], board: &mut [u8])
    requires valid { Valid block.now }
    requires playable { Playable block.now row × Listed block.now row ways.now × (length board.old ≡ board_bytes) }
    ensures by_index { (s k q : ℕ) → s < L.states block.now → k < count_in ways.now s true → Bit (to_in board.new s k) q → Bit (reach_in board.new s) q }
    ensures by_index_2 { ((i : ℕ) → i < nexts_words → narrow_in board.new i ≡ narrow_in board.old i) × (length board.new ≡ length board.old) }
{
    let n = layout::states(block);
    for s in 0..n {
        let w = reach_of(ways, board, s);
        buffers::set_narrow(board, REACHES + s, w);
    }
}

// Whether r is from low to below end.
fn between(r: usize, low: usize, end: usize) -> bool
    ensures { Decides ((low ≤ r) × (r < end)) result }
{
    low <= r && r < end
}

// The states whose rank at stock place x is from low to below end.
pub fn ranked_within(
    block: &[u8],
    row: Row,
    ranks: &[u8],
    x: usize,
    low: usize,
    end: usize,
) -> usize
    requires valid { Valid block.now }
    requires playable { Playable block.now row × (room_bytes ≤ length ranks.now) × (x < row.places) }
    ensures { RankedWithin (L.states block.now) row.places ranks.now x low end result × (result < 2 ^ narrow_bits) }
{
    let c = row.places;
    let states = layout::states(block);
    let mut w = 0;
    for s in 0..states {
        if between(buffers::rank_at(ranks, s * c + x), low, end) {
            w = buffers::with_bit(w, s);
        }
    }
    w
}

// The set of next states of a listed move, the set of a place, and that of all next states of a state.
pub fn to_at(board: &[u8], s: usize, k: usize) -> usize
    requires { (length board.now ≡ board_bytes) × (s < L.max_states) × (k < L.max_joint) }
    ensures { (result ≡ to_in board.now s k) × (result < 2 ^ narrow_bits) }
{
    buffers::narrow_at(board, layout::JOINT_ACTIONS * s + k)
}

pub fn won_at(board: &[u8], y: usize) -> usize
    requires { (length board.now ≡ board_bytes) × (y < 256) }
    ensures { (result ≡ won_in board.now y) × (result < 2 ^ narrow_bits) }
{
    buffers::narrow_at(board, NEXTS + y)
}

pub fn reach_at(board: &[u8], s: usize) -> usize
    requires { (length board.now ≡ board_bytes) × (s < L.max_states) }
    ensures { (result ≡ reach_in board.now s) × (result < 2 ^ narrow_bits) }
{
    buffers::narrow_at(board, REACHES + s)
}
