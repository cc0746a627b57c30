// The buffer that holds the listing of a row: first the packed stocks of the stock places, then for each state the counts of its
// moves and replies, its moves, its replies, and what each move takes and gives. No other module computes a place in it.
ghost use Rattle.std.specs.Prelude.{◌≡◌, ◌+◌, ◌*◌, ◌≤◌, ◌<◌, length, set};
ghost use Rattle.block.specs.Layout.{max_states, max_joint};
ghost use Rattle.turns.specs.Sizes.{rank_end, max_stock_places};
ghost use Rattle.turns.specs.Buffers.{rank_in};
ghost use Rattle.turns.specs.Inner.Stores.{Stored};
ghost use Rattle.ways.specs.Lines.{state_bytes, ways_bytes, field_place, field_in, count_at, line_at, takes_at, gives_at, packed_in, count_in, number_in, taken_in, given_in, FoundAt};

use block::layout;
use turns::{buffers, sizes};

// Where the states begin, and how many bytes each has: two counts, and four lines with a byte for each joint action.
const STATES_BASE: usize = 2 * sizes::MAX_STOCK_PLACES;

const STATE_BYTES: usize = 2 + 4 * layout::JOINT_ACTIONS;

pub const WAYS_BYTES: usize = STATES_BASE + STATE_BYTES * layout::MAX_STATES;

// Where what the moves of a state take begins, and what they give.
const TAKES: usize = 2 + 2 * layout::JOINT_ACTIONS;

const GIVES: usize = TAKES + layout::JOINT_ACTIONS;

// Field f of state s.
fn field(ways: &[u8], s: usize, f: usize) -> usize
    requires { (length ways.now ≡ ways_bytes) × (s < max_states) × (f < state_bytes) }
    ensures { (result ≡ field_in ways.now s f) × (result < 256) }
{
    usize::from(ways[STATES_BASE + STATE_BYTES * s + f])
}

// Stores field f of state s.
fn set_field(ways: &mut [u8], s: usize, f: usize, v: u8)
    requires { (length ways.old ≡ ways_bytes) × (s < max_states) × (f < state_bytes) }
    ensures { ways.new ≡ set ways.old (field_place s f) v }
{
    ways[STATES_BASE + STATE_BYTES * s + f] = v;
}

// Where the count and the numbers of a line begin: of the moves where ours, and else of the replies.
fn count_at(ours: bool) -> usize
    ensures { result ≡ count_at ours }
{
    if ours { 0 } else { 1 }
}

fn line_at(ours: bool) -> usize
    ensures { result ≡ line_at ours }
{
    if ours { 2 } else { 2 + layout::JOINT_ACTIONS }
}

// How many moves or replies state s has.
pub fn count(ways: &[u8], s: usize, ours: bool) -> usize
    requires { (length ways.now ≡ ways_bytes) × (s < max_states) }
    ensures { result ≡ count_in ways.now s ours }
{
    field(ways, s, count_at(ours))
}

pub fn set_count(ways: &mut [u8], s: usize, ours: bool, n: usize)
    requires { (length ways.old ≡ ways_bytes) × (s < max_states) × (n ≤ max_joint) }
    ensures { ways.new ≡ set ways.old (field_place s (count_at ours)) n }
{
    set_field(ways, s, count_at(ours), n as u8);
}

// The k-th of them.
pub fn number(ways: &[u8], s: usize, ours: bool, k: usize) -> usize
    requires { (length ways.now ≡ ways_bytes) × (s < max_states) × (k < max_joint) }
    ensures { result ≡ number_in ways.now s ours k }
{
    field(ways, s, line_at(ours) + k)
}

// The place of the number m among them, the first.
pub fn find(ways: &[u8], s: usize, ours: bool, m: usize) -> Option<usize>
    requires { (length ways.now ≡ ways_bytes) × (s < max_states) × (count_in ways.now s ours ≤ max_joint) }
    ensures { FoundAt ways.now s ours m result }
{
    let n = count(ways, s, ours);
    (0..n).find(|k| number(ways, s, ours, *k) == m)
}

pub fn set_number(ways: &mut [u8], s: usize, ours: bool, k: usize, m: usize)
    requires { (length ways.old ≡ ways_bytes) × (s < max_states) × (k < max_joint) × (m < max_joint) }
    ensures { ways.new ≡ set ways.old (field_place s (line_at ours + k)) m }
{
    set_field(ways, s, line_at(ours) + k, m as u8);
}

// What the k-th move takes, as a stock place.
pub fn taken(ways: &[u8], s: usize, k: usize) -> usize
    requires { (length ways.now ≡ ways_bytes) × (s < max_states) × (k < max_joint) }
    ensures { (result ≡ taken_in ways.now s k) × (result < 256) }
{
    field(ways, s, TAKES + k)
}

// What it gives, in the same way.
pub fn given(ways: &[u8], s: usize, k: usize) -> usize
    requires { (length ways.now ≡ ways_bytes) × (s < max_states) × (k < max_joint) }
    ensures { (result ≡ given_in ways.now s k) × (result < 256) }
{
    field(ways, s, GIVES + k)
}

pub fn set_effect(ways: &mut [u8], s: usize, k: usize, takes: usize, gives: usize)
    requires { (length ways.old ≡ ways_bytes) × (s < max_states) × (k < max_joint) × (takes < max_stock_places) × (gives < max_stock_places) }
    ensures { ways.new ≡ set (set ways.old (field_place s (takes_at + k)) takes) (field_place s (gives_at + k)) gives }
{
    set_field(ways, s, TAKES + k, takes as u8);
    set_field(ways, s, GIVES + k, gives as u8);
}

// The packed stocks of stock place x.
pub fn packed(ways: &[u8], x: usize) -> usize
    requires { (length ways.now ≡ ways_bytes) × (x < max_stock_places) }
    ensures { (result ≡ packed_in ways.now x) × (result < rank_end) }
{
    buffers::rank_at(ways, x)
}

pub fn set_packed(ways: &mut [u8], x: usize, v: usize)
    requires { (length ways.old ≡ ways_bytes) × (x < max_stock_places) × (v < rank_end) }
    ensures { Stored rank_in ways.old ways.new x v }
{
    buffers::set_rank(ways, x, v);
}
