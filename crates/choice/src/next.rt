// The ranks of a next row: 1 where some affordable move leads into the set whatever the reply.
ghost use Rattle.std.specs.Prelude.{true, ◌≡◌, ◌+◌, ◌*◌, ◌≤◌, ◌<◌, length};
ghost use Rattle.block.specs.Inner.Tests.{Decides};
ghost use Rattle.block.specs.Layout as L;
ghost use Rattle.block.specs.Inner.Valid.{Valid};
ghost use Rattle.turns.specs.Buffers.{rank_in};
ghost use Rattle.turns.specs.Sizes.{rank_end, room_bytes};
ghost use Rattle.ways.specs.Lines.{ways_bytes, count_in};
ghost use Rattle.ways.specs.Listing.{Listed};
ghost use Rattle.ways.specs.Rows.{Playable};
ghost use Rattle.choice.specs.Choices.{LastFree, FirstPaid, Sought};
ghost use Rattle.choice.specs.Filling.{FilledTo, NextRight, MoveRight};
ghost use Rattle.choice.specs.Tables.{NextRanks};

use block::{fill, layout};
use turns::{buffers, sizes};
use ways::rows::{Row, Spot};
use ways::{landing, lines};

// Whether the last listed move of state s takes nothing.
fn last_free(ways: &[u8], s: usize) -> bool
    requires { (length ways.now ≡ ways_bytes) × (s < L.max_states) × (count_in ways.now s true ≤ L.max_joint) }
    ensures { Decides (LastFree ways.now s) result }
{
    let n = lines::count(ways, s, true);
    0 < n && lines::taken(ways, s, n - 1) == 0
}

// The first listed move that the position pays.
fn first_paid(block: &[u8], row: Row, ways: &[u8], spot: Spot) -> Option<usize>
    requires valid { Valid block.now }
    requires playable { Playable block.now row × Listed block.now row ways.now }
    requires state_bound { (spot.state < L.states block.now) × (spot.place < row.places) }
    ensures { FirstPaid block.now row ways.now spot.state spot.place result }
{
    let n = lines::count(ways, spot.state, true);
    (0..n).find(|k| landing::spends(block, row, ways, spot, *k).is_some())
}

// The rank of a position, where only moves into the set are listed: 1 where one of them can be paid. Every stock pays one that is free.
fn next_rank(block: &[u8], row: Row, ways: &[u8], spot: Spot, free: bool) -> usize
    requires valid { Valid block.now }
    requires playable { Playable block.now row × (row.into ≡ true) × Listed block.now row ways.now }
    requires state_bound { (spot.state < L.states block.now) × (spot.place < row.places) × (free ≡ true → LastFree ways.now spot.state) }
    ensures { NextRight block.now row.index row.set (spot.state * row.places + spot.place) result × (result < rank_end) }
{
    if free || first_paid(block, row, ways, spot).is_some() {
        return 1;
    }
    sizes::NEVER
}

// The move at a position whose rank is there: the first that can be paid, and none where the coalition cannot.
pub fn next_move(block: &[u8], row: Row, ways: &[u8], ranks: &[u8], spot: Spot) -> u8
    requires valid { Valid block.now }
    requires sought { Sought block.now row L.next_kind × Listed block.now row ways.now × (room_bytes ≤ length ranks.now) }
    requires state_bound { (spot.state < L.states block.now) × (spot.place < row.places) }
    ensures { MoveRight block.now row.index row.set ranks.now (spot.state * row.places + spot.place) result }
{
    if buffers::rank_at(ranks, spot.state * row.places + spot.place) != 1 {
        return sizes::NO_MOVE;
    }
    match first_paid(block, row, ways, spot) {
        Some(k) => lines::number(ways, spot.state, true, k) as u8,
        None => sizes::NO_MOVE,
    }
}

// Stores the ranks of state s, where those of the states before it are there.
fn next_places(block: &[u8], row: Row, ways: &[u8], s: usize, ranks: &mut [u8])
    requires valid { Valid block.now }
    requires playable { Playable block.now row × (row.into ≡ true) × Listed block.now row ways.now × (length ranks.old ≡ room_bytes) }
    requires s_bound { (s < L.states block.now) × FilledTo rank_in (NextRight block.now row.index row.set) (s * row.places) ranks.old }
    ensures filled_to { FilledTo rank_in (NextRight block.now row.index row.set) ((s + 1) * row.places) ranks.new }
    ensures ranks_len_unchanged { length ranks.new ≡ length ranks.old }
{
    let c = row.places;
    let free = last_free(ways, s);
    for x in 0..c {
        let spot = Spot { state: s, place: x };
        let rank = next_rank(block, row, ways, spot, free);
        buffers::set_rank(ranks, s * c + x, rank);
    }
}

// Stores the ranks of all states in a buffer of zeros.
fn next_states(block: &[u8], row: Row, ways: &[u8], ranks: &mut [u8])
    requires valid { Valid block.now }
    requires playable { Playable block.now row × (row.into ≡ true) × Listed block.now row ways.now × (length ranks.old ≡ room_bytes) }
    requires filled_to { FilledTo rank_in (NextRight block.now row.index row.set) 0 ranks.old }
    ensures filled_to_2 { FilledTo rank_in (NextRight block.now row.index row.set) (L.states block.now * row.places) ranks.new }
    ensures ranks_len_unchanged { length ranks.new ≡ length ranks.old }
{
    let n = layout::states(block);
    for s in 0..n {
        next_places(block, row, ways, s, ranks);
    }
}

// The ranks of a next row over its set, where only moves into it are listed: 1 where the coalition can, else 65535. Past the last position they are 0.
pub fn next_ranks(block: &[u8], row: Row, ways: &[u8], ranks: &mut [u8])
    requires valid { Valid block.now }
    requires playable { Playable block.now row × (row.into ≡ true) × Listed block.now row ways.now × (length ranks.old ≡ room_bytes) }
    ensures { NextRanks block.now row.index row.set ranks.new × (length ranks.new ≡ length ranks.old) }
{
    fill::zeros(ranks, 0);
    next_states(block, row, ways, ranks);
}
