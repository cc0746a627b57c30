// Sweeps over the positions of a row: ranks are lowered in place until nothing does better. Until and always go the same way, the
// one with the coalition attacking, the other with its opponents. Where stock is only spent, one stock place comes to rest after another.
ghost use Rattle.std.specs.Prelude.{false, ◌≡◌, ◌≤◌, ◌<◌, length};
ghost use Rattle.block.specs.Layout as L;
ghost use Rattle.block.specs.Inner.Valid.{Valid};
ghost use Rattle.game.specs.Model.{arena_of};
ghost use Rattle.turns.specs.Sizes.{room_bytes};
ghost use Rattle.ways.specs.Listing.{Listed};
ghost use Rattle.ways.specs.Rows.{Playable};
ghost use Rattle.sweeps.specs.Sweeps.{RestsAt, RestsBelow, visit, Swept, PlaceSettled, Settled};

use crate::value;
use block::layout;
use turns::buffers;
use ways::rows::{Row, Side, Spot};

// Lowers the rank of a position to one more than its value, where its state is safe and that is less. Tells whether it fell.
fn settle_at(block: &[u8], row: Row, side: Side, ways: &[u8], spot: Spot, ranks: &mut [u8]) -> bool
    requires valid { Valid block.now }
    requires playable { Playable block.now row × Listed block.now row ways.now × (room_bytes ≤ length ranks.old) }
    requires into_value { (row.into ≡ false) × (spot.state < L.states block.now) × (spot.place < row.places) }
    ensures { Swept (arena_of block.now row.index) side.most side.safe spot.place (RestsAt (arena_of block.now row.index) side.most side.safe spot.place spot.state) result ranks.old ranks.new }
{
    if !buffers::has_bit(side.safe, spot.state) {
        return false;
    }
    let p = spot.state * row.places + spot.place;
    let rank = buffers::rank_at(ranks, p);
    if rank <= 1 {
        return false;
    }
    let v = value::value_at(block, row, ways, ranks, spot, side.most, rank);
    buffers::lower(ranks, p, v + 1)
}

// The k-th of n states in a sweep, from the last state on where back.
fn visited(back: bool, n: usize, k: usize) -> usize
    requires { k < n }
    ensures { result ≡ visit back n k }
{
    if back {
        return n - 1 - k;
    }
    k
}

// One sweep over all states at place x. Tells whether any rank fell.
fn sweep(
    block: &[u8],
    row: Row,
    side: Side,
    ways: &[u8],
    x: usize,
    back: bool,
    ranks: &mut [u8],
) -> bool
    requires valid { Valid block.now }
    requires playable { Playable block.now row × Listed block.now row ways.now × (room_bytes ≤ length ranks.old) }
    requires into_value { (row.into ≡ false) × (x < row.places) }
    ensures { Swept (arena_of block.now row.index) side.most side.safe x (RestsBelow (arena_of block.now row.index) side.most side.safe x (L.states block.now)) result ranks.old ranks.new }
{
    let n = layout::states(block);
    let mut did = false;
    for k in 0..n {
        let spot = Spot {
            state: visited(back, n, k),
            place: x,
        };
        if settle_at(block, row, side, ways, spot, ranks) {
            did = true;
        }
    }
    did
}

// Sweeps at place x until nothing does better, to and fro, since ranks travel along one of the two. Tells whether any rank fell.
pub fn settle_place(
    block: &[u8],
    row: Row,
    side: Side,
    ways: &[u8],
    x: usize,
    ranks: &mut [u8],
) -> bool
    requires valid { Valid block.now }
    requires playable { Playable block.now row × Listed block.now row ways.now × (room_bytes ≤ length ranks.old) }
    requires into_value { (row.into ≡ false) × (x < row.places) }
    ensures { PlaceSettled (arena_of block.now row.index) side.most side.safe x result ranks.old ranks.new }
{
    let mut fell = false;
    let mut back = false;
    let mut more = true;
    while more {
        more = sweep(block, row, side, ways, x, back, ranks);
        if more {
            fell = true;
        }
        back = !back;
    }
    fell
}

// Settles one stock place after another, from those with the least stock on: enough where no move gives.
pub fn settle_rising(block: &[u8], row: Row, side: Side, ways: &[u8], ranks: &mut [u8])
    requires valid { Valid block.now }
    requires playable { Playable block.now row × Listed block.now row ways.now × (room_bytes ≤ length ranks.old) }
    requires into_value { (row.into ≡ false) × (row.gives ≡ false) }
    ensures { Settled (arena_of block.now row.index) side.most side.safe ranks.old ranks.new }
{
    let c = row.places;
    for x in 0..c {
        settle_place(block, row, side, ways, x, ranks);
    }
}
