// Stock places that come to rest in any order, since moves give too: a place is flagged at first, and again where ranks fell at a place
// that one of its moves leads to.
ghost use Rattle.std.specs.Prelude.{true, false, ◌≡◌, ◌≤◌, ◌<◌, get_or, length};
ghost use Rattle.block.specs.Inner.Valid.{Valid};
ghost use Rattle.game.specs.Model.{arena_of};
ghost use Rattle.turns.specs.Sizes.{max_stock_places, room_bytes};
ghost use Rattle.ways.specs.Back.{Flags};
ghost use Rattle.ways.specs.Listing.{Listed};
ghost use Rattle.ways.specs.Rows.{Playable};
ghost use Rattle.sweeps.specs.Sweeps.{Worked, Settled};

use crate::sweep;
use turns::sizes;
use ways::back;
use ways::rows::{Row, Side};

// Settles place x, which is flagged. Where a rank fell there, the places that lead to it are flagged.
fn work_off(
    block: &[u8],
    row: Row,
    side: Side,
    ways: &[u8],
    x: usize,
    flags: &mut [u8],
    ranks: &mut [u8],
)
    requires valid { Valid block.now }
    requires playable { Playable block.now row × Listed block.now row ways.now × (room_bytes ≤ length ranks.old) × (length flags.old ≡ max_stock_places) }
    requires into_value { (row.into ≡ false) × (x < row.places) × (get_or flags.old x 0 ≡ 1) }
    ensures worked { Worked (arena_of block.now row.index) side.most side.safe x true flags.old flags.new ranks.old ranks.new }
    ensures flags_len_unchanged { length flags.new ≡ length flags.old }
{
    if sweep::settle_place(block, row, side, ways, x, ranks) {
        back::mark(block, row, ways, x, flags);
    }
    flags[x] = 0;
}

// One round over the flagged places, from those with the least stock on. Tells whether there was one.
fn round(
    block: &[u8],
    row: Row,
    side: Side,
    ways: &[u8],
    flags: &mut [u8],
    ranks: &mut [u8],
) -> bool
    requires valid { Valid block.now }
    requires playable { Playable block.now row × Listed block.now row ways.now × (room_bytes ≤ length ranks.old) × Flags flags.old }
    requires into_value { row.into ≡ false }
    ensures worked { Worked (arena_of block.now row.index) side.most side.safe row.places result flags.old flags.new ranks.old ranks.new }
    ensures flags_len_unchanged { length flags.new ≡ length flags.old }
{
    let c = row.places;
    let mut did = false;
    for x in 0..c {
        if flags[x] == 1 {
            work_off(block, row, side, ways, x, flags, ranks);
            did = true;
        }
    }
    did
}

// Rounds until no place is flagged.
fn settle_flagged(block: &[u8], row: Row, side: Side, ways: &[u8], ranks: &mut [u8])
    requires valid { Valid block.now }
    requires playable { Playable block.now row × Listed block.now row ways.now × (room_bytes ≤ length ranks.old) }
    requires into_value { row.into ≡ false }
    ensures { Settled (arena_of block.now row.index) side.most side.safe ranks.old ranks.new }
{
    let mut flags = [1u8; sizes::MAX_STOCK_PLACES];
    let mut more = true;
    while more {
        more = round(block, row, side, ways, &mut flags, ranks);
    }
}

// Settles all stock places: one after another where stock is only spent.
pub fn settle_places(block: &[u8], row: Row, side: Side, ways: &[u8], ranks: &mut [u8])
    requires valid { Valid block.now }
    requires playable { Playable block.now row × Listed block.now row ways.now × (room_bytes ≤ length ranks.old) }
    requires into_value { row.into ≡ false }
    ensures { Settled (arena_of block.now row.index) side.most side.safe ranks.old ranks.new }
{
    if row.gives {
        settle_flagged(block, row, side, ways, ranks);
        return;
    }
    sweep::settle_rising(block, row, side, ways, ranks);
}
