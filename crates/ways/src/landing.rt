// A move at a stock place: the place that it leads to, `None` where the place cannot pay it.
ghost use Rattle.std.specs.Prelude.{true, ◌≡◌, ◌<◌};
ghost use Rattle.block.specs.Layout as L;
ghost use Rattle.block.specs.Inner.Valid.{Valid};
ghost use Rattle.game.specs.Model.{arena_of};
ghost use Rattle.ways.specs.Landing.{Remains, Lands};
ghost use Rattle.ways.specs.Lines.{count_in, number_in, taken_in};
ghost use Rattle.ways.specs.Listing.{Listed};
ghost use Rattle.ways.specs.Rows.{Playable};

use crate::rows::{Row, Spot};
use crate::{lines, packs};

// The place that is left of the position's when the k-th move of its state is paid.
pub fn spends(block: &[u8], row: Row, ways: &[u8], spot: Spot, k: usize) -> Option<usize>
    requires valid { Valid block.now }
    requires playable { Playable block.now row × Listed block.now row ways.now }
    requires state_bound { (spot.state < L.states block.now) × (spot.place < row.places) × (k < count_in ways.now spot.state true) }
    ensures { Remains ways.now spot.place (taken_in ways.now spot.state k) result }
{
    let x = spot.place;
    let o = lines::taken(ways, spot.state, k);
    if packs::covers(ways, x, o) {
        return Some(x - o);
    }
    None
}

// Where the k-th move of the position's state lands.
pub fn lands(block: &[u8], row: Row, ways: &[u8], spot: Spot, k: usize) -> Option<usize>
    requires valid { Valid block.now }
    requires playable { Playable block.now row × Listed block.now row ways.now }
    requires state_bound { (spot.state < L.states block.now) × (spot.place < row.places) × (k < count_in ways.now spot.state true) }
    ensures { Lands (arena_of block.now row.index) spot.state spot.place (number_in ways.now spot.state true k) result }
{
    let y = spends(block, row, ways, spot, k)?;
    let g = lines::given(ways, spot.state, k);
    if g == 0 {
        return Some(y);
    }
    Some(packs::filled(ways, row.places - 1, y, g))
}
