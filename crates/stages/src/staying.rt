// For always: the moves that do not serve the attack yet.
ghost use Rattle.std.specs.Prelude.{true, false, ◌≡◌, ◌≤◌, ◌<◌, length};
ghost use Rattle.block.specs.Inner.Tests.{Decides};
ghost use Rattle.block.specs.Layout as L;
ghost use Rattle.block.specs.Inner.Valid.{Valid};
ghost use Rattle.ways.specs.Lines.{count_in};
ghost use Rattle.ways.specs.Listing.{Listed};
ghost use Rattle.ways.specs.Rows.{Playable};
ghost use Rattle.boards.specs.Boards.{board_bytes};
ghost use Rattle.stages.specs.Stages.{Stays, FirstStaying};

use boards::{board, fires};
use ways::rows::{Row, Spot};
use ways::{landing, lines};

// Whether the k-th move of the spot's state is paid there, and leads to no state that is ranked where it lands.
fn stays(block: &[u8], row: Row, ways: &[u8], board: &[u8], spot: Spot, k: usize) -> bool
    requires valid { Valid block.now }
    requires playable { Playable block.now row × Listed block.now row ways.now × (length board.now ≡ board_bytes) }
    requires state_bound { (spot.state < L.states block.now) × (spot.place < row.places) × (k < count_in ways.now spot.state true) }
    ensures { Decides (Stays block.now row ways.now board.now spot.state spot.place k) result }
{
    match landing::lands(block, row, ways, spot, k) {
        Some(y) => !fires::fires(
            false,
            board::to_at(board, spot.state, k),
            board::won_at(board, y),
        ),
        None => false,
    }
}

// The first such move from `from` on.
pub fn first_staying(
    block: &[u8],
    row: Row,
    ways: &[u8],
    board: &[u8],
    spot: Spot,
    from: usize,
) -> Option<usize>
    requires valid { Valid block.now }
    requires playable { Playable block.now row × Listed block.now row ways.now × (length board.now ≡ board_bytes) }
    requires state_bound { (spot.state < L.states block.now) × (spot.place < row.places) × (from ≤ count_in ways.now spot.state true) }
    ensures { FirstStaying block.now row ways.now board.now spot.state spot.place from result }
{
    // a loop and no find: no proof was found that the closure stays as it is from call to call
    let n = lines::count(ways, spot.state, true);
    for k in from..n {
        if stays(block, row, ways, board, spot, k) {
            return Some(k);
        }
    }
    None
}
