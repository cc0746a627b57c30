// The opponents' reply to a move at a position: the smallest whose outcome they aim at.
ghost use Rattle.std.specs.Prelude.{◌≤◌, ◌<◌, length};
ghost use Rattle.block.specs.Layout as L;
ghost use Rattle.block.specs.Inner.Valid.{Valid};
ghost use Rattle.turns.specs.Sizes.{room_bytes};
ghost use Rattle.ways.specs.Landing.{Made};
ghost use Rattle.ways.specs.Listing.{Listed};
ghost use Rattle.ways.specs.Rows.{Playable};
ghost use Rattle.choice.specs.Choices.{Makes, FirstCounter, Replied};
ghost use Rattle.rankings.specs.Kinds.{ClaimsBy, kind_of};
ghost use Rattle.choice.specs.Tables.{RanksOf};

use crate::moves::Aim;
use block::layout;
use turns::buffers;
use ways::rows::{Row, Spot};
use ways::worst::Step;
use ways::{landing, lines};

// Where the number m lands, `None` where it is no move that matters to the row and that the position pays.
pub fn way_to(block: &[u8], row: Row, ways: &[u8], spot: Spot, m: usize) -> Option<usize>
    requires valid { Valid block.now }
    requires playable { Playable block.now row × Listed block.now row ways.now }
    requires state_bound { (spot.state < L.states block.now) × (spot.place < row.places) }
    ensures { Makes block.now row spot.state spot.place m result }
{
    let k = lines::find(ways, spot.state, true, m)?;
    landing::lands(block, row, ways, spot, k)
}

// The smallest reply that counters a move that is made, or 0 where none does.
fn find_reply(block: &[u8], row: Row, ways: &[u8], ranks: &[u8], step: Step, aim: Aim) -> usize
    requires valid { Valid block.now }
    requires playable { Playable block.now row × Listed block.now row ways.now × (room_bytes ≤ length ranks.now) }
    requires made { Made block.now row step.state step.number step.place }
    ensures { FirstCounter block.now row ranks.now (kind_of aim.goal) aim.own step.state step.number step.place result × (result < L.max_joint) }
{
    let c = row.places;
    let n = lines::count(ways, step.state, false);
    // a loop and no find: what is handed back is the reply, and not its index
    for k in 0..n {
        let r = lines::number(ways, step.state, false, k);
        let q = layout::next(block, step.state, step.number + r);
        let rank = buffers::rank_at(ranks, q * c + step.place);
        if rankings::counters(aim.goal, row.set, aim.own, q, rank) {
            return r;
        }
    }
    0
}

// The reply to a move that is made from a position of rank own that the coalition does not win: 0 where the row has failed already. The
// row's set is that of its left row, and right that of its right row.
pub fn reply_to(
    block: &[u8],
    row: Row,
    ways: &[u8],
    ranks: &[u8],
    step: Step,
    own: usize,
    right: usize,
) -> usize
    requires valid { Valid block.now }
    requires playable { Playable block.now row × Listed block.now row ways.now × (room_bytes ≤ length ranks.now) }
    requires made { Made block.now row step.state step.number step.place × RanksOf block.now row.index row.set right ranks.now }
    requires fact { ClaimsBy (L.kind block.now row.index) own → ⊥ }
    ensures { Replied block.now row right ranks.now own step.state step.number step.place result × (result < L.max_joint) }
{
    let goal = rankings::goal_of(block, row.index);
    if rankings::failed(goal, row.set, right, own, step.state) {
        return 0;
    }
    let aim = Aim {
        goal: goal,
        own: own,
    };
    find_reply(block, row, ways, ranks, step, aim)
}
