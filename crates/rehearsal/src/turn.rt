// One turn of a rehearsal.
ghost use Rattle.std.specs.Prelude.{◌<◌};
ghost use Rattle.block.specs.Layout as L;
ghost use Rattle.game.specs.Position.{Position};
ghost use Rattle.game.specs.Play.{CoalitionWins};
ghost use Rattle.game.specs.Model.{arena_of, objective_of};
ghost use Rattle.ways.specs.Places.{PlacedAt};
ghost use Rattle.solver.specs.Inner.Ready.{MadeReady};
ghost use Rattle.rehearsal.specs.Inner.Turns.{Turned};

use block::layout;
use choice::replies;
use lookup::spots;
use solver::ready::Ready;
use ways::lines;
use ways::rows::Spot;

// The team's move at a position that it wins and the reply r: where they lead, or that r is no reply there.
pub fn take_turn(
    block: &[u8],
    i: usize,
    ready: Ready,
    ways: &[u8],
    ranks: &[u8],
    spot: Spot,
    r: usize,
) -> Option<Spot>
    requires made_ready { MadeReady block.now i ready ways.now ranks.now }
    requires state_bound { (spot.state < L.states block.now) × (spot.place < ready.row.places) }
    ensures { (p : Position) → PlacedAt (arena_of block.now i) spot.state spot.place p → CoalitionWins (arena_of block.now i) (objective_of block.now i) p → Turned (arena_of block.now i) (objective_of block.now i) p r result }
{
    lines::find(ways, spot.state, false, r)?;
    let m = usize::from(spots::spot_move(block, i, ready, ways, ranks, spot));
    let y = replies::way_to(block, ready.row, ways, spot, m)?; // the team's move is always paid
    Some(Spot {
        state: layout::next(block, spot.state, m + r),
        place: y,
    })
}
