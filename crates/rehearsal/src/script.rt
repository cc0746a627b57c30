// A rehearsal by a script, from a state at full stock that the team wins.
ghost use Rattle.std.specs.Prelude.{◌<◌};
ghost use Rattle.block.specs.Inner.Tests.{Decides};
ghost use Rattle.block.specs.Layout as L;
ghost use Rattle.game.specs.Position.{full};
ghost use Rattle.game.specs.Play.{CoalitionWins};
ghost use Rattle.game.specs.Model.{arena_of, objective_of};
ghost use Rattle.turns.specs.Sizes.{set_bits};
ghost use Rattle.rankings.specs.Kinds.{kind_of};
ghost use Rattle.solver.specs.Inner.Ready.{MadeReady};
ghost use Rattle.rehearsal.specs.Inner.Turns.{FinishedBy, EndsAs};

use crate::turn;
use rankings::Goal;
use solver::ready::Ready;
use turns::{buffers, positions};
use ways::rows::Spot;

// After how many moves a rehearsal ends, whether it is finished, and where.
#[derive(Clone, Copy)]
pub struct Ended {
    pub moves: usize,
    pub finished: bool,
    pub last: Spot,
}

// Whether a row with this goal is finished in state q after n moves, with a script of so many bytes; right is the set of its right row.
fn is_finished(goal: Goal, right: usize, bytes: usize, q: usize, n: usize) -> bool
    requires { q < set_bits }
    ensures { Decides (FinishedBy (kind_of goal) right bytes q n) result }
{
    match goal {
        Goal::Next => n == 1,
        Goal::Always => n == bytes,
        Goal::Until => buffers::has_bit(right, q),
    }
}

// Plays from state s as far as the script goes or until the row is finished; None where a byte of the script is no reply. There are no more turns
// than the script has bytes.
pub fn play(
    block: &[u8],
    i: usize,
    ready: Ready,
    ways: &[u8],
    ranks: &[u8],
    s: usize,
    script: &[u8],
) -> Option<Ended>
    requires made_ready { MadeReady block.now i ready ways.now ranks.now }
    requires s_bound { (s < L.states block.now) × CoalitionWins (arena_of block.now i) (objective_of block.now i) (full (arena_of block.now i) s) }
    ensures { EndsAs (arena_of block.now i) (objective_of block.now i) script.now (full (arena_of block.now i) s) result }
{
    let goal = rankings::goal_of(block, i);
    let bytes = script.len();
    let mut spot = Spot {
        state: s,
        place: positions::full(block, i, 0),
    };
    for n in 0..bytes {
        if is_finished(goal, ready.right, bytes, spot.state, n) {
            return Some(Ended {
                moves: n,
                finished: true,
                last: spot,
            });
        }
        spot = turn::take_turn(block, i, ready, ways, ranks, spot, usize::from(script[n]))?;
    }
    let finished = is_finished(goal, ready.right, bytes, spot.state, bytes);
    Some(Ended {
        moves: bytes,
        finished: finished,
        last: spot,
    })
}
