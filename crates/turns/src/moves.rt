// Moves of a coalition: which numbers they have, and what a move costs.
ghost use Rattle.std.specs.Prelude.{◌≡◌, ℕ, ◌*◌, ◌^◌, ◌≤◌, ◌<◌, ◌+ℤ◌};
ghost use Rattle.std.proofs.Math.IntN.{sub_ℕ};
ghost use Rattle.std.specs.Int.{w32};
ghost use Rattle.std.proofs.Common.{SFits};
ghost use Rattle.block.specs.Inner.Tests.{Decides};
ghost use Rattle.block.specs.Layout.{max_agents, max_actions, max_units, max_joint, rows, states, resources, agents, kind, Strategic, sum_kind, digit};
ghost use Rattle.block.specs.Inner.Valid.{Valid};
ghost use Rattle.game.specs.Rbatl.{move_cost, move_charge};
ghost use Rattle.game.specs.Position.{MoveOf};
ghost use Rattle.game.specs.Model.{bit, structure_of};
ghost use Rattle.turns.specs.Inner.Costs.{combined_cost};
ghost use Rattle.parts.specs.Inner.Table.{PartsTable};
ghost use Rattle.turns.specs.Inner.Rules.{ReplyTo, SideMove};

use block::{joint, layout};
use parts::Table;

// The mask of all agents.
const ALL_AGENTS: usize = parts::TEAMS - 1;

// What the costs of two agents come to in a resource of this kind: their sum, or the larger.
fn combined(kind: usize, x: i32, y: i32) -> i32
    requires { kind ≡ sum_kind → SFits w32 (x +ℤ y) }
    ensures { result ≡ combined_cost kind x y }
{
    if kind == layout::SUM_KIND {
        x + y
    } else {
        x.max(y)
    }
}

// What the move m of a team costs of resource j in state s: the costs of the team's agents, combined; less than nothing where it gives.
pub fn cost(block: &[u8], s: usize, team: usize, m: usize, j: usize) -> i32
    requires valid { Valid block.now }
    requires s_bound { (s < states block.now) × (j < resources block.now) }
    requires move_of { MoveOf (structure_of block.now) (bit team) s m }
    ensures value { result ≡ sub_ℕ (move_cost (structure_of block.now) (bit team) s (digit m) j) (move_charge (structure_of block.now) (bit team) s (digit m) j) }
    ensures j_bound { (move_cost (structure_of block.now) (bit team) s (digit m) j ≤ max_agents * max_units) × (move_charge (structure_of block.now) (bit team) s (digit m) j ≤ max_agents * max_units) }
{
    let kind = layout::resource_kind(block, j);
    let n = layout::agents(block);
    let mut total = 0i32;
    let mut rest = team;
    let mut k = m;
    for a in 0..n {
        if rest % 2 == 1 {
            total = combined(kind, total, layout::cost(block, s, a, k % 4, j));
        }
        rest /= 2;
        k /= 4;
    }
    total
}

// How many joint actions have a number: four to the number of agents.
pub fn joint_actions(block: &[u8]) -> usize
    requires { Valid block.now }
    ensures { (result ≡ max_actions ^ agents block.now) × (result ≤ max_joint) }
{
    1 << (2 * layout::agents(block))
}

// Whether m is the number of a move of a team in state s: it is the team's part of itself, and a joint action that can be done there.
pub fn is_move(block: &[u8], parts: &Table, s: usize, team: usize, m: usize) -> bool
    requires valid { Valid block.now }
    requires s_bound { s < states block.now }
    requires parts_table { PartsTable parts.now }
    ensures { Decides (MoveOf (structure_of block.now) (bit team) s m) result }
{
    m < layout::JOINT_ACTIONS && parts::part(parts, team, m) == m && joint::available(block, s, m)
}

// Whether r is a reply to row i's team in state s.
pub fn is_reply(block: &[u8], parts: &Table, i: usize, s: usize, r: usize) -> bool
    requires valid { Valid block.now }
    requires i_bound { (i < rows block.now) × Strategic (kind block.now i) × (s < states block.now) }
    requires parts_table { PartsTable parts.now }
    ensures { Decides (ReplyTo block.now i s r) result }
{
    is_move(block, parts, s, ALL_AGENTS - layout::team(block, i), r)
}

// A number past those of row i's moves where ours, and else of the replies: one more than the side's part of the largest joint action.
pub fn numbers(block: &[u8], parts: &Table, i: usize, ours: bool) -> usize
    requires valid { Valid block.now }
    requires i_bound { (i < rows block.now) × Strategic (kind block.now i) }
    requires parts_table { PartsTable parts.now }
    ensures { (result ≤ max_joint) × ((s m : ℕ) → s < states block.now → SideMove block.now i ours s m → m < result) }
{
    let team = layout::team(block, i);
    let side = if ours { team } else { ALL_AGENTS - team };
    parts::part(parts, side, joint_actions(block) - 1) + 1
}
