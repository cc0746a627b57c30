// Joint actions: the action of each agent, and whether they can be done in a state.
ghost use Rattle.std.specs.Prelude.{◌≡◌, ◌<◌};
ghost use Rattle.block.specs.Inner.Tests.{Decides};
ghost use Rattle.block.specs.Layout as L;
ghost use Rattle.block.specs.Layout.{max_states, max_agents, max_actions, max_joint, Acts, Available};
ghost use Rattle.block.specs.Inner.Valid.{Sized};

use crate::layout;

// The joint actions of two agents: what the third's digit counts.
const PAIRS: usize = layout::MAX_ACTIONS * layout::MAX_ACTIONS;

// Agent a's action in a joint action.
pub fn digit(joint: usize, a: usize) -> usize
    requires { a < max_agents }
    ensures { (result ≡ L.digit joint a) × (result < max_actions) }
{
    match a {
        0 => joint % layout::MAX_ACTIONS,
        1 => joint / layout::MAX_ACTIONS % layout::MAX_ACTIONS,
        _ => joint / PAIRS % layout::MAX_ACTIONS,
    }
}

// Whether agent a can do its action of a joint action in state s: that is 0 where there is no such agent.
fn acts(block: &[u8], s: usize, joint: usize, a: usize) -> bool
    requires sized { Sized block.now }
    requires s_lt_max_states { (s < max_states) × (a < max_agents) }
    ensures { Decides (Acts block.now s a (L.digit joint a)) result }
{
    let k = digit(joint, a);
    if a < layout::agents(block) {
        k < layout::count(block, s, a)
    } else {
        k == 0
    }
}

pub fn available(block: &[u8], s: usize, joint: usize) -> bool
    requires sized { Sized block.now }
    requires s_lt_max_states { (s < max_states) × (joint < max_joint) }
    ensures { Decides (Available block.now s joint) result }
{
    (0..layout::MAX_AGENTS).all(|a| acts(block, s, joint, a))
}
