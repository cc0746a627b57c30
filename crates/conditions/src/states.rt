// Number 3: masks, counts and costs.
ghost use Rattle.std.specs.Prelude.{◌≡◌, ◌<◌};
ghost use Rattle.block.specs.Decide.{Some};
ghost use Rattle.block.specs.Inner.Tests.{Decides};
ghost use Rattle.block.specs.Layout.{max_states, max_agents, max_actions, max_resources, resources, agents, states, count};
ghost use Rattle.block.specs.Check.{BadCost, BadActions, BadState};
ghost use Rattle.block.specs.Inner.Valid.{Sized};

use crate::bits::bit_from;
use crate::sizes::outside;
use block::layout;

fn cost_bad(block: &[u8], s: usize, a: usize, k: usize, j: usize) -> bool
    requires sized { Sized block.now }
    requires s_lt_max_states { (s < max_states) × (a < max_agents) × (k < max_actions) × (j < max_resources) }
    ensures { Decides (BadCost block.now s a k j) result }
{
    let c = layout::cost_byte(block, s, a, k, j);
    if k == 0 {
        0 < c
    } else {
        layout::MAX_UNITS < c && c < layout::CHARGE_BYTE
    }
}

fn action_bad(block: &[u8], s: usize, a: usize, k: usize) -> bool
    requires sized { Sized block.now }
    requires s_lt_max_states { (s < max_states) × (a < max_agents) × (k < max_actions) }
    ensures { Decides (Some (resources block.now) (BadCost block.now s a k)) result }
{
    (0..layout::resources(block)).any(|j| cost_bad(block, s, a, k, j))
}

fn actions_bad(block: &[u8], s: usize, a: usize) -> bool
    requires sized { Sized block.now }
    requires s_lt_max_states { (s < max_states) × (a < max_agents) }
    ensures { Decides (BadActions block.now s a) result }
{
    let n = layout::count(block, s, a);
    outside(n, layout::MAX_ACTIONS) || (0..n).any(|k| action_bad(block, s, a, k))
}

fn agents_bad(block: &[u8], s: usize) -> bool
    requires sized { Sized block.now }
    requires s_lt_max_states { s < max_states }
    ensures { Decides (Some (agents block.now) (BadActions block.now s)) result }
{
    (0..layout::agents(block)).any(|a| actions_bad(block, s, a))
}

fn state_bad(block: &[u8], s: usize) -> bool
    requires sized { Sized block.now }
    requires s_lt_max_states { s < max_states }
    ensures { Decides (BadState block.now s) result }
{
    bit_from(layout::mask(block, s), layout::propositions(block)) || agents_bad(block, s)
}

pub fn bad(block: &[u8]) -> bool
    requires { Sized block.now }
    ensures { Decides (Some (states block.now) (BadState block.now)) result }
{
    (0..layout::states(block)).any(|s| state_bad(block, s))
}
