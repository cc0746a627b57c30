// Number 13: charges on max resources; and charges on resources of either kind.
#![tactic(auto)]

ghost use Rattle.std.specs.Prelude.{◌≡◌, ℕ, ◌<◌};
ghost use Rattle.block.specs.Decide.{Some};
ghost use Rattle.block.specs.Inner.Tests.{Decides};
ghost use Rattle.block.specs.Layout.{max_states, max_agents, max_actions, max_resources, resources, agents, states, count, resource_kind};
ghost use Rattle.block.specs.Check.{ChargeOn, ActionsOn, ChargesOn, BadCharges};
ghost use Rattle.block.specs.Inner.Valid.{Sized, Counted};

use block::layout;

fn charge_on(block: &[u8], kind: usize, s: usize, a: usize, k: usize, j: usize) -> bool
    requires sized { Sized block.now }
    requires s_lt_max_states { (s < max_states) × (a < max_agents) × (k < max_actions) × (j < max_resources) }
    ensures { Decides (ChargeOn kind block.now s a k j) result }
{
    layout::resource_kind(block, j) == kind
        && layout::CHARGE_BYTE <= layout::cost_byte(block, s, a, k, j)
}

fn action_on(block: &[u8], kind: usize, s: usize, a: usize, k: usize) -> bool
    requires sized { Sized block.now }
    requires s_lt_max_states { (s < max_states) × (a < max_agents) × (k < max_actions) }
    ensures { Decides (Some (resources block.now) (ChargeOn kind block.now s a k)) result }
{
    (0..layout::resources(block)).any(|j| charge_on(block, kind, s, a, k, j))
}

fn actions_on(block: &[u8], kind: usize, s: usize, a: usize) -> bool
    requires sized { Sized block.now × Counted block.now }
    requires s_bound { (s < states block.now) × (a < agents block.now) }
    ensures { Decides (ActionsOn kind block.now s a) result }
{
    (0..layout::count(block, s, a)).any(|k| action_on(block, kind, s, a, k))
}

fn state_on(block: &[u8], kind: usize, s: usize) -> bool
    requires sized { Sized block.now × Counted block.now }
    requires s_bound { s < states block.now }
    ensures { Decides (ChargesOn kind block.now s) result }
{
    (0..layout::agents(block)).any(|a| actions_on(block, kind, s, a))
}

pub fn any(block: &[u8], kind: usize) -> bool
    requires { Sized block.now × Counted block.now }
    ensures { Decides (Some (states block.now) (ChargesOn kind block.now)) result }
{
    (0..layout::states(block)).any(|s| state_on(block, kind, s))
}

// Whether a resource is of this kind.
fn has_kind(block: &[u8], kind: usize) -> bool
    requires { Sized block.now }
    ensures { Decides (Some (resources block.now) (λ (j : ℕ). resource_kind block.now j ≡ kind)) result }
{
    (0..layout::resources(block)).any(|j| layout::resource_kind(block, j) == kind)
}

// Few jobs have a max resource, and only in those is there anything to look for.
pub fn bad(block: &[u8]) -> bool
    requires { Sized block.now × Counted block.now }
    ensures { Decides (Some (states block.now) (BadCharges block.now)) result }
{
    has_kind(block, layout::MAX_KIND) && any(block, layout::MAX_KIND)
}
