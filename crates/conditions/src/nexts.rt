// Number 4: next states.
ghost use Rattle.std.specs.Prelude.{◌<◌};
ghost use Rattle.block.specs.Decide.{Some};
ghost use Rattle.block.specs.Inner.Tests.{Decides};
ghost use Rattle.block.specs.Layout.{max_states, max_joint, states};
ghost use Rattle.block.specs.Check.{BadNext};
ghost use Rattle.block.specs.Inner.Valid.{Sized};

use block::joint::available;
use block::layout;

fn next_bad(block: &[u8], s: usize, joint: usize) -> bool
    requires sized { Sized block.now }
    requires s_lt_max_states { (s < max_states) × (joint < max_joint) }
    ensures { Decides (BadNext block.now s joint) result }
{
    available(block, s, joint) && layout::states(block) <= layout::next(block, s, joint)
}

fn joints_bad(block: &[u8], s: usize) -> bool
    requires sized { Sized block.now }
    requires s_lt_max_states { s < max_states }
    ensures { Decides (Some max_joint (BadNext block.now s)) result }
{
    (0..layout::JOINT_ACTIONS).any(|joint| next_bad(block, s, joint))
}

pub fn bad(block: &[u8]) -> bool
    requires { Sized block.now }
    ensures { Decides (Some (states block.now) (λ s. Some max_joint (BadNext block.now s))) result }
{
    (0..layout::states(block)).any(|s| joints_bad(block, s))
}
