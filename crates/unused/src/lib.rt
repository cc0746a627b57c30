// Number 6: unused places.
#![tactic(auto)]

ghost use Rattle.std.specs.Prelude.{◌≡◌, ◌<◌};
ghost use Rattle.block.specs.Decide.{Some};
ghost use Rattle.block.specs.Inner.Tests.{Decides};
ghost use Rattle.block.specs.Layout.{block_bytes, max_joint, InUse, UsesField};
ghost use Rattle.block.specs.Inner.Places.{InLayout};
ghost use Rattle.block.specs.Check.{BadPlace};
ghost use Rattle.block.specs.Inner.Valid.{Sized, Counted};

use block::joint::available;
use block::kinds::{binary, strategic};
use block::layout;
use block::layout::Place;

// Whether a row of kind k uses field f.
fn uses_field(block: &[u8], k: usize, f: usize) -> bool
    requires { Sized block.now }
    ensures { Decides (UsesField block.now k f) result }
{
    if f <= layout::LEFT_BYTE {
        true
    } else if f == layout::RIGHT_BYTE {
        binary(k)
    } else {
        strategic(k) && f < layout::BOUND_BYTE + layout::resources(block)
    }
}

fn agent_in_use(block: &[u8], s: usize, a: usize) -> bool
    requires { Sized block.now }
    ensures { Decides (InUse block.now (Place.Count s a)) result }
{
    s < layout::states(block) && a < layout::agents(block)
}

fn cost_in_use(block: &[u8], s: usize, a: usize, k: usize, j: usize) -> bool
    requires { Sized block.now }
    ensures { Decides (InUse block.now (Place.Cost s a k j)) result }
{
    agent_in_use(block, s, a) && k < layout::count(block, s, a) && j < layout::resources(block)
}

fn next_in_use(block: &[u8], s: usize, joint: usize) -> bool
    requires sized { Sized block.now }
    requires joint_lt_max_joint { joint < max_joint }
    ensures { Decides (InUse block.now (Place.Next s joint)) result }
{
    s < layout::states(block) && available(block, s, joint)
}

fn field_in_use(block: &[u8], i: usize, f: usize) -> bool
    requires { Sized block.now }
    ensures { Decides (InUse block.now (Place.Field i f)) result }
{
    i < layout::rows(block) && uses_field(block, layout::kind(block, i), f)
}

fn in_use(block: &[u8], x: Place) -> bool
    requires sized { Sized block.now }
    requires in_layout { InLayout x }
    ensures { Decides (InUse block.now x) result }
{
    match x {
        Place::Header(_) => true,
        Place::Mask(s) => s < layout::states(block),
        Place::Count(s, a) => agent_in_use(block, s, a),
        Place::Cost(s, a, k, j) => cost_in_use(block, s, a, k, j),
        Place::Next(s, joint) => next_in_use(block, s, joint),
        Place::Field(i, f) => field_in_use(block, i, f),
        Place::ResourceKind(j) => j < layout::resources(block),
    }
}

fn place_bad(block: &[u8], p: usize) -> bool
    requires sized { Sized block.now × Counted block.now }
    requires p_lt_block_bytes { p < block_bytes }
    ensures { Decides (BadPlace block.now p) result }
{
    layout::byte_at(block, p) != 0 && !in_use(block, layout::place_at(p))
}

pub fn bad(block: &[u8]) -> bool
    requires { Sized block.now × Counted block.now }
    ensures { Decides (Some block_bytes (BadPlace block.now)) result }
{
    (0..layout::BLOCK_BYTES).any(|p| place_bad(block, p))
}
