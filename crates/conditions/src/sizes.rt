// Number 2: the sizes in the header, and the kinds of the resources.
ghost use Rattle.std.specs.Prelude.{◌≡◌, ◌≤◌, ◌<◌, length};
ghost use Rattle.block.specs.Decide.{Some, Outside};
ghost use Rattle.block.specs.Inner.Tests.{Decides};
ghost use Rattle.block.specs.Layout.{block_bytes, max_resources, max_kind, resources, resource_kind};
ghost use Rattle.block.specs.Check.{BadSizes};

use block::layout;

// Whether n is not from 1 to high.
pub fn outside(n: usize, high: usize) -> bool
    ensures { Decides (Outside 1 high n) result }
{
    n < 1 || high < n
}

// Whether the kind of some resource is neither sum nor max.
fn kinds_bad(block: &[u8]) -> bool
    requires { (length block.now ≡ block_bytes) × (resources block.now ≤ max_resources) }
    ensures { Decides (Some (resources block.now) (λ j. max_kind < resource_kind block.now j)) result }
{
    (0..layout::resources(block)).any(|j| layout::MAX_KIND < layout::resource_kind(block, j))
}

pub fn bad(block: &[u8]) -> bool
    requires { length block.now ≡ block_bytes }
    ensures { Decides (BadSizes block.now) result }
{
    outside(layout::agents(block), layout::MAX_AGENTS)
        || outside(layout::resources(block), layout::MAX_RESOURCES)
        || outside(layout::states(block), layout::MAX_STATES)
        || outside(layout::propositions(block), layout::MAX_PROPOSITIONS)
        || outside(layout::rows(block), layout::MAX_ROWS)
        || kinds_bad(block)
}
