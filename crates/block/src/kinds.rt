// The kinds of rows.
ghost use Rattle.block.specs.Inner.Tests.{Decides};
ghost use Rattle.block.specs.Layout.{Strategic, Binary};

use crate::layout;

// Whether a row of kind k has a right row.
pub fn binary(k: usize) -> bool
    ensures { Decides (Binary k) result }
{
    k == layout::OR_KIND || k == layout::UNTIL_KIND
}

// Whether it has a team and bounds.
pub fn strategic(k: usize) -> bool
    ensures { Decides (Strategic k) result }
{
    layout::NEXT_KIND <= k && k <= layout::UNTIL_KIND
}
