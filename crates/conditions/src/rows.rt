// Number 5: the rows.
ghost use Rattle.std.specs.Prelude.{◌<◌};
ghost use Rattle.block.specs.Decide.{Some};
ghost use Rattle.block.specs.Inner.Tests.{Decides};
ghost use Rattle.block.specs.Layout.{max_rows, max_resources, resources, rows};
ghost use Rattle.block.specs.Check.{BadBound, BadOperands, BadTeam, BadRow};
ghost use Rattle.block.specs.Inner.Valid.{Sized};

use crate::bits::bit_from;
use block::kinds::{binary, strategic};
use block::layout;

fn bound_bad(block: &[u8], i: usize, j: usize) -> bool
    requires sized { Sized block.now }
    requires i_lt_max_rows { (i < max_rows) × (j < max_resources) }
    ensures { Decides (BadBound block.now i j) result }
{
    let n = layout::bound(block, i, j);
    layout::MAX_UNITS < n && n != layout::UNLIMITED
}

fn bounds_bad(block: &[u8], i: usize) -> bool
    requires sized { Sized block.now }
    requires i_lt_max_rows { i < max_rows }
    ensures { Decides (Some (resources block.now) (BadBound block.now i)) result }
{
    (0..layout::resources(block)).any(|j| bound_bad(block, i, j))
}

// The fields that only strategic rows have.
fn team_bad(block: &[u8], i: usize) -> bool
    requires sized { Sized block.now }
    requires i_lt_max_rows { i < max_rows }
    ensures { Decides (BadTeam block.now i) result }
{
    let t = layout::team(block, i);
    t == 0 || bit_from(t, layout::agents(block)) || bounds_bad(block, i)
}

// The proposition or the rows that row i names.
fn operands_bad(block: &[u8], i: usize) -> bool
    requires sized { Sized block.now }
    requires i_lt_max_rows { i < max_rows }
    ensures { Decides (BadOperands block.now i) result }
{
    let k = layout::kind(block, i);
    let l = layout::left(block, i);
    if k == layout::PROP_KIND {
        layout::propositions(block) <= l
    } else {
        i <= l || (binary(k) && i <= layout::right(block, i))
    }
}

fn row_bad(block: &[u8], i: usize) -> bool
    requires sized { Sized block.now }
    requires i_lt_max_rows { i < max_rows }
    ensures { Decides (BadRow block.now i) result }
{
    let k = layout::kind(block, i);
    layout::UNTIL_KIND < k || operands_bad(block, i) || (strategic(k) && team_bad(block, i))
}

pub fn bad(block: &[u8]) -> bool
    requires { Sized block.now }
    ensures { Decides (Some (rows block.now) (BadRow block.now)) result }
{
    (0..layout::rows(block)).any(|i| row_bad(block, i))
}
