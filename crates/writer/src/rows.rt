// The lines of the rows.
ghost use Rattle.std.specs.Prelude.{◌<◌};
ghost use Rattle.block.specs.Layout as L;
ghost use Rattle.block.specs.Layout.{max_rows};
ghost use Rattle.block.specs.Inner.Valid.{Valid};
ghost use Rattle.text.specs.Inner.Adding.{Within};
ghost use Rattle.text.specs.Job as J;
ghost use Rattle.writer.specs.Inner.Lengths.{bounds_bytes, team_bytes, operands_bytes, row_line_bytes, row_lines_bytes};
ghost use Rattle.writer.specs.Inner.Writing.{Past, Room, written_sizes};

use crate::output;
use crate::output::number;
use block::kinds::{binary, strategic};
use block::layout;
use text::output::Output;

// The bounds of row i.
fn bounds(block: &[u8], out: &mut Output, i: usize)
    requires valid { Valid block.now × Room out.old bounds_bytes }
    requires i_lt_max_rows { i < max_rows }
    ensures past { Past block.now (J.bound_fields i (L.resources block.now) 0) out.old out.new }
    ensures within { Within bounds_bytes out.old out.new }
{
    let resources = layout::resources(block);
    for j in 0..resources {
        output::bound(out, layout::bound(block, i, j));
    }
}

// The team and the bounds, where the kind has them.
fn team_fields(block: &[u8], out: &mut Output, i: usize, k: usize)
    requires valid { Valid block.now × Room out.old team_bytes }
    requires i_lt_max_rows { i < max_rows }
    ensures past { Past block.now (J.team_fields (written_sizes block.now) i k) out.old out.new }
    ensures within { Within team_bytes out.old out.new }
{
    if strategic(k) {
        number(out, layout::team(block, i), b',');
        bounds(block, out, i);
    }
}

// The proposition or lower row, and the right row where the kind has one.
fn operand_fields(block: &[u8], out: &mut Output, i: usize, k: usize)
    requires valid { Valid block.now × Room out.old operands_bytes }
    requires i_lt_max_rows { i < max_rows }
    ensures past { Past block.now (J.operand_fields (written_sizes block.now) i k) out.old out.new }
    ensures within { Within operands_bytes out.old out.new }
{
    let left = layout::left(block, i);
    if binary(k) {
        number(out, left, b',');
        number(out, layout::right(block, i), b'\n');
    } else {
        number(out, left, b'\n');
    }
}

// A row: its word, team and bounds, operands.
fn row_line(block: &[u8], out: &mut Output, i: usize)
    requires valid { Valid block.now × Room out.old row_line_bytes }
    requires i_bound { i < L.rows block.now }
    ensures past { Past block.now (J.row_line (written_sizes block.now) i) out.old out.new }
    ensures within { Within row_line_bytes out.old out.new }
{
    let k = layout::kind(block, i);
    output::kind(out, k);
    team_fields(block, out, i, k);
    operand_fields(block, out, i, k);
}

// The lines of all rows.
pub fn row_lines(block: &[u8], out: &mut Output)
    requires { Valid block.now × Room out.old row_lines_bytes }
    ensures past { Past block.now (J.row_lines (written_sizes block.now) (L.rows block.now) 0) out.old out.new }
    ensures within { Within row_lines_bytes out.old out.new }
{
    let rows = layout::rows(block);
    for i in 0..rows {
        row_line(block, out, i);
    }
}
