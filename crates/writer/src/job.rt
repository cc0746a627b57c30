// The text of a block.
ghost use Rattle.std.specs.Prelude.{◌≡◌, ◌≤◌, length, take};
ghost use Rattle.block.specs.Layout as L;
ghost use Rattle.block.specs.Inner.Valid.{Valid};
ghost use Rattle.text.specs.Inner.Adding.{Within};
ghost use Rattle.text.specs.Inner.Fields.{kinds_to};
ghost use Rattle.text.specs.Job as J;
ghost use Rattle.text.specs.Text.{text_bytes, text_of};
ghost use Rattle.writer.specs.Inner.Lengths.{resources_bytes, header_line_bytes};
ghost use Rattle.text.specs.declared.sizes.Edition.TheVariants as Edition;
ghost use Rattle.writer.specs.Inner.Writing.{PastWith, Room, written_sizes};

use crate::output::{number, resource};
use crate::rows::row_lines;
use crate::states::states;
use block::layout;
use text::ends::list_end;
use text::output::Output;

// The kinds of the resources.
fn resource_fields(block: &[u8], out: &mut Output)
    requires { Valid block.now × Room out.old resources_bytes }
    ensures past { PastWith block.now (J.resource_fields Edition.Second (L.resources block.now) 0 J.no_kinds) (kinds_to block.now (L.resources block.now)) out.old out.new }
    ensures within { Within resources_bytes out.old out.new }
{
    let resources = layout::resources(block);
    for j in 0..resources {
        let kind = layout::resource_kind(block, j);
        resource(out, kind, list_end(resources - (j + 1)));
    }
}

// job2,N,R,M,P,F and the kinds
fn header_line(block: &[u8], out: &mut Output)
    requires { Valid block.now × Room out.old header_line_bytes }
    ensures past { PastWith block.now (J.header_line Edition.Second) (written_sizes block.now) out.old out.new }
    ensures within { Within header_line_bytes out.old out.new }
{
    out.word(b"job2,");
    number(out, layout::agents(block), b',');
    number(out, layout::resources(block), b',');
    number(out, layout::states(block), b',');
    number(out, layout::propositions(block), b',');
    number(out, layout::rows(block), b',');
    resource_fields(block, out);
}

// The whole text, from the front of the buffer.
pub fn job(block: &[u8], text: &mut [u8]) -> usize
    requires { Valid block.now × (length text.old ≡ text_bytes) }
    ensures { (take result text.new ≡ text_of block.now) × (result ≤ text_bytes) }
{
    let mut out = Output::new(text);
    header_line(block, &mut out);
    states(block, &mut out);
    row_lines(block, &mut out);
    out.len()
}
