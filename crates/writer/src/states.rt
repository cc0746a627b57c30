// The lines of a state.
ghost use Rattle.std.specs.Prelude.{cond, ◌<◌};
ghost use Rattle.block.specs.Layout as L;
ghost use Rattle.block.specs.Layout.{max_states, max_joint};
ghost use Rattle.block.specs.Inner.Valid.{Valid};
ghost use Rattle.text.specs.Inner.Adding.{Within};
ghost use Rattle.text.specs.Job as J;
ghost use Rattle.writer.specs.Inner.Lengths.{field_bytes, go_line_bytes, state_line_bytes, state_lines_bytes, states_bytes};
ghost use Rattle.writer.specs.Inner.Writing.{Past, Room, written_sizes};

use crate::agents::{agent_lines, counts};
use crate::output::number;
use block::layout;
use text::ends::next_end;
use text::joint::possible;
use text::output::Output;
use text::sizes::Edition;

// state,s,mask
fn state_line(block: &[u8], out: &mut Output, s: usize)
    requires valid { Valid block.now × Room out.old state_line_bytes }
    requires s_lt_max_states { s < max_states }
    ensures past { Past block.now (J.state_line (written_sizes block.now) s) out.old out.new }
    ensures within { Within state_line_bytes out.old out.new }
{
    out.word(b"state,");
    number(out, s, b',');
    number(out, layout::mask(block, s), b'\n');
}

// The next state of a joint action that can be done with these counts.
fn next_field_if(
    block: &[u8],
    out: &mut Output,
    s: usize,
    counts: [usize; layout::MAX_AGENTS],
    joint: usize,
)
    requires valid { Valid block.now × Room out.old field_bytes }
    requires s_lt_max_states { (s < max_states) × (joint < max_joint) }
    ensures past { Past block.now (λ f. cond (J.possible counts joint) (J.next_field (written_sizes block.now) s counts joint f) f) out.old out.new }
    ensures within { Within field_bytes out.old out.new }
{
    if possible(counts, joint) {
        let sep = next_end(Edition::Second, counts, joint);
        number(out, layout::next(block, s, joint), sep);
    }
}

// go,s, and the next states.
fn go_line(block: &[u8], out: &mut Output, s: usize, counts: [usize; layout::MAX_AGENTS])
    requires valid { Valid block.now × Room out.old go_line_bytes }
    requires s_lt_max_states { s < max_states }
    ensures past { Past block.now (λ f. J.go_state (written_sizes block.now) s (J.next_fields (written_sizes block.now) s counts max_joint 0 f)) out.old out.new }
    ensures within { Within go_line_bytes out.old out.new }
{
    out.word(b"go,");
    number(out, s, b',');
    for joint in 0..layout::JOINT_ACTIONS {
        next_field_if(block, out, s, counts, joint);
    }
}

fn state_lines(block: &[u8], out: &mut Output, s: usize)
    requires valid { Valid block.now × Room out.old state_lines_bytes }
    requires s_bound { s < L.states block.now }
    ensures past { Past block.now (J.state_lines (written_sizes block.now) s) out.old out.new }
    ensures within { Within state_lines_bytes out.old out.new }
{
    state_line(block, out, s);
    agent_lines(block, out, s);
    go_line(block, out, s, counts(block, s));
}

// The lines of all states.
pub fn states(block: &[u8], out: &mut Output)
    requires { Valid block.now × Room out.old states_bytes }
    ensures past { Past block.now (J.states (written_sizes block.now) (L.states block.now) 0) out.old out.new }
    ensures within { Within states_bytes out.old out.new }
{
    let states = layout::states(block);
    for s in 0..states {
        state_lines(block, out, s);
    }
}
