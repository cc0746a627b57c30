// The acts lines of a state.
ghost use Rattle.std.specs.Prelude.{◌≡◌, ◌<◌};
ghost use Rattle.block.specs.Layout as L;
ghost use Rattle.block.specs.Layout.{max_states, max_agents, max_actions};
ghost use Rattle.block.specs.Inner.Valid.{Valid};
ghost use Rattle.text.specs.Inner.Adding.{Within};
ghost use Rattle.text.specs.Inner.Fields.{counts_to};
ghost use Rattle.text.specs.Job as J;
ghost use Rattle.writer.specs.Inner.Lengths.{costs_bytes, actions_bytes, acts_line_bytes, agent_lines_bytes};
ghost use Rattle.writer.specs.Inner.Writing.{Past, PastWith, Room, written_sizes};

use crate::output::{cost, number};
use block::layout;
use text::ends::list_end;
use text::output::Output;

// The costs of action k, which n further actions follow.
fn costs(block: &[u8], out: &mut Output, s: usize, a: usize, n: usize, k: usize)
    requires valid { Valid block.now × Room out.old costs_bytes }
    requires s_lt_max_states { (s < max_states) × ((a < max_agents) × ((k < max_actions) × (n < max_actions))) }
    ensures past { Past block.now (J.costs (written_sizes block.now) s a n k (L.resources block.now) 0) out.old out.new }
    ensures within { Within costs_bytes out.old out.new }
{
    let resources = layout::resources(block);
    for j in 0..resources {
        let sep = list_end(n + (resources - (j + 1)));
        cost(out, layout::cost_byte(block, s, a, k, j), sep);
    }
}

fn actions(block: &[u8], out: &mut Output, s: usize, a: usize)
    requires valid { Valid block.now × Room out.old actions_bytes }
    requires s_bound { (s < L.states block.now) × (a < L.agents block.now) }
    ensures past { Past block.now (J.actions (written_sizes block.now) s a (L.count block.now s a) 0) out.old out.new }
    ensures within { Within actions_bytes out.old out.new }
{
    let actions = layout::count(block, s, a);
    for k in 0..actions {
        costs(block, out, s, a, actions - (k + 1), k);
    }
}

// acts,s,a,count, and the costs.
fn acts_line(block: &[u8], out: &mut Output, s: usize, a: usize)
    requires valid { Valid block.now × Room out.old acts_line_bytes }
    requires s_bound { (s < L.states block.now) × (a < L.agents block.now) }
    ensures past { PastWith block.now (J.acts_line (written_sizes block.now) s a) (L.count block.now s a) out.old out.new }
    ensures within { Within acts_line_bytes out.old out.new }
{
    out.word(b"acts,");
    number(out, s, b',');
    number(out, a, b',');
    number(out, layout::count(block, s, a), b',');
    actions(block, out, s, a);
}

// The acts lines of all agents.
pub fn agent_lines(block: &[u8], out: &mut Output, s: usize)
    requires valid { Valid block.now × Room out.old agent_lines_bytes }
    requires s_bound { s < L.states block.now }
    ensures past { PastWith block.now (J.agent_lines (written_sizes block.now) s (L.agents block.now) 0 J.no_counts) (counts_to block.now s (L.agents block.now)) out.old out.new }
    ensures within { Within agent_lines_bytes out.old out.new }
{
    let agents = layout::agents(block);
    for a in 0..agents {
        acts_line(block, out, s, a);
    }
}

// How many actions each agent has in state s; one that does not exist has one.
pub fn counts(block: &[u8], s: usize) -> [usize; layout::MAX_AGENTS]
    requires { Valid block.now × (s < max_states) }
    ensures { result ≡ counts_to block.now s (L.agents block.now) }
{
    let agents = layout::agents(block);
    let mut counts = [1usize; layout::MAX_AGENTS];
    for a in 0..agents {
        counts[a] = layout::count(block, s, a);
    }
    counts
}
