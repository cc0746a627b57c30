// The go lines of a state.
ghost use Rattle.std.specs.Prelude.{cond, ◌≡◌, ◌≤◌, ◌<◌, length, drop};
ghost use Rattle.block.specs.Layout.{Block, block_bytes, max_states, max_agents, max_joint};
ghost use Rattle.text.specs.Format.{Format, read};
ghost use Rattle.text.specs.Job as J;
ghost use Rattle.scan.specs.Inner.Step.{resume, Inside, Fitting};

use block::joint::digit;
use block::layout;
use block::layout::Place;
use block::refusal::Refusal;
use scan::fields::{field, index, word};
use scan::step::{Range, Stop};
use text::ends::next_end;
use text::joint::possible;
use text::sizes::{Edition, Sizes};

// The actions of a joint action, one for each agent.
fn joint_fields(text: &[u8], at: usize, joint: usize, agents: usize) -> Result<usize, Stop>
    requires { (at ≤ length text.now) × (agents ≤ max_agents) }
    ensures b_value { (f : Format) (b : Block) → read (J.joint_fields joint agents 0 f) b (drop at text.now) ≡ resume text.now result (read f b) }
    ensures inside { Inside text.now result }
{
    let mut next = at;
    for a in 0..agents {
        next = index(text, next, digit(joint, a))?;
    }
    Ok(next)
}

// go,s,
fn go_word(text: &[u8], at: usize, s: usize) -> Result<usize, Stop>
    requires { (at ≤ length text.now) × (s < max_states) }
    ensures b_value { (f : Format) (b : Block) → read (J.go_word s f) b (drop at text.now) ≡ resume text.now result (read f b) }
    ensures inside { Inside text.now result }
{
    let named = word(text, at, b"go,")?;
    index(text, named, s)
}

// The beginning of a joint action's line, where it has one.
fn go_actions(text: &[u8], at: usize, z: Sizes, s: usize, joint: usize) -> Result<usize, Stop>
    requires { (at ≤ length text.now) × Fitting z × (s < max_states) }
    ensures b_value { (f : Format) (b : Block) → read (J.go_actions z s joint f) b (drop at text.now) ≡ resume text.now result (read f b) }
    ensures inside { Inside text.now result }
{
    match z.edition {
        Edition::First => joint_fields(text, go_word(text, at, s)?, joint, z.agents),
        Edition::Second => Ok(at),
    }
}

// The beginning of the state's line, where it has one.
fn go_state(text: &[u8], at: usize, z: Sizes, s: usize) -> Result<usize, Stop>
    requires { (at ≤ length text.now) × (s < max_states) }
    ensures b_value { (f : Format) (b : Block) → read (J.go_state z s f) b (drop at text.now) ≡ resume text.now result (read f b) }
    ensures inside { Inside text.now result }
{
    match z.edition {
        Edition::First => Ok(at),
        Edition::Second => go_word(text, at, s),
    }
}

// The next state of a joint action.
fn next_field(
    text: &[u8],
    at: usize,
    job: &mut [u8],
    z: Sizes,
    s: usize,
    counts: [usize; layout::MAX_AGENTS],
    joint: usize,
) -> Result<usize, Stop>
    requires inside { (at ≤ length text.now) × (length job.old ≡ block_bytes) }
    requires fitting { Fitting z × ((s < max_states) × (joint < max_joint)) }
    ensures job_value { (f : Format) → read (J.next_field z s counts joint f) job.old (drop at text.now) ≡ resume text.now result (read f job.new) }
    ensures inside_2 { Inside text.now result }
{
    let acted = go_actions(text, at, z, s, joint)?;
    let range = Range {
        sep: usize::from(next_end(z.edition, counts, joint)),
        low: 0,
        limit: z.states,
        refusal: Refusal::Next,
    };
    let state = field(text, acted, job, Place::Next(s, joint), range)?;
    Ok(state.next)
}

// The next states of a state.
pub fn gos(
    text: &[u8],
    at: usize,
    job: &mut [u8],
    z: Sizes,
    s: usize,
    counts: [usize; layout::MAX_AGENTS],
) -> Result<usize, Stop>
    requires inside { (at ≤ length text.now) × (length job.old ≡ block_bytes) }
    requires fitting { Fitting z × (s < max_states) }
    ensures job_value { (f : Format) → read (J.go_state z s (J.next_fields z s counts max_joint 0 f)) job.old (drop at text.now) ≡ resume text.now result (read f job.new) }
    ensures inside_2 { Inside text.now result }
{
    let mut next = go_state(text, at, z, s)?;
    for joint in 0..layout::JOINT_ACTIONS {
        if possible(counts, joint) {
            next = next_field(text, next, job, z, s, counts, joint)?;
        }
    }
    Ok(next)
}
