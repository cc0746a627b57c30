// The lines of the states.
ghost use Rattle.std.specs.Prelude.{◌≡◌, ◌<◌, length, ◌≤◌, drop};
ghost use Rattle.block.specs.Layout.{block_bytes, max_states, max_joint};
ghost use Rattle.text.specs.Format.{Format, read};
ghost use Rattle.text.specs.Job as J;
ghost use Rattle.scan.specs.Inner.Step.{resume, Inside, Fitting};

use crate::agents::acts;
use crate::gos::gos;
use block::layout;
use block::layout::Place;
use block::refusal::Refusal;
use scan::fields::{field, index, word};
use scan::step::{Range, Stop};
use text::LINE_END;
use text::sizes::{Sizes, masks};

fn state_line(text: &[u8], at: usize, job: &mut [u8], z: Sizes, s: usize) -> Result<usize, Stop>
    requires inside { (at ≤ length text.now) × (length job.old ≡ block_bytes) }
    requires fitting { Fitting z × (s < max_states) }
    ensures job_value { (f : Format) → read (J.state_line z s f) job.old (drop at text.now) ≡ resume text.now result (read f job.new) }
    ensures inside_2 { Inside text.now result }
{
    let named = word(text, at, b"state,")?;
    let state = index(text, named, s)?;
    let range = Range {
        sep: LINE_END,
        low: 0,
        limit: masks(z.propositions),
        refusal: Refusal::State,
    };
    let mask = field(text, state, job, Place::Mask(s), range)?;
    Ok(mask.next)
}

// The acts lines of the agents, then the go lines that their counts allow.
fn moves(text: &[u8], at: usize, job: &mut [u8], z: Sizes, s: usize) -> Result<usize, Stop>
    requires inside { (at ≤ length text.now) × (length job.old ≡ block_bytes) }
    requires fitting { Fitting z × (s < max_states) }
    ensures job_value { (f : Format) → read (J.agent_lines z s z.agents 0 J.no_counts (λ counts. J.go_state z s (J.next_fields z s counts max_joint 0 f))) job.old (drop at text.now)
        ≡ resume text.now result (read f job.new) }
    ensures inside_2 { Inside text.now result }
{
    let mut counts = [1usize; layout::MAX_AGENTS];
    let mut next = at;
    for a in 0..z.agents {
        let agent = acts(text, next, job, z, s, a)?;
        counts[a] = agent.value;
        next = agent.next;
    }
    gos(text, next, job, z, s, counts)
}

fn state_lines(text: &[u8], at: usize, job: &mut [u8], z: Sizes, s: usize) -> Result<usize, Stop>
    requires inside { (at ≤ length text.now) × (length job.old ≡ block_bytes) }
    requires fitting { Fitting z × (s < max_states) }
    ensures job_value { (f : Format) → read (J.state_lines z s f) job.old (drop at text.now) ≡ resume text.now result (read f job.new) }
    ensures inside_2 { Inside text.now result }
{
    let next = state_line(text, at, job, z, s)?;
    moves(text, next, job, z, s)
}

pub fn states(text: &[u8], at: usize, job: &mut [u8], z: Sizes) -> Result<usize, Stop>
    requires inside { (at ≤ length text.now) × (length job.old ≡ block_bytes) }
    requires fitting { Fitting z }
    ensures job_value { (f : Format) → read (J.states z z.states 0 f) job.old (drop at text.now) ≡ resume text.now result (read f job.new) }
    ensures inside_2 { Inside text.now result }
{
    let mut next = at;
    for s in 0..z.states {
        next = state_lines(text, next, job, z, s)?;
    }
    Ok(next)
}
