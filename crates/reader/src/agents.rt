// The acts lines of a state.
ghost use Rattle.std.specs.Prelude.{◌≡◌, ℕ, ◌<◌, length, ◌≤◌, drop};
ghost use Rattle.block.specs.Layout.{block_bytes, max_states, max_agents};
ghost use Rattle.text.specs.Format.{Format, read};
ghost use Rattle.text.specs.Job as J;
ghost use Rattle.scan.specs.Inner.Step.{resume, resume_with, past_value, Inside, Fitting};

use crate::actions::actions;
use block::layout;
use block::layout::Place;
use block::refusal::Refusal;
use scan::fields::{field, index, word};
use scan::step::{Range, Stop, Valued};
use text::COMMA;
use text::sizes::Sizes;

// Counts are below this.
const COUNT_LIMIT: usize = layout::MAX_ACTIONS + 1;

// How many actions an agent has, and the step past its line.
pub fn acts(
    text: &[u8],
    at: usize,
    job: &mut [u8],
    z: Sizes,
    s: usize,
    a: usize,
) -> Result<Valued<usize>, Stop>
    requires inside { (at ≤ length text.now) × (length job.old ≡ block_bytes) }
    requires fitting { Fitting z × ((s < max_states) × (a < max_agents)) }
    ensures by_index { (f : ℕ → Format) → read (J.acts_line z s a f) job.old (drop at text.now) ≡ resume_with text.now result (λ v rest. read (f v) job.new rest) }
    ensures inside_2 { Inside text.now (past_value result) }
{
    let named = word(text, at, b"acts,")?;
    let state = index(text, named, s)?;
    let agent = index(text, state, a)?;
    let range = Range {
        sep: COMMA,
        low: 1,
        limit: COUNT_LIMIT,
        refusal: Refusal::State,
    };
    let count = field(text, agent, job, Place::Count(s, a), range)?;
    let value = count.value;
    let next = actions(text, count.next, job, z, s, a, value)?;
    Ok(Valued { value, next })
}
