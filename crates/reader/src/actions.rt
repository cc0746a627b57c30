// The actions of an agent in a state and their costs.
ghost use Rattle.std.specs.Prelude.{◌≡◌, ◌+◌, ◌≤◌, ◌<◌, length, get_or, drop};
ghost use Rattle.block.specs.Layout.{block_bytes, max_states, max_agents, max_actions, max_resources, sum_kind};
ghost use Rattle.text.specs.Format.{Format, value, read};
ghost use Rattle.text.specs.Job as J;
ghost use Rattle.scan.specs.Inner.Step.{resume, Inside, Fitting};

use block::layout::Place;
use scan::fields::spelled;
use scan::step::Stop;
use spellings::spelled::Spelled;
use text::sizes::Sizes;

// An agent in a state.
#[derive(Clone, Copy)]
struct Actor {
    state: usize,
    agent: usize,
}

// The cost of action k in resource j, before left further costs of the line.
fn cost(
    text: &[u8],
    at: usize,
    job: &mut [u8],
    z: Sizes,
    who: Actor,
    k: usize,
    j: usize,
    left: usize,
) -> Result<usize, Stop>
    requires inside { (at ≤ length text.now) × (length job.old ≡ block_bytes) }
    requires state_lt_max_states { (who.state < max_states) × (who.agent < max_agents) × (k < max_actions) × (j < max_resources) }
    ensures job_value { (f : Format) → read (value (J.cost_spelling z.edition (get_or z.kinds j sum_kind) k left) (Place.Cost who.state who.agent k j) (λ v. f)) job.old (drop at text.now)
        ≡ resume text.now result (read f job.new) }
    ensures inside_2 { Inside text.now result }
{
    let place = Place::Cost(who.state, who.agent, k, j);
    let what = Spelled::Cost(z.edition, z.kinds[j], k, left);
    let cost = spelled(text, at, job, place, what)?;
    Ok(cost.next)
}

// The costs of action k, before n further actions.
fn costs(
    text: &[u8],
    at: usize,
    job: &mut [u8],
    z: Sizes,
    who: Actor,
    k: usize,
    n: usize,
) -> Result<usize, Stop>
    requires inside { (at ≤ length text.now) × (length job.old ≡ block_bytes) }
    requires fitting { Fitting z × ((who.state < max_states) × (who.agent < max_agents) × (k + n < max_actions)) }
    ensures job_value { (f : Format) → read (J.costs z who.state who.agent n k z.resources 0 f) job.old (drop at text.now) ≡ resume text.now result (read f job.new) }
    ensures inside_2 { Inside text.now result }
{
    let mut next = at;
    for j in 0..z.resources {
        let left = n + (z.resources - (j + 1));
        next = cost(text, next, job, z, who, k, j, left)?;
    }
    Ok(next)
}

// The costs of the actions.
pub fn actions(
    text: &[u8],
    at: usize,
    job: &mut [u8],
    z: Sizes,
    s: usize,
    a: usize,
    actions: usize,
) -> Result<usize, Stop>
    requires inside { (at ≤ length text.now) × (length job.old ≡ block_bytes) }
    requires fitting { Fitting z × ((s < max_states) × (a < max_agents) × (actions ≤ max_actions)) }
    ensures job_value { (f : Format) → read (J.actions z s a actions 0 f) job.old (drop at text.now) ≡ resume text.now result (read f job.new) }
    ensures inside_2 { Inside text.now result }
{
    let who = Actor { state: s, agent: a };
    let mut next = at;
    for k in 0..actions {
        next = costs(text, next, job, z, who, k, actions - (k + 1))?;
    }
    Ok(next)
}
