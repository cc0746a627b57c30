// What the first line of a job tells.
ghost use Rattle.std.specs.Prelude.{◌≡◌, ◌^◌, ◌≤◌};
ghost use Rattle.block.specs.Layout.{max_propositions};
ghost use Rattle.text.specs.Numeral.{numbers};

use block::layout;

// The editions of the text: one has a line for each next state, sums every resource and has no charges; the
// other has the next states of a state on one line, a kind for each resource, and charges.
#[derive(Clone, Copy)]
pub enum Edition {
    First,
    Second,
}

// The edition, the sizes, and the kind of each resource.
#[derive(Clone, Copy)]
pub struct Sizes {
    pub edition: Edition,
    pub agents: usize,
    pub resources: usize,
    pub states: usize,
    pub propositions: usize,
    pub rows: usize,
    pub kinds: [usize; layout::MAX_RESOURCES],
}

// How many masks of n bits there are.
pub fn masks(n: usize) -> usize
    requires { n ≤ max_propositions }
    ensures { (result ≡ 2 ^ n) × (result ≤ numbers) }
{
    1 << n
}
