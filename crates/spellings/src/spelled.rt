// A field with spellings of its own, by the leaves of its sort.
ghost use Rattle.std.specs.Prelude.{◌≡◌, ◌≤◌, ◌<◌, length, drop};
ghost use Rattle.text.specs.Numeral.{numbers, search};
ghost use Rattle.tokens.specs.Inner.Found.{found_at, InsideFound};
ghost use Rattle.spellings.specs.Inner.Spelled.{spelling_of};

use crate::bounds::{bound_allowed, bound_at, bound_byte};
use crate::costs::{cost_allowed, cost_at, cost_byte, cost_refusal};
use crate::kinds::{kind_at, resource_at};
use block::refusal::Refusal;
use text::sizes::Edition;
use tokens::numeral::Found;

// A field with spellings of its own: a bound, the word of a row, the kind of a resource before so many further ones, and
// the cost in a resource of a kind, of an action, before so many further ones.
#[derive(Clone, Copy)]
pub enum Spelled {
    Bound,
    Row,
    Resource(Edition, usize),
    Cost(Edition, usize, usize, usize),
}

// The spelling that stands at a place of the text.
pub fn spelling_at(text: &[u8], at: usize, what: Spelled) -> Option<Found>
    requires { at ≤ length text.now }
    ensures text_value { search (spelling_of what).spell (spelling_of what).options (drop at text.now) ≡ found_at text.now result }
    ensures inside_found { InsideFound text.now result }
{
    match what {
        Spelled::Bound => bound_at(text, at),
        Spelled::Row => kind_at(text, at),
        Spelled::Resource(e, left) => resource_at(text, at, e, left),
        Spelled::Cost(e, _, _, left) => cost_at(text, at, e, left),
    }
}

// Whether it may stand there.
pub fn allowed(what: Spelled, o: usize) -> bool
    ensures { result ≡ (spelling_of what).allowed o }
{
    match what {
        Spelled::Bound => bound_allowed(o),
        Spelled::Row | Spelled::Resource(..) => true,
        Spelled::Cost(_, kind, k, _) => cost_allowed(kind, k, o),
    }
}

// What refuses it where it may not.
pub fn refusal_of(what: Spelled, o: usize) -> Refusal
    ensures { result ≡ (spelling_of what).refusal o }
{
    match what {
        Spelled::Bound | Spelled::Row => Refusal::Row,
        Spelled::Resource(..) => Refusal::Sizes,
        Spelled::Cost(_, _, k, _) => cost_refusal(k, o),
    }
}

// The byte that it stands for.
pub fn byte_of(what: Spelled, o: usize) -> usize
    requires { o < (spelling_of what).options }
    ensures { (result ≡ (spelling_of what).byte o) × (result < numbers) }
{
    match what {
        Spelled::Bound => bound_byte(o),
        Spelled::Row | Spelled::Resource(..) => o,
        Spelled::Cost(..) => cost_byte(o),
    }
}
