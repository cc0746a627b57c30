// Costs: which spelling stands at a place of the text, what it stands for, and whether it may stand there.
ghost use Rattle.std.specs.Prelude.{◌≡◌, ◌≤◌, ◌<◌, length, drop};
ghost use Rattle.text.specs.Numeral.{numbers, search};
ghost use Rattle.text.specs.declared.sizes.Edition.TheVariants as Edition;
ghost use Rattle.text.specs.Job as J;
ghost use Rattle.tokens.specs.Inner.Found.{found_at, InsideFound};

use block::layout;
use block::refusal::Refusal;
use text::ends::list_end;
use text::sizes::Edition;
use text::{LAST_NUMBER, NUMBERS};
use tokens::numeral::{Found, number, signed};

// Costs are below this.
const COST_LIMIT: usize = layout::MAX_UNITS + 1;

fn cost_limit(k: usize) -> usize
    ensures { result ≡ J.cost_limit k }
{
    if k == 0 { 1 } else { COST_LIMIT }
}

// The units that it takes or gives.
fn cost_units(o: usize) -> usize
    ensures { result ≡ J.cost_units o }
{
    if o < NUMBERS { o } else { o - LAST_NUMBER }
}

// Whether it may stand there, as a cost of action k in a resource of a kind.
pub fn cost_allowed(kind: usize, k: usize, o: usize) -> bool
    ensures { result ≡ (J.cost_spelling Edition.Second kind k 0).allowed o }
{
    cost_units(o) < cost_limit(k) && (o < NUMBERS || kind != layout::MAX_KIND)
}

// The refusal of one that may not.
pub fn cost_refusal(k: usize, o: usize) -> Refusal
    ensures { result ≡ (J.cost_spelling Edition.Second 0 k 0).refusal o }
{
    if cost_units(o) < cost_limit(k) {
        Refusal::Charge
    } else {
        Refusal::State
    }
}

// The byte that it stands for.
pub fn cost_byte(o: usize) -> usize
    requires { o < J.cost_spellings Edition.Second }
    ensures { (result ≡ (J.cost_spelling Edition.Second 0 0 0).byte o) × (result < numbers) }
{
    if o < NUMBERS {
        o
    } else {
        layout::BYTE_VALUES - (o - LAST_NUMBER)
    }
}

// The spelling of a cost, before left further ones: edition 1 has numbers only.
pub fn cost_at(text: &[u8], at: usize, e: Edition, left: usize) -> Option<Found>
    requires { at ≤ length text.now }
    ensures text_value { search (J.cost_spelling e 0 0 left).spell (J.cost_spellings e) (drop at text.now) ≡ found_at text.now result }
    ensures inside_found { InsideFound text.now result }
{
    let sep = usize::from(list_end(left));
    match e {
        Edition::First => number(text, at, sep),
        Edition::Second => signed(text, at, sep),
    }
}
