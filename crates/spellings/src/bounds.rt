// Bounds: which spelling stands at a place of the text, what it stands for, and whether it may stand there.
ghost use Rattle.std.specs.Prelude.{◌≡◌, ◌≤◌, ◌<◌, length, drop};
ghost use Rattle.text.specs.Numeral.{numbers, search};
ghost use Rattle.text.specs.Job as J;
ghost use Rattle.tokens.specs.Inner.Found.{found_at, InsideFound};

use block::layout;
use text::{COMMA, NUMBERS};
use tokens::numeral::{Found, number};
use tokens::words::word;

// The spellings of a bound past those of the numbers: inf, and nothing.
const INF_BOUND: usize = NUMBERS;

const EMPTY_BOUND: usize = INF_BOUND + 1;

// Whether a spelling of a bound may stand there.
pub fn bound_allowed(o: usize) -> bool
    ensures { result ≡ (J.bound).allowed o }
{
    o <= layout::MAX_UNITS || INF_BOUND <= o
}

// The byte that a spelling of a bound stands for.
pub fn bound_byte(o: usize) -> usize
    requires { o < J.bound_spellings }
    ensures { (result ≡ (J.bound).byte o) × (result < numbers) }
{
    match o {
        INF_BOUND => layout::UNLIMITED,
        EMPTY_BOUND => 0,
        _ => o,
    }
}

// The spelling of a bound that stands at a place of the text.
pub fn bound_at(text: &[u8], at: usize) -> Option<Found>
    requires { at ≤ length text.now }
    ensures text_value { search (J.bound).spell J.bound_spellings (drop at text.now) ≡ found_at text.now result }
    ensures inside_found { InsideFound text.now result }
{
    word(text, at, b",", EMPTY_BOUND)
        .or(word(text, at, b"inf,", INF_BOUND))
        .or(number(text, at, COMMA))
}
