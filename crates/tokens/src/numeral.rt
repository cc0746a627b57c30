// Numbers in the text.
ghost use Rattle.std.specs.Prelude.{◌∷◌, [], ◌++◌, ◌≡◌, ◌+◌, ◌/◌, ◌%◌, ◌≤◌, ◌<◌, length, get_or, drop};
ghost use Rattle.block.specs.Inner.Tests.{Decides};
ghost use Rattle.text.specs.Numeral.{numeral, numbers, decimal, search};
ghost use Rattle.text.specs.Inner.Fields.{Ends};
ghost use Rattle.text.specs.declared.sizes.Edition.TheVariants as Edition;
ghost use Rattle.text.specs.Job as J;
ghost use Rattle.tokens.specs.Inner.Found.{found_at, InsideFound};

use text::{LAST_NUMBER, MINUS, NINE, NUMBERS, ZERO};

// A number, its own or that of a spelling, and the place after what stands for it with its comma or line end.
#[derive(Clone, Copy)]
pub struct Found {
    pub number: usize,
    pub next: usize,
}

// The byte at a place of the text, 0 past its end.
pub fn byte(text: &[u8], at: usize) -> usize
    ensures { result ≡ get_or text.now at 0 }
{
    text.get(at).map_or(0, |x| usize::from(*x))
}

fn is_digit(x: usize) -> bool
    ensures { Decides ((numeral 0 ≤ x) × (x ≤ numeral 9)) result }
{
    matches!(x, ZERO..=NINE)
}

// The number at a place of the text, with sep after it.
pub fn number(text: &[u8], at: usize, sep: usize) -> Option<Found>
    requires { (at ≤ length text.now) × Ends sep }
    ensures text_value { search (λ n. decimal n ++ sep ∷ []) numbers (drop at text.now) ≡ found_at text.now result }
    ensures inside_found { InsideFound text.now result }
{
    let a = byte(text, at);
    let b = byte(text, at + 1);
    if !is_digit(a) {
        return None;
    }
    if b == sep {
        return Some(Found {
            number: a - ZERO,
            next: at + 2,
        });
    }
    if a == ZERO {
        return None;
    }
    if !is_digit(b) {
        return None;
    }
    let tens = 10 * (a - ZERO) + (b - ZERO);
    more(text, at, sep, tens)
}

// The number that begins with two digits, 10 or more.
fn more(text: &[u8], at: usize, sep: usize, tens: usize) -> Option<Found>
    requires at_in_bounds { (at ≤ length text.now) × Ends sep }
    requires le_tens { (10 ≤ tens) × ((tens < 100) × ((get_or text.now at 0 ≡ numeral (tens / 10)) × (get_or text.now (at + 1) 0 ≡ numeral (tens % 10)))) }
    ensures text_value { search (λ n. decimal n ++ sep ∷ []) numbers (drop at text.now) ≡ found_at text.now result }
    ensures inside_found { InsideFound text.now result }
{
    let c = byte(text, at + 2);
    if c == sep {
        return Some(Found {
            number: tens,
            next: at + 3,
        });
    }
    if !is_digit(c) {
        return None;
    }
    let n = 10 * tens + (c - ZERO);
    if NUMBERS <= n {
        return None;
    }
    if byte(text, at + 3) == sep {
        return Some(Found {
            number: n,
            next: at + 4,
        });
    }
    None
}

// The same, or a charge: a minus before such a number, which is not 0.
pub fn signed(text: &[u8], at: usize, sep: usize) -> Option<Found>
    requires { (at ≤ length text.now) × Ends sep }
    ensures text_value { search (λ o. J.cost_field o ++ sep ∷ []) (J.cost_spellings Edition.Second) (drop at text.now) ≡ found_at text.now result }
    ensures inside_found { InsideFound text.now result }
{
    if byte(text, at) != MINUS {
        return number(text, at, sep);
    }
    let found = number(text, at + 1, sep)?;
    if found.number == 0 {
        return None;
    }
    Some(Found {
        number: LAST_NUMBER + found.number,
        next: found.next,
    })
}
