// Fixed words in the text.
ghost use Rattle.std.specs.Prelude.{◌≡◌, ◌≤◌, length, drop};
ghost use Rattle.block.specs.Inner.Tests.{Decides};
ghost use Rattle.text.specs.Numeral.{Starts, missing, after};
ghost use Rattle.tokens.specs.Inner.Found.{found_at, InsideFound};

use crate::numeral::Found;

// Whether the word stands at a place of the text.
pub fn stands(text: &[u8], at: usize, word: &[u8]) -> bool
    requires { at ≤ length text.now }
    ensures { Decides (Starts word.now (drop at text.now)) result }
{
    text[at..].starts_with(word)
}

// Spelling k, where the word stands at a place of the text.
pub fn word(text: &[u8], at: usize, word: &[u8], k: usize) -> Option<Found>
    requires { at ≤ length text.now }
    ensures result_value { found_at text.now result ≡ after k word.now (drop at text.now) missing }
    ensures inside_found { InsideFound text.now result }
{
    if !stands(text, at, word) {
        return None;
    }
    let next = at + word.len();
    Some(Found { number: k, next })
}
