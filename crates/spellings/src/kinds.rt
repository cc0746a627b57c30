// The words of rows and of resources: which of them stands at a place of the text.
ghost use Rattle.std.specs.Prelude.{◌≡◌, ◌≤◌, length, drop};
ghost use Rattle.block.specs.Layout.{kinds};
ghost use Rattle.text.specs.Numeral.{search};
ghost use Rattle.text.specs.declared.sizes.Edition.TheVariants as Edition;
ghost use Rattle.text.specs.Job as J;
ghost use Rattle.tokens.specs.Inner.Found.{found_at, InsideFound};

use block::layout;
use text::sizes::Edition;
use tokens::numeral::Found;
use tokens::words::word;

// The word of a row that stands there.
pub fn kind_at(text: &[u8], at: usize) -> Option<Found>
    requires { at ≤ length text.now }
    ensures text_value { search J.kind_word kinds (drop at text.now) ≡ found_at text.now result }
    ensures inside_found { InsideFound text.now result }
{
    word(text, at, b"until,", layout::UNTIL_KIND)
        .or(word(text, at, b"always,", layout::ALWAYS_KIND))
        .or(word(text, at, b"next,", layout::NEXT_KIND))
        .or(word(text, at, b"or,", layout::OR_KIND))
        .or(word(text, at, b"not,", layout::NOT_KIND))
        .or(word(text, at, b"prop,", layout::PROP_KIND))
}

// The kind of a resource, before left further ones. Edition 1 has no word for it, and each is sum.
pub fn resource_at(text: &[u8], at: usize, e: Edition, left: usize) -> Option<Found>
    requires { at ≤ length text.now }
    ensures text_value { search (J.resource_spelling e left).spell (J.resource_spelling e left).options (drop at text.now) ≡ found_at text.now result }
    ensures inside_found { InsideFound text.now result }
{
    match e {
        Edition::First => Some(Found {
            number: layout::SUM_KIND,
            next: at,
        }),
        Edition::Second => resource_word(text, at, left),
    }
}

fn resource_word(text: &[u8], at: usize, left: usize) -> Option<Found>
    requires { at ≤ length text.now }
    ensures text_value { search (J.resource_spelling Edition.Second left).spell (J.resource_spelling Edition.Second left).options (drop at text.now) ≡ found_at text.now result }
    ensures inside_found { InsideFound text.now result }
{
    if left == 0 {
        let sum = word(text, at, b"sum\n", layout::SUM_KIND);
        return word(text, at, b"max\n", layout::MAX_KIND).or(sum);
    }
    let sum = word(text, at, b"sum,", layout::SUM_KIND);
    word(text, at, b"max,", layout::MAX_KIND).or(sum)
}
