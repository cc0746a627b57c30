// The fields of a line: words, numbers that are known, bytes of the block, and those with spellings of their own. They are inlined:
// a result that is handed on by memory takes longer than what it tells.
ghost use Rattle.std.specs.Prelude.{◌≡◌, ℕ, ◌≤◌, ◌<◌, length, drop, set};
ghost use Rattle.block.specs.Layout.{Block, block_bytes, place_of};
ghost use Rattle.block.specs.Inner.Places.{InLayout};
ghost use Rattle.text.specs.Format.{Format, exactly, value, read};
ghost use Rattle.text.specs.Job as J;
ghost use Rattle.spellings.specs.Inner.Spelled.{spelling_of};
ghost use Rattle.scan.specs.Inner.Step.{resume, resume_with, Inside, InsideWith, Ranged};
ghost use Rattle.text.specs.Numeral.{numbers};
ghost use Rattle.text.specs.Inner.Fields.{Ends};

use crate::step::{Range, Stop, Valued};
use block::layout;
use block::layout::Place;
use block::refusal::Refusal;
use spellings::spelled::{Spelled, allowed, byte_of, refusal_of, spelling_at};
use text::COMMA;
use tokens::numeral::number;
use tokens::words;

// The refusal of a field that does not have the form.
fn bad_form(at: usize) -> Stop
    ensures { result ≡ record { refusal = Refusal.Form; at = at } }
{
    let refusal = Refusal::Form;
    Stop { refusal, at }
}

// Past the word, which must stand there.
#[inline(always)]
pub fn word(text: &[u8], at: usize, word: &[u8]) -> Result<usize, Stop>
    requires { at ≤ length text.now }
    ensures text_value { (f : Format) (b : Block) → read (exactly word.now f) b (drop at text.now) ≡ resume text.now result (read f b) }
    ensures inside { Inside text.now result }
{
    let found = words::word(text, at, word, 0).ok_or(bad_form(at))?;
    Ok(found.next)
}

// Past the number n and a comma, which must stand there.
#[inline(always)]
pub fn index(text: &[u8], at: usize, n: usize) -> Result<usize, Stop>
    requires { (at ≤ length text.now) × (n < numbers) }
    ensures text_value { (f : Format) (b : Block) → read (J.index n f) b (drop at text.now) ≡ resume text.now result (read f b) }
    ensures inside { Inside text.now result }
{
    let found = number(text, at, COMMA).ok_or(bad_form(at))?;
    if found.number != n {
        return Err(bad_form(at));
    }
    Ok(found.next)
}

// Stores a byte of the block.
fn put(job: &mut [u8], x: Place, v: usize)
    requires job_len { length job.old ≡ block_bytes }
    requires in_layout { InLayout x × (v < numbers) }
    ensures { job.new ≡ set job.old (place_of x) v }
{
    let p = layout::offset(x);
    job[p] = v as u8;
}

// A number of a range, stored at a place of the block.
#[inline(always)]
pub fn field(
    text: &[u8],
    at: usize,
    job: &mut [u8],
    x: Place,
    range: Range,
) -> Result<Valued<usize>, Stop>
    requires at_in_bounds { (at ≤ length text.now) × Ends range.sep }
    requires job_len { (length job.old ≡ block_bytes) × InLayout x }
    ensures by_index { (k : ℕ → Format) → read (value (J.number range.sep range.low range.limit range.refusal) x k) job.old (drop at text.now)
        ≡ resume_with text.now result (λ v rest. read (k v) job.new rest) }
    ensures inside_with { InsideWith text.now result }
    ensures ranged { Ranged range.low range.limit result }
{
    let found = number(text, at, range.sep).ok_or(bad_form(at))?; // the form comes before the value
    let value = found.number;
    if value < range.low || range.limit <= value {
        return Err(Stop {
            refusal: range.refusal,
            at,
        });
    }
    put(job, x, value);
    let next = found.next;
    Ok(Valued { value, next })
}

// A field with spellings of its own, stored at a place of the block.
#[inline(always)]
pub fn spelled(
    text: &[u8],
    at: usize,
    job: &mut [u8],
    x: Place,
    what: Spelled,
) -> Result<Valued<usize>, Stop>
    requires at_in_bounds { at ≤ length text.now }
    requires job_len { (length job.old ≡ block_bytes) × InLayout x }
    ensures by_index { (k : ℕ → Format) → read (value (spelling_of what) x k) job.old (drop at text.now) ≡ resume_with text.now result (λ v rest. read (k v) job.new rest) }
    ensures inside_with { InsideWith text.now result }
{
    let found = spelling_at(text, at, what).ok_or(bad_form(at))?;
    let o = found.number;
    if !allowed(what, o) {
        let refusal = refusal_of(what, o);
        return Err(Stop { refusal, at });
    }
    let value = byte_of(what, o);
    put(job, x, value);
    let next = found.next;
    Ok(Valued { value, next })
}
