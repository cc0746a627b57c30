// A text that is being written: words and numbers, added at its end. Nothing else of its buffer changes.
ghost use Rattle.std.specs.Prelude.{◌∷◌, [], ◌≡◌, ℕ, ◌+◌, ◌^◌, ◌≤◌, ◌<◌, length};
ghost use Rattle.text.specs.Inner.Adding.{Adds, AddsAt, HasRoom, SameBuffer, Untouched, UntouchedAt};
ghost use Rattle.text.specs.Numeral.{numeral, decimal, field};

use crate::ZERO;

// Puts a digit at a place of a buffer, and gives the place after it.
fn digit(text: &mut [u8], at: usize, d: usize) -> usize
    requires { (at < length text.old) × (d < 10) }
    ensures { AddsAt (numeral d ∷ []) text.old at text.new result × (result ≡ at + 1) × UntouchedAt text.old text.new result }
{
    text[at] = (ZERO + d) as u8;
    at + 1
}

// The digits of a number, for which there is room. They go by place: what calls itself is not inlined, and an Output that is lent to it stays in memory,
// so that each byte of a text, by whomever it is put, reads and stores its length; writing a job took 1.6 times as long so.
fn digits(text: &mut [u8], at: usize, n: usize) -> usize
    requires { (k : ℕ) × ((0 < k) × ((n < 10 ^ k) × (at + k ≤ length text.old))) }
    ensures adds { AddsAt (decimal n) text.old at text.new result }
    ensures by_index { (k : ℕ) → 0 < k → n < 10 ^ k → result ≤ at + k }
    ensures untouched { UntouchedAt text.old text.new result }
{
    if n < 10 {
        return digit(text, at, n);
    }
    let last = digits(text, at, n / 10);
    digit(text, last, n % 10)
}

// A lent buffer, and how many bytes of its front are written.
#[derive(Drop)]
pub struct Output<'a> {
    text: &'a mut [u8],
    len: usize,
}

impl<'a> Output<'a> {
    // No byte of the buffer is written yet.
    pub fn new(text: &'a mut [u8]) -> Output<'a>
        ensures same_buffer { result.text.ghost_name ≡ text.entry.ghost_name }
        ensures empty { (result.text.now ≡ text.old) × (result.len ≡ 0) }
    {
        Output { text, len: 0 }
    }

    // How many bytes are written.
    pub fn len(&self) -> usize
        ensures { result ≡ self.now.len }
    {
        self.len
    }

    // Puts a byte.
    pub fn put(&mut self, x: u8)
        requires { HasRoom 1 self.old }
        ensures adds { Adds (x ∷ []) self.old self.new × (self.new.len ≡ self.old.len + 1) }
        ensures untouched { Untouched self.old self.new }
        ensures same_buffer { SameBuffer self.old self.new }
    {
        self.text[self.len] = x;
        self.len += 1;
    }

    // A number and the byte after it.
    pub fn field(&mut self, n: usize, sep: u8)
        requires { (k : ℕ) × ((0 < k) × ((n < 10 ^ k) × HasRoom (k + 1) self.old)) }
        ensures adds { Adds (field n sep) self.old self.new }
        ensures by_index { (k : ℕ) → 0 < k → n < 10 ^ k → self.new.len ≤ self.old.len + k + 1 }
        ensures untouched { Untouched self.old self.new }
        ensures same_buffer { SameBuffer self.old self.new }
    {
        self.len = digits(self.text, self.len, n);
        self.put(sep);
    }

    // The bytes of a word.
    pub fn word(&mut self, w: &[u8])
        requires { HasRoom (length w.now) self.old }
        ensures adds { Adds w.now self.old self.new × (self.new.len ≡ self.old.len + length w.now) }
        ensures untouched { Untouched self.old self.new }
        ensures same_buffer { SameBuffer self.old self.new }
    {
        let end = self.len + w.len();
        self.text[self.len..end].copy_from_slice(w);
        self.len = end;
    }
}
