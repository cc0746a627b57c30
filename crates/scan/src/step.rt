// How far reading has come.
use block::refusal::Refusal;

// The refusal that ends reading, and the place of the field that it ends at.
#[derive(Clone, Copy)]
pub struct Stop {
    pub refusal: Refusal,
    pub at: usize,
}

// What is read, a byte of the block or what a line tells, and the next place of the text.
#[derive(Clone, Copy)]
pub struct Valued<T> {
    pub value: T,
    pub next: usize,
}

// What a number may be: the byte after it, the least, the first past the last, and the refusal of any other.
#[derive(Clone, Copy)]
pub struct Range {
    pub sep: usize,
    pub low: usize,
    pub limit: usize,
    pub refusal: Refusal,
}
