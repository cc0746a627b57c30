// The text of a job: the one description of it (specs/), and what reader and writer share.
#![tactic(auto)]

pub mod ends;
pub mod joint;
pub mod output;
pub mod sizes;

// A text is at most this long, and the writer's buffer has this length.
pub const TEXT_BYTES: usize = 32768;

// A number of a text is below this: it is that of a byte.
pub const NUMBERS: usize = 256;

pub const LAST_NUMBER: usize = NUMBERS - 1;

// The bytes after fields, and those of the digits.
pub const COMMA: usize = 44;

pub const LINE_END: usize = 10;

pub const MINUS: usize = 45;

pub const ZERO: usize = 48;

pub const NINE: usize = ZERO + 9;
