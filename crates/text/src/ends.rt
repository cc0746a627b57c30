// The bytes after fields.
ghost use Rattle.std.specs.Prelude.{◌≡◌};
ghost use Rattle.text.specs.Job as J;
ghost use Rattle.text.specs.Inner.Fields.{Ends};

use crate::joint::last;
use crate::sizes::Edition;
use block::layout;

// The byte after a field of a list: the line ends where none is left.
pub fn list_end(left: usize) -> u8
    ensures { (result ≡ J.list_end left) × Ends result }
{
    if left == 0 {
        return b'\n';
    }
    b','
}

// The byte after F: edition 2 goes on with the kinds.
pub fn sizes_end(e: Edition) -> u8
    ensures { (result ≡ J.sizes_end e) × Ends result }
{
    match e {
        Edition::First => b'\n',
        Edition::Second => b',',
    }
}

// The byte after the next state of a joint action.
pub fn next_end(e: Edition, counts: [usize; layout::MAX_AGENTS], joint: usize) -> u8
    ensures { (result ≡ J.next_end e counts joint) × Ends result }
{
    match e {
        Edition::First => b'\n',
        Edition::Second => { if last(counts, joint) { b'\n' } else { b',' } }
    }
}
