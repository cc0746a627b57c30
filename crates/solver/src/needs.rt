// The rows that a row needs, as a word with a bit for each row.
ghost use Rattle.std.specs.Prelude.{◌↔◌, ◌⊎◌, ℕ, ◌^◌, ◌<◌};
ghost use Rattle.block.specs.Decide.{Bit};
ghost use Rattle.block.specs.Inner.Tests.{Decides};
ghost use Rattle.block.specs.Layout as L;
ghost use Rattle.block.specs.Inner.Valid.{Valid};
ghost use Rattle.turns.specs.Sizes.{set_bits};
ghost use Rattle.solver.specs.Inner.Needs.{Names, Needs};

use block::{kinds, layout};
use turns::buffers;

// Whether row i names a row right.
pub fn names_right(block: &[u8], i: usize) -> bool
    requires valid { Valid block.now }
    requires i_bound { i < L.rows block.now }
    ensures { Decides (L.Binary (L.kind block.now i)) result }
{
    kinds::binary(layout::kind(block, i))
}

// The word w with the rows that row i names besides.
fn with_named(block: &[u8], w: usize, i: usize) -> usize
    requires valid { Valid block.now }
    requires i_bound { (i < L.rows block.now) × (w < 2 ^ set_bits) }
    ensures { (result < 2 ^ set_bits) × ((j : ℕ) → Bit result j ↔ (Bit w j ⊎ Names block.now i j)) }
{
    if layout::kind(block, i) == layout::PROP_KIND {
        return w;
    }
    let v = buffers::with_bit(w, layout::left(block, i));
    if names_right(block, i) {
        return buffers::with_bit(v, layout::right(block, i));
    }
    v
}

// The rows that row i needs. A row names lower rows only, so one pass downwards finds all.
pub fn needed(block: &[u8], i: usize) -> usize
    requires valid { Valid block.now }
    requires i_bound { i < L.rows block.now }
    ensures { (j : ℕ) → Bit result j ↔ Needs block.now i j }
{
    let mut w = with_named(block, 0, i);
    for j in (0..i).rev() {
        if buffers::has_bit(w, j) {
            w = with_named(block, w, j);
        }
    }
    w
}
