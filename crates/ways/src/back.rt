// From which stock places the listed moves lead to a place, marked by flags: where ranks fell at a place, those of these places can fall too.
ghost use Rattle.std.specs.Prelude.{true, ◌≡◌, ℕ, ◌*◌, ◌-◌, ◌≤◌, ◌<◌, length};
ghost use Rattle.block.specs.Layout as L;
ghost use Rattle.block.specs.Inner.Valid.{Valid};
ghost use Rattle.game.specs.Model.{arena_of};
ghost use Rattle.turns.specs.Sizes.{max_stocks, max_stock_places};
ghost use Rattle.ways.specs.Back.{Leads, LedIn, LedFrom, Comes, InSpan, InBox, Marked};
ghost use Rattle.ways.specs.Lines.{count_in, number_in};
ghost use Rattle.ways.specs.Listing.{Listed};
ghost use Rattle.ways.specs.Rows.{Playable};

use crate::rows::Row;
use crate::{lines, packs};
use block::layout;

// The stocks from `first` to `last`, none where that is smaller.
#[derive(Clone, Copy)]
pub struct Span {
    pub first: usize,
    pub last: usize,
}

// The stocks of which t can be taken and to which g can be given, no further than f, so that x is there then.
pub fn span_of(f: usize, x: usize, t: usize, g: usize) -> Span
    requires { (x < max_stocks) × (t < max_stocks) }
    ensures { (result.first < 2 * max_stocks) × (result.last ≤ f) × ((z : ℕ) → Comes f x t g z → InSpan result z) }
{
    let first = (x + t).saturating_sub(g);
    if x == f {
        return Span {
            first: first,
            last: f,
        };
    }
    Span {
        first: first,
        last: f.min(first),
    }
}

// Flags the places from `first` to before `end`.
fn mark_line(flags: &mut [u8], first: usize, end: usize)
    requires { end ≤ length flags.old }
    ensures { Marked (λ (z : ℕ). (first ≤ z) × (z < end)) flags.old flags.new }
{
    if first < end {
        flags[first..end].fill(1);
    }
}

// Flags the places with a number of each span, the first in lines of this width.
fn mark_box(flags: &mut [u8], low: Span, high: Span, width: usize)
    requires { (low.last < max_stocks) × (high.last < width) × (width ≤ max_stocks) × (length flags.old ≡ max_stock_places) × (high.first < 2 * max_stocks) }
    ensures { Marked (InBox low high width) flags.old flags.new }
{
    let end = low.last + 1;
    for a in low.first..end {
        mark_line(flags, a * width + high.first, a * width + high.last + 1);
    }
}

// Flags the places from which the k-th move of state s leads to place x.
fn mark_move(block: &[u8], row: Row, ways: &[u8], s: usize, k: usize, x: usize, flags: &mut [u8])
    requires valid { Valid block.now }
    requires playable { Playable block.now row × Listed block.now row ways.now × (length flags.old ≡ max_stock_places) }
    requires s_bound { (s < L.states block.now) × (k < count_in ways.now s true) × (x < row.places) }
    ensures { Marked (λ (z : ℕ). Leads (arena_of block.now row.index) s z (number_in ways.now s true k) x) flags.old flags.new }
{
    let full = packs::unpack(ways, row.places - 1);
    let left = packs::unpack(ways, x);
    let takes = packs::unpack(ways, lines::taken(ways, s, k));
    let gives = packs::unpack(ways, lines::given(ways, s, k));
    let low = span_of(full.low, left.low, takes.low, gives.low);
    let high = span_of(full.high, left.high, takes.high, gives.high);
    mark_box(flags, low, high, full.high + 1);
}

// Flags the places from which a listed move of state s leads to place x.
fn mark_state(block: &[u8], row: Row, ways: &[u8], s: usize, x: usize, flags: &mut [u8])
    requires valid { Valid block.now }
    requires playable { Playable block.now row × Listed block.now row ways.now × (length flags.old ≡ max_stock_places) }
    requires s_bound { (s < L.states block.now) × (x < row.places) }
    ensures { Marked (LedIn block.now row s x) flags.old flags.new }
{
    let n = lines::count(ways, s, true);
    for k in 0..n {
        mark_move(block, row, ways, s, k, x, flags);
    }
}

// Flags the places from which a listed move leads to place x.
pub fn mark(block: &[u8], row: Row, ways: &[u8], x: usize, flags: &mut [u8])
    requires valid { Valid block.now }
    requires playable { Playable block.now row × Listed block.now row ways.now × (length flags.old ≡ max_stock_places) }
    requires x_lt_places { x < row.places }
    ensures { Marked (LedFrom block.now row x) flags.old flags.new }
{
    let n = layout::states(block);
    for s in 0..n {
        mark_state(block, row, ways, s, x, flags);
    }
}
