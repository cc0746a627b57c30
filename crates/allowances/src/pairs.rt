// The smallest allowances: a walk along the border between the pairs of bounds that are enough and those that are not.
ghost use Rattle.std.specs.Prelude.{◌≡◌, ℕ, ◌+◌, ◌*◌, ◌≤◌, ◌<◌, length, set, replicate};
ghost use Rattle.block.specs.Inner.Tests.{Decides};
ghost use Rattle.block.specs.Inner.Valid.{Valid};
ghost use Rattle.block.specs.Layout as L;
ghost use Rattle.allowances.specs.Allowances.{Shows, allowances_bytes, AllowancesIn};
ghost use Rattle.turns.specs.Sizes.{room_bytes};
ghost use Rattle.ways.specs.Lines.{ways_bytes};
ghost use Rattle.solver.specs.Inner.Labels.{LowerTold};
ghost use Rattle.allowances.specs.Inner.Asked.{Asking, Tabled, Lent};
ghost use Rattle.allowances.specs.Inner.Pairs.{Enough, Spans, stock_of, FirstEnough};

use crate::bounds;
use block::layout;
use solver::ready::Lower;
use solver::rows;
use turns::{buffers, positions};

// A state of a row, and the sets of the rows that it names; and whether one table tells of all pairs.
#[derive(Clone, Copy)]
pub struct Asked {
    pub row: usize,
    pub state: usize,
    pub left: usize,
    pub right: usize,
    pub once: bool,
}

// The numbers that are tried for a resource, from the first below the end.
#[derive(Clone, Copy)]
struct Range {
    first: usize,
    end: usize,
}

// One number alone is tried where the resource is absent or the row leaves it unlimited.
fn tried(block: &[u8], i: usize, j: usize) -> Range
    requires valid { Valid block.now }
    requires i_bound { (i < L.rows block.now) × (j < L.max_resources) }
    ensures { Spans block.now i j result.first result.end }
{
    if layout::resources(block) <= j {
        return Range { first: 0, end: 1 };
    }
    if layout::bound(block, i, j) == layout::UNLIMITED {
        return Range {
            first: layout::UNLIMITED,
            end: layout::UNLIMITED + 1,
        };
    }
    Range {
        first: 0,
        end: layout::MAX_UNITS + 1,
    }
}

// The stock that stands for an allowance: where it is unlimited, 0.
fn stock(n: usize) -> u8
    requires { n < 256 }
    ensures { result ≡ stock_of n }
{
    if n == layout::UNLIMITED {
        return 0;
    }
    n as u8
}

// Whether the row is true in the state with x and y for its bounds, by the rank of the position with these stocks.
fn told(block: &[u8], ask: Asked, x: usize, y: usize, copy: &[u8], ranks: &[u8]) -> bool
    requires asking { Asking block.now ask × Tabled block.now ask copy.now ranks.now × (length ranks.now ≡ room_bytes) }
    requires shows { Shows block.now ask.row 0 x × Shows block.now ask.row 1 y }
    ensures { Decides (Enough block.now ask.row ask.state x y) result }
{
    let stocks = [stock(x), stock(y)];
    let p = positions::number(copy, ask.row, ask.state, &stocks);
    rankings::claims(rankings::goal_of(copy, ask.row), buffers::rank_at(ranks, p))
}

// Whether the row is true in the state with x and y for its bounds: those of a copy, which is solved.
fn solved(
    block: &[u8],
    ask: Asked,
    x: usize,
    y: usize,
    copy: &mut [u8],
    ways: &mut [u8],
    ranks: &mut [u8],
) -> bool
    requires asking { Asking block.now ask }
    requires shows { Shows block.now ask.row 0 x × Shows block.now ask.row 1 y }
    requires copy_len { (length copy.old ≡ L.block_bytes) × (length ways.old ≡ ways_bytes) × (length ranks.old ≡ room_bytes) }
    ensures decides { Decides (Enough block.now ask.row ask.state x y) result }
    ensures copy_len_2 { (length copy.new ≡ L.block_bytes) × (length ways.new ≡ ways_bytes) × (length ranks.new ≡ room_bytes) }
{
    bounds::put_copy(block, ask.row, x, y, copy);
    rows::rank_row(copy, ask.row, ask.left, ask.right, ways, ranks);
    let p = positions::full(copy, ask.row, ask.state);
    rankings::claims(rankings::goal_of(copy, ask.row), buffers::rank_at(ranks, p))
}

// Whether the row is true in the state with x and y for its bounds. Where an action charges, a stock left under other bounds tells nothing,
// since a bound is also what a charge fills up to.
fn enough(
    block: &[u8],
    ask: Asked,
    x: usize,
    y: usize,
    copy: &mut [u8],
    ways: &mut [u8],
    ranks: &mut [u8],
) -> bool
    requires asking { Asking block.now ask }
    requires shows { Shows block.now ask.row 0 x × Shows block.now ask.row 1 y }
    requires lent { Lent block.now ask copy.old ways.old ranks.old }
    ensures decides { Decides (Enough block.now ask.row ask.state x y) result }
    ensures lent_2 { Lent block.now ask copy.new ways.new ranks.new }
{
    if ask.once {
        return told(block, ask, x, y, copy, ranks);
    }
    solved(block, ask, x, y, copy, ways, ranks)
}

// The smallest number of the range for resource 1 that is enough beside x for resource 0; the end where there is none. From the end downwards,
// as far as numbers are enough: more is never worse.
fn first_enough(
    block: &[u8],
    ask: Asked,
    x: usize,
    range: Range,
    copy: &mut [u8],
    ways: &mut [u8],
    ranks: &mut [u8],
) -> usize
    requires asking { Asking block.now ask }
    requires shows { Shows block.now ask.row 0 x × (range.first ≤ range.end) × ((y : ℕ) → range.first ≤ y → y < range.end → Shows block.now ask.row 1 y) }
    requires lent { Lent block.now ask copy.old ways.old ranks.old }
    ensures first_enough { FirstEnough block.now ask.row ask.state x range.first range.end result }
    ensures lent_2 { Lent block.now ask copy.new ways.new ranks.new }
{
    // a loop and no find: each try works in the lent buffers
    for y in (range.first..range.end).rev() {
        if !enough(block, ask, x, y, copy, ways, ranks) {
            return y + 1;
        }
    }
    range.first
}

// What is asked for, made ready: where nothing charges, the row is solved once, with the largest bounds.
pub fn made_ready(
    block: &[u8],
    i: usize,
    s: usize,
    lower: Lower,
    copy: &mut [u8],
    ways: &mut [u8],
    ranks: &mut [u8],
) -> Asked
    requires valid { Valid block.now }
    requires i_bound { (i < L.rows block.now) × L.Strategic (L.kind block.now i) × (s < L.states block.now) × LowerTold block.now i lower.left lower.right }
    requires copy_len { (length copy.old ≡ L.block_bytes) × (length ways.old ≡ ways_bytes) × (length ranks.old ≡ room_bytes) }
    ensures { Asking block.now result × (result.row ≡ i) × (result.state ≡ s) × Lent block.now result copy.new ways.new ranks.new }
{
    let xs = tried(block, i, 0);
    let ys = tried(block, i, 1);
    bounds::put_copy(block, i, xs.end - 1, ys.end - 1, copy);
    let once = !charges::any(copy, layout::SUM_KIND);
    if once {
        rows::rank_row(copy, i, lower.left, lower.right, ways, ranks);
    }
    Asked {
        row: i,
        state: s,
        left: lower.left,
        right: lower.right,
        once: once,
    }
}

// Stores the allowance x, y as the k-th of the list.
fn store(list: &mut [u8], k: usize, x: usize, y: usize)
    requires { (L.max_resources * k + 1 < length list.old) × (x < 256) × (y < 256) }
    ensures { list.new ≡ set (set list.old (L.max_resources * k) x) (L.max_resources * k + 1) y }
{
    let at = layout::MAX_RESOURCES * k;
    list[at] = x as u8;
    list[at + 1] = y as u8;
}

// Lists them in a buffer of zeros and tells how many there are. With a larger first number only a smaller second one is worth listing.
pub fn list_pairs(
    block: &[u8],
    ask: Asked,
    list: &mut [u8],
    copy: &mut [u8],
    ways: &mut [u8],
    ranks: &mut [u8],
) -> usize
    requires asking { Asking block.now ask }
    requires list_value { list.old ≡ replicate allowances_bytes 0 }
    requires lent { Lent block.now ask copy.old ways.old ranks.old }
    ensures allowances_in { AllowancesIn block.now ask.row ask.state list.new result }
    ensures lent_2 { Lent block.now ask copy.new ways.new ranks.new }
{
    let xs = tried(block, ask.row, 0);
    let ys = tried(block, ask.row, 1);
    let mut n = 0;
    let mut end = ys.end;
    for x in xs.first..xs.end {
        let range = Range {
            first: ys.first,
            end: end,
        };
        let y = first_enough(block, ask, x, range, copy, ways, ranks);
        if y < end {
            store(list, n, x, y);
            n += 1;
            end = y;
        }
    }
    n
}
