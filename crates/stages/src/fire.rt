// A move that serves the attack at a place is carried back to the places from which it lands there: until ranks the position, always waits for
// the next move that does not serve, and ranks it where there is none.
ghost use Rattle.std.specs.Prelude.{true, false, ◌≡◌, ℕ, ◌+◌, ◌*◌, ◌≤◌, ◌<◌, length};
ghost use Rattle.block.specs.Decide.{Bit};
ghost use Rattle.block.specs.Inner.Tests.{Decides};
ghost use Rattle.block.specs.Layout as L;
ghost use Rattle.block.specs.Inner.Valid.{Valid};
ghost use Rattle.turns.specs.Sizes.{max_stocks, room_bytes};
ghost use Rattle.ways.specs.Back.{InBox};
ghost use Rattle.ways.specs.Lines.{count_in};
ghost use Rattle.ways.specs.Listing.{Listed};
ghost use Rattle.ways.specs.Rows.{Playable};
ghost use Rattle.stages.specs.Stages.{hold, Waiting, Prepared, rank_of, To, FiresAt, Earned, Past, Evolved, Lent, DoneWith};

use crate::start::HOLD;
use crate::staying;
use block::layout;
use turns::{buffers, sizes};
use ways::back::Span;
use ways::rows::{Row, Spot};
use ways::{back, landing, lines, packs};

// The k-th move of a state, which serves at a place, at a stage of an attack.
#[derive(Clone, Copy)]
pub struct Fire {
    pub row: Row,
    pub most: bool,
    pub safe: usize,
    pub stage: usize,
    pub state: usize,
    pub index: usize,
    pub place: usize,
}

// Whether a word keeps its position from its rank by the k-th move.
fn waits_for(most: bool, r: usize, k: usize) -> bool
    requires { k < L.max_joint }
    ensures { Decides (Waiting most k r) result }
{
    if most {
        return HOLD <= r;
    }
    r == HOLD + k
}

// Whether the move lands at its place from place x.
fn leads(block: &[u8], ways: &[u8], fire: Fire, x: usize) -> bool
    requires valid { Valid block.now }
    requires playable { Playable block.now fire.row × Listed block.now fire.row ways.now }
    requires state_bound { (fire.state < L.states block.now) × (x < fire.row.places) × (fire.index < count_in ways.now fire.state true) }
    ensures { Decides (To block.now fire.row ways.now ways.now fire.state x fire.index fire.place) result }
{
    let row = fire.row;
    let spot = Spot {
        state: fire.state,
        place: x,
    };
    match landing::lands(block, row, ways, spot, fire.index) {
        Some(y) => y == fire.place,
        None => false,
    }
}

// Ranks a position that earned it, and marks its place.
fn give(
    block: &[u8],
    ways: &[u8],
    board: &[u8],
    ranks: &mut [u8],
    flags: &mut [u8],
    fire: Fire,
    x: usize,
)
    requires valid { Valid block.now × Prepared block.now fire.row ways.now board.now }
    requires lent { Lent block.now fire.row ways.now board.now fire.most fire.stage ranks.old flags.old }
    requires state_bound { (fire.state < L.states block.now) × (x < fire.row.places) × Bit fire.safe fire.state × (hold ≤ rank_of fire.row ranks.old fire.state x) × Earned block.now fire.row ways.now board.now fire.most fire.state x }
    ensures { Evolved block.now fire.row ways.now board.now fire.most fire.safe fire.stage ranks.old flags.old ranks.new flags.new × (rank_of fire.row ranks.new fire.state x ≡ fire.stage) }
{
    let p = fire.state * fire.row.places + x;
    buffers::set_rank(ranks, p, fire.stage);
    flags[sizes::MAX_STOCK_PLACES + x] = 1;
}

// For always: goes on from the move, which is waited for at place x, to the next.
fn pass(
    block: &[u8],
    ways: &[u8],
    board: &[u8],
    ranks: &mut [u8],
    flags: &mut [u8],
    fire: Fire,
    x: usize,
)
    requires valid { Valid block.now × Prepared block.now fire.row ways.now board.now }
    requires lent { Lent block.now fire.row ways.now board.now fire.most fire.stage ranks.old flags.old × (fire.most ≡ false) }
    requires state_bound { (fire.state < L.states block.now) × (x < fire.row.places) × Bit fire.safe fire.state × To block.now fire.row ways.now board.now fire.state x fire.index fire.place × FiresAt block.now fire.row ways.now board.now false fire.state fire.index fire.place }
    requires x_value { rank_of fire.row ranks.old fire.state x ≡ hold + fire.index }
    ensures { Evolved block.now fire.row ways.now board.now fire.most fire.safe fire.stage ranks.old flags.old ranks.new flags.new × (rank_of fire.row ranks.new fire.state x ≡ hold + fire.index → ⊥) }
{
    let row = fire.row;
    let spot = Spot {
        state: fire.state,
        place: x,
    };
    match staying::first_staying(block, row, ways, board, spot, fire.index + 1) {
        Some(next) => buffers::set_rank(ranks, fire.state * row.places + x, HOLD + next),
        None => give(block, ways, board, ranks, flags, fire, x),
    }
}

// Carries the move back to place x, if it lands at its place from there.
fn touch(
    block: &[u8],
    ways: &[u8],
    board: &[u8],
    ranks: &mut [u8],
    flags: &mut [u8],
    fire: Fire,
    x: usize,
)
    requires valid { Valid block.now × Prepared block.now fire.row ways.now board.now }
    requires lent { Lent block.now fire.row ways.now board.now fire.most fire.stage ranks.old flags.old }
    requires state_bound { (fire.state < L.states block.now) × Bit fire.safe fire.state × (fire.index < count_in ways.now fire.state true) × FiresAt block.now fire.row ways.now board.now fire.most fire.state fire.index fire.place }
    requires x_lt_places { x < fire.row.places }
    ensures { Evolved block.now fire.row ways.now board.now fire.most fire.safe fire.stage ranks.old flags.old ranks.new flags.new × (To block.now fire.row ways.now board.now fire.state x fire.index fire.place → Past block.now fire.row ways.now board.now fire.most fire.index (rank_of fire.row ranks.new fire.state x)) }
{
    let r = buffers::rank_at(ranks, fire.state * fire.row.places + x);
    if !waits_for(fire.most, r, fire.index) {
        return;
    }
    if !leads(block, ways, fire, x) {
        return;
    }
    if fire.most {
        give(block, ways, board, ranks, flags, fire, x);
        return;
    }
    pass(block, ways, board, ranks, flags, fire, x);
}

// And to the places of a span, as far as there are such places.
fn fire_span(
    block: &[u8],
    ways: &[u8],
    board: &[u8],
    ranks: &mut [u8],
    flags: &mut [u8],
    fire: Fire,
    span: Span,
)
    requires valid { Valid block.now × Prepared block.now fire.row ways.now board.now }
    requires lent { Lent block.now fire.row ways.now board.now fire.most fire.stage ranks.old flags.old }
    requires state_bound { (fire.state < L.states block.now) × Bit fire.safe fire.state × (fire.index < count_in ways.now fire.state true) × FiresAt block.now fire.row ways.now board.now fire.most fire.state fire.index fire.place }
    requires last_bound { span.last < 65536 }
    ensures { Evolved block.now fire.row ways.now board.now fire.most fire.safe fire.stage ranks.old flags.old ranks.new flags.new × ((x : ℕ) → span.first ≤ x → x ≤ span.last → x < fire.row.places → To block.now fire.row ways.now board.now fire.state x fire.index fire.place → Past block.now fire.row ways.now board.now fire.most fire.index (rank_of fire.row ranks.new fire.state x)) }
{
    let end = span.last + 1;
    for x in span.first..end {
        if x < fire.row.places {
            touch(block, ways, board, ranks, flags, fire, x);
        }
    }
}

// The places with a number of each span, the first in lines of this width.
#[derive(Clone, Copy)]
pub struct Spans {
    pub low: Span,
    pub high: Span,
    pub width: usize,
}

fn fire_box(
    block: &[u8],
    ways: &[u8],
    board: &[u8],
    ranks: &mut [u8],
    flags: &mut [u8],
    fire: Fire,
    spans: Spans,
)
    requires valid { Valid block.now × Prepared block.now fire.row ways.now board.now }
    requires lent { Lent block.now fire.row ways.now board.now fire.most fire.stage ranks.old flags.old }
    requires state_bound { (fire.state < L.states block.now) × Bit fire.safe fire.state × (fire.index < count_in ways.now fire.state true) × FiresAt block.now fire.row ways.now board.now fire.most fire.state fire.index fire.place }
    requires last_lt_max_stocks { (spans.low.last < max_stocks) × (spans.high.last < spans.width) × (spans.width ≤ max_stocks) × (spans.high.first < 2 * max_stocks) }
    ensures { Evolved block.now fire.row ways.now board.now fire.most fire.safe fire.stage ranks.old flags.old ranks.new flags.new × ((x : ℕ) → InBox spans.low spans.high spans.width x → x < fire.row.places → To block.now fire.row ways.now board.now fire.state x fire.index fire.place → Past block.now fire.row ways.now board.now fire.most fire.index (rank_of fire.row ranks.new fire.state x)) }
{
    let end = spans.low.last + 1;
    let width = spans.width;
    let first = spans.high.first;
    let last = spans.high.last;
    for a in spans.low.first..end {
        let span = Span {
            first: a * width + first,
            last: a * width + last,
        };
        fire_span(block, ways, board, ranks, flags, fire, span);
    }
}

// Carries a move back to every place from which it lands at its place, in the box of the stocks that it can leave so.
fn fire_spans(
    block: &[u8],
    ways: &[u8],
    board: &[u8],
    ranks: &mut [u8],
    flags: &mut [u8],
    fire: Fire,
)
    requires valid { Valid block.now × Prepared block.now fire.row ways.now board.now }
    requires lent { Lent block.now fire.row ways.now board.now fire.most fire.stage ranks.old flags.old }
    requires state_bound { (fire.state < L.states block.now) × Bit fire.safe fire.state × (fire.index < count_in ways.now fire.state true) × FiresAt block.now fire.row ways.now board.now fire.most fire.state fire.index fire.place }
    requires place_lt_places { fire.place < fire.row.places }
    ensures { Evolved block.now fire.row ways.now board.now fire.most fire.safe fire.stage ranks.old flags.old ranks.new flags.new × DoneWith block.now fire.row ways.now board.now fire.most ranks.new fire.state fire.index fire.place }
{
    let full = packs::unpack(ways, fire.row.places - 1);
    let left = packs::unpack(ways, fire.place);
    let takes = packs::unpack(ways, lines::taken(ways, fire.state, fire.index));
    let gives = packs::unpack(ways, lines::given(ways, fire.state, fire.index));
    let low = back::span_of(full.low, left.low, takes.low, gives.low);
    let high = back::span_of(full.high, left.high, takes.high, gives.high);
    let spans = Spans {
        low: low,
        high: high,
        width: full.high + 1,
    };
    fire_box(block, ways, board, ranks, flags, fire, spans);
}

// The same: a move that gives nothing comes from one place only.
pub fn fire_move(
    block: &[u8],
    ways: &[u8],
    board: &[u8],
    ranks: &mut [u8],
    flags: &mut [u8],
    fire: Fire,
)
    requires valid { Valid block.now × Prepared block.now fire.row ways.now board.now }
    requires lent { Lent block.now fire.row ways.now board.now fire.most fire.stage ranks.old flags.old }
    requires state_bound { (fire.state < L.states block.now) × Bit fire.safe fire.state × (fire.index < count_in ways.now fire.state true) × FiresAt block.now fire.row ways.now board.now fire.most fire.state fire.index fire.place }
    requires place_lt_places { fire.place < fire.row.places }
    ensures { Evolved block.now fire.row ways.now board.now fire.most fire.safe fire.stage ranks.old flags.old ranks.new flags.new × DoneWith block.now fire.row ways.now board.now fire.most ranks.new fire.state fire.index fire.place }
{
    if lines::given(ways, fire.state, fire.index) != 0 {
        fire_spans(block, ways, board, ranks, flags, fire);
        return;
    }
    let x = fire.place + lines::taken(ways, fire.state, fire.index);
    if x < fire.row.places {
        touch(block, ways, board, ranks, flags, fire, x);
    }
}
