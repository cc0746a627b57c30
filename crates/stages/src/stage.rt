// One stage: at each place where a rank was given at the last one, the moves that serve now and did not before are carried back.
ghost use Rattle.std.specs.Prelude.{◌≡◌, ℕ, ◌+◌, ◌-◌, ◌≤◌, ◌<◌, length};
ghost use Rattle.block.specs.Decide.{Bit};
ghost use Rattle.block.specs.Layout as L;
ghost use Rattle.block.specs.Inner.Valid.{Valid};
ghost use Rattle.turns.specs.Sizes.{room_bytes};
ghost use Rattle.ways.specs.Rows.{Playable};
ghost use Rattle.boards.specs.Boards.{board_bytes, RankedWithin};
ghost use Rattle.stages.specs.Stages.{flags_bytes, due_at, Prepared, Evolved, Lent, StateDone, PlaceDone, Turned, TurnedTo};

use crate::fire;
use crate::fire::Fire;
use block::layout;
use boards::{board, fires};
use turns::{buffers, sizes};
use ways::lines;
use ways::rows::Row;

// An attack on a row: by whom, from which safe states, and at which stage.
#[derive(Clone, Copy)]
pub struct Attack {
    pub row: Row,
    pub most: bool,
    pub safe: usize,
    pub stage: usize,
}

// A state and a place where ranks were given, with the states that got them at the last stage.
#[derive(Clone, Copy)]
pub struct Front {
    pub state: usize,
    pub place: usize,
    pub fresh: usize,
}

// Carries back the moves of a state that serve newly at the place.
fn run_state(
    block: &[u8],
    ways: &[u8],
    board: &[u8],
    ranks: &mut [u8],
    flags: &mut [u8],
    attack: Attack,
    front: Front,
)
    requires valid { Valid block.now × Prepared block.now attack.row ways.now board.now }
    requires lent { Lent block.now attack.row ways.now board.now attack.most attack.stage ranks.old flags.old }
    requires state_bound { (front.state < L.states block.now) × (front.place < attack.row.places) × Bit attack.safe front.state }
    ensures { Evolved block.now attack.row ways.now board.now attack.most attack.safe attack.stage ranks.old flags.old ranks.new flags.new × StateDone block.now attack.row ways.now board.now attack.most ranks.new front.place front.fresh front.state }
{
    let row = attack.row;
    let won = board::won_at(board, front.place);
    if !fires::fires(false, board::reach_at(board, front.state), front.fresh) {
        return;
    }
    let n = lines::count(ways, front.state, true);
    for k in 0..n {
        let to = board::to_at(board, front.state, k);
        if fires::newly(attack.most, to, won, front.fresh) {
            let fire = Fire {
                row: row,
                most: attack.most,
                safe: attack.safe,
                stage: attack.stage,
                state: front.state,
                index: k,
                place: front.place,
            };
            fire::fire_move(block, ways, board, ranks, flags, fire);
        }
    }
}

// Those of all safe states.
fn run_place(
    block: &[u8],
    ways: &[u8],
    board: &[u8],
    ranks: &mut [u8],
    flags: &mut [u8],
    attack: Attack,
    y: usize,
)
    requires valid { Valid block.now × Prepared block.now attack.row ways.now board.now }
    requires lent { Lent block.now attack.row ways.now board.now attack.most attack.stage ranks.old flags.old }
    requires y_lt_places { (y < attack.row.places) × (0 < attack.stage) }
    ensures { Evolved block.now attack.row ways.now board.now attack.most attack.safe attack.stage ranks.old flags.old ranks.new flags.new × ((fresh : ℕ) × RankedWithin (L.states block.now) attack.row.places ranks.old y (attack.stage - 1) attack.stage fresh × PlaceDone block.now attack.row ways.now board.now attack.most attack.safe ranks.new y fresh) }
{
    let row = attack.row;
    let fresh = board::ranked_within(block, row, ranks, y, attack.stage - 1, attack.stage);
    let n = layout::states(block);
    for s in 0..n {
        if buffers::has_bit(attack.safe, s) {
            let front = Front {
                state: s,
                place: y,
                fresh: fresh,
            };
            run_state(block, ways, board, ranks, flags, attack, front);
        }
    }
}

// Every place where a rank was given at the last stage.
pub fn run_stage(
    block: &[u8],
    ways: &[u8],
    board: &[u8],
    ranks: &mut [u8],
    flags: &mut [u8],
    attack: Attack,
)
    requires valid { Valid block.now × Prepared block.now attack.row ways.now board.now }
    requires lent { Lent block.now attack.row ways.now board.now attack.most attack.stage ranks.old flags.old }
    requires stage_nonzero { 0 < attack.stage }
    ensures { Evolved block.now attack.row ways.now board.now attack.most attack.safe attack.stage ranks.old flags.old ranks.new flags.new × ((y : ℕ) → y < attack.row.places → due_at flags.old y ≡ 1 → (fresh : ℕ) × RankedWithin (L.states block.now) attack.row.places ranks.old y (attack.stage - 1) attack.stage fresh × PlaceDone block.now attack.row ways.now board.now attack.most attack.safe ranks.new y fresh) }
{
    let c = attack.row.places;
    for y in 0..c {
        if flags[y] == 1 {
            run_place(block, ways, board, ranks, flags, attack, y);
        }
    }
}

// After a stage: a place that is marked gets its set anew, and is due at the next stage. Tells whether it was.
fn turn_place(
    block: &[u8],
    row: Row,
    board: &mut [u8],
    ranks: &[u8],
    flags: &mut [u8],
    x: usize,
    n: usize,
) -> bool
    requires valid { Valid block.now }
    requires playable { Playable block.now row × (length board.old ≡ board_bytes) × (room_bytes ≤ length ranks.now) × (length flags.old ≡ flags_bytes) }
    requires x_lt_places { x < row.places }
    ensures { Turned (L.states block.now) row.places ranks.now n x result board.old flags.old board.new flags.new }
{
    let marked = flags[sizes::MAX_STOCK_PLACES + x];
    flags[sizes::MAX_STOCK_PLACES + x] = 0;
    flags[x] = marked;
    if marked != 1 {
        return false;
    }
    let won = board::ranked_within(block, row, ranks, x, 0, n);
    buffers::set_narrow(board, board::NEXTS + x, won);
    true
}

// All places. Tells whether any is due.
pub fn turn_over(
    block: &[u8],
    row: Row,
    board: &mut [u8],
    ranks: &[u8],
    flags: &mut [u8],
    n: usize,
) -> bool
    requires valid { Valid block.now }
    requires playable { Playable block.now row × (length board.old ≡ board_bytes) × (room_bytes ≤ length ranks.now) × (length flags.old ≡ flags_bytes) }
    ensures { TurnedTo (L.states block.now) row.places ranks.now n row.places result board.old flags.old board.new flags.new }
{
    let c = row.places;
    let mut more = false;
    for x in 0..c {
        if turn_place(block, row, board, ranks, flags, x, n) {
            more = true;
        }
    }
    more
}
