// Positions of a strategic row: how many stock places each resource has, and the numbers of positions.
ghost use Rattle.std.specs.Prelude.{◌≡◌, ◌*◌, ◌≤◌, ◌<◌, min, length};
ghost use Rattle.block.specs.Layout as L;
ghost use Rattle.block.specs.Inner.Valid.{Valid};
ghost use Rattle.game.specs.Position as P;
ghost use Rattle.game.specs.Inner.Stocks as S;
ghost use Rattle.game.specs.Model.{structure_of, coalition_of, bounds_of, arena_of};
ghost use Rattle.turns.specs.Inner.Costs as C;
ghost use Rattle.turns.specs.Inner.Costs.{NetOf};
ghost use Rattle.turns.specs.Sizes.{max_stock_places};

use crate::moves;
use block::layout;

// The stock places of resource j in row i.
pub fn places(block: &[u8], i: usize, j: usize) -> usize
    requires valid { Valid block.now }
    requires i_bound { (i < L.rows block.now) × (j < L.resources block.now) × L.Strategic (L.kind block.now i) }
    ensures { result ≡ P.places (bounds_of block.now i j) }
{
    match layout::bound(block, i, j) {
        layout::UNLIMITED => 1,
        bound => bound + 1,
    }
}

// How many stock places row i has in each state.
pub fn stock_places(block: &[u8], i: usize) -> usize
    requires valid { Valid block.now }
    requires i_bound { (i < L.rows block.now) × L.Strategic (L.kind block.now i) }
    ensures { (result ≡ S.stock_places (arena_of block.now i)) × (result ≤ max_stock_places) }
{
    let n = layout::resources(block);
    let mut c = 1;
    for j in 0..n {
        c *= places(block, i, j);
    }
    c
}

// The number of the position with state s and the stocks of the list, resource 0 first.
pub fn number(block: &[u8], i: usize, s: usize, stocks: &[u8]) -> usize
    requires valid { Valid block.now }
    requires i_bound { (i < L.rows block.now) × L.Strategic (L.kind block.now i) × (L.resources block.now ≤ length stocks.now) }
    requires position { P.IsPosition (arena_of block.now i) (P.position s stocks.now) }
    ensures { result ≡ P.number (arena_of block.now i) (P.position s stocks.now) }
{
    let n = layout::resources(block);
    let mut x = s;
    for j in 0..n {
        x = x * places(block, i, j) + usize::from(stocks[j]);
    }
    x
}

// What the move m of row i's team costs of resource j in state s: nothing of an unlimited resource.
fn net(block: &[u8], i: usize, s: usize, m: usize, j: usize) -> i32
    requires valid { Valid block.now }
    requires i_bound { (i < L.rows block.now) × (s < L.states block.now) × (j < L.resources block.now) }
    requires move_of { P.MoveOf (structure_of block.now) (coalition_of block.now i) s m }
    ensures { NetOf block.now i s m j result }
{
    if layout::bound(block, i, j) == layout::UNLIMITED {
        0
    } else {
        moves::cost(block, s, layout::team(block, i), m, j)
    }
}

// What a cost takes, and what it gives.
fn positive(c: i32) -> usize
    ensures { result ≡ C.positive c }
{
    c.max(0) as usize
}

fn negative(c: i32) -> usize
    requires { C.negative c ≤ L.max_agents * L.max_units }
    ensures { result ≡ C.negative c }
{
    (-c).max(0) as usize
}

// What the move m of row i's team takes of resource j in state s.
pub fn taken(block: &[u8], i: usize, s: usize, m: usize, j: usize) -> usize
    requires valid { Valid block.now }
    requires i_bound { (i < L.rows block.now) × (s < L.states block.now) × (j < L.resources block.now) }
    requires move_of { P.MoveOf (structure_of block.now) (coalition_of block.now i) s m }
    ensures { result ≡ (S.takes (arena_of block.now i) (P.full (arena_of block.now i) s) m).stock j }
{
    positive(net(block, i, s, m, j))
}

// The number of what a move takes of the stocks, and of what it gives them.
#[derive(Clone, Copy)]
pub struct Effect {
    pub takes: usize,
    pub gives: usize,
}

// The effect of the move m of row i's team on the stocks in state s.
pub fn effect_of(block: &[u8], i: usize, s: usize, m: usize) -> Effect
    requires valid { Valid block.now }
    requires i_bound { (i < L.rows block.now) × L.Strategic (L.kind block.now i) × (s < L.states block.now) }
    requires move_of { P.MoveOf (structure_of block.now) (coalition_of block.now i) s m }
    ensures { (result.takes ≡ S.offset (arena_of block.now i) (P.full (arena_of block.now i) s) m) × (result.gives ≡ S.refill (arena_of block.now i) (P.full (arena_of block.now i) s) m) }
{
    let n = layout::resources(block);
    let mut takes = 0;
    let mut gives = 0;
    for j in 0..n {
        let c = places(block, i, j);
        let cost = net(block, i, s, m, j);
        takes = takes * c + positive(cost);
        gives = gives * c + (c - 1).min(negative(cost));
    }
    Effect { takes, gives }
}

// The number of state s at full stock.
pub fn full(block: &[u8], i: usize, s: usize) -> usize
    requires valid { Valid block.now }
    requires i_bound { (i < L.rows block.now) × L.Strategic (L.kind block.now i) × (s < L.states block.now) }
    ensures { result ≡ P.number (arena_of block.now i) (P.full (arena_of block.now i) s) }
{
    let n = layout::resources(block);
    let mut x = s;
    for j in 0..n {
        let c = places(block, i, j);
        x = x * c + (c - 1);
    }
    x
}
