// The set of a row: where it is true, with lower rows told by their sets and a strategic row by its ranks.
ghost use Rattle.std.specs.Prelude.{◌≡◌, ℕ, ◌≤◌, ◌<◌, length};
ghost use Rattle.block.specs.Decide.{Bit};
ghost use Rattle.block.specs.Inner.Tests.{Decides};
ghost use Rattle.block.specs.Layout as L;
ghost use Rattle.block.specs.Inner.Valid.{Valid};
ghost use Rattle.game.specs.Inner.Words.{Says};
ghost use Rattle.ways.specs.Lines.{ways_bytes};
ghost use Rattle.ways.specs.Listing.{Listed};
ghost use Rattle.choice.specs.Choices.{Sought};
ghost use Rattle.choice.specs.Tables.{RanksOf};
ghost use Rattle.solver.specs.Inner.Rows.{TrueBy, RowRanked};
ghost use Rattle.turns.specs.Sizes.{room_bytes};

use block::layout;
use choice::{moves, next};
use rankings::Goal;
use sweeps::solve;
use turns::{buffers, positions};
use ways::rows::{Row, Side};

// Whether row i is true in state s.
fn true_at(block: &[u8], i: usize, left: usize, right: usize, ranks: &[u8], s: usize) -> bool
    requires valid { Valid block.now }
    requires i_bound { (i < L.rows block.now) × (s < L.states block.now) × (room_bytes ≤ length ranks.now) }
    ensures { Decides (TrueBy block.now i left right ranks.now s) result }
{
    match layout::kind(block, i) {
        layout::PROP_KIND => buffers::has_bit(layout::mask(block, s), layout::left(block, i)),
        layout::NOT_KIND => !buffers::has_bit(left, s),
        layout::OR_KIND => buffers::has_bit(left, s) || buffers::has_bit(right, s),
        _ => {
            let rank = buffers::rank_at(ranks, positions::full(block, i, s));
            rankings::claims(rankings::goal_of(block, i), rank)
        }
    }
}

// The set of row i.
pub fn row_word(block: &[u8], i: usize, left: usize, right: usize, ranks: &[u8]) -> usize
    requires valid { Valid block.now }
    requires i_bound { (i < L.rows block.now) × (room_bytes ≤ length ranks.now) }
    ensures { Says block.now result (TrueBy block.now i left right ranks.now) }
{
    let n = layout::states(block);
    let mut w = 0;
    for s in 0..n {
        if true_at(block, i, left, right, ranks, s) {
            w = buffers::with_bit(w, s);
        }
    }
    w
}

// The states outside a set.
fn complement(block: &[u8], set: usize) -> usize
    requires { Valid block.now }
    ensures { Says block.now result (λ (s : ℕ). (Bit set s → ⊥)) }
{
    let n = layout::states(block);
    let mut w = 0;
    for s in 0..n {
        if !buffers::has_bit(set, s) {
            w = buffers::with_bit(w, s);
        }
    }
    w
}

// The ranks of a row that is listed for its moves, with the set of its left row; right is that of its right row.
fn rank_listed(block: &[u8], row: Row, right: usize, ways: &[u8], ranks: &mut [u8])
    requires valid { Valid block.now }
    requires sought { Sought block.now row (L.kind block.now row.index) × Listed block.now row ways.now × (length ranks.old ≡ room_bytes) }
    ensures { RanksOf block.now row.index row.set right ranks.new × (length ranks.new ≡ length ranks.old) }
{
    match rankings::goal_of(block, row.index) {
        Goal::Next => next::next_ranks(block, row, ways, ranks),
        Goal::Always => {
            let side = Side {
                most: false,
                safe: complement(block, 0),
            };
            let fails = complement(block, row.set);
            solve::solve(block, row, side, ways, fails, ranks);
        }
        Goal::Until => {
            let side = Side {
                most: true,
                safe: row.set,
            };
            solve::solve(block, row, side, ways, right, ranks);
        }
    }
}

// Lists row i, whose lower rows' sets are left and right, and finds its ranks.
pub fn rank_row(
    block: &[u8],
    i: usize,
    left: usize,
    right: usize,
    ways: &mut [u8],
    ranks: &mut [u8],
) -> Row
    requires valid { Valid block.now }
    requires i_bound { (i < L.rows block.now) × L.Strategic (L.kind block.now i) × (length ways.old ≡ ways_bytes) × (length ranks.old ≡ room_bytes) }
    ensures row_ranked { RowRanked block.now i left right result ways.new ranks.new }
    ensures ranks_len_unchanged { length ranks.new ≡ length ranks.old }
{
    let row = moves::list_moves(block, i, left, ways);
    rank_listed(block, row, right, ways, ranks);
    row
}
