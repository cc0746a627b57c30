// What ranks say, by the goal of a strategic row.
#![tactic(auto)]

ghost use Rattle.std.specs.Prelude.{◌≡◌, ◌<◌, length};
ghost use Rattle.block.specs.Inner.Tests.{Decides};
ghost use Rattle.block.specs.Layout as L;
ghost use Rattle.turns.specs.Sizes.{set_bits};
ghost use Rattle.rankings.specs.Kinds.{ClaimsBy, CounterBy, FailedBy, kind_of};

use block::layout;
use turns::{buffers, sizes};

// What a strategic row asks of a play.
#[derive(Clone, Copy, PartialEq, Eq)]
pub enum Goal {
    Next,
    Always,
    Until,
}

// The goal of row i, which is strategic.
pub fn goal_of(block: &[u8], i: usize) -> Goal
    requires block_len { length block.now ≡ L.block_bytes }
    requires i_lt_max_rows { i < L.max_rows }
    requires strategic { L.Strategic (L.kind block.now i) }
    ensures { kind_of result ≡ L.kind block.now i }
{
    match layout::kind(block, i) {
        layout::NEXT_KIND => Goal::Next,
        layout::ALWAYS_KIND => Goal::Always,
        _ => Goal::Until,
    }
}

// Whether a rank says that the coalition wins.
pub fn claims(goal: Goal, rank: usize) -> bool
    ensures { Decides (ClaimsBy (kind_of goal) rank) result }
{
    match goal {
        Goal::Next => rank == 1,
        Goal::Always => rank == sizes::NEVER,
        Goal::Until => rank < sizes::NEVER,
    }
}

// Whether the opponents aim at an outcome in state q with this rank, from a position of rank own.
pub fn counters(goal: Goal, left: usize, own: usize, q: usize, rank: usize) -> bool
    requires { q < set_bits }
    ensures { Decides (CounterBy (kind_of goal) left own q rank) result }
{
    match goal {
        Goal::Next => !buffers::has_bit(left, q),
        Goal::Always => rank < own,
        Goal::Until => sizes::NEVER <= rank,
    }
}

// Whether the row has failed already in state q, at a position of rank own.
pub fn failed(goal: Goal, left: usize, right: usize, own: usize, q: usize) -> bool
    requires { q < set_bits }
    ensures { Decides (FailedBy (kind_of goal) left right own q) result }
{
    match goal {
        Goal::Next => false,
        Goal::Always => own == 0,
        Goal::Until => !buffers::has_bit(left, q) && !buffers::has_bit(right, q),
    }
}
