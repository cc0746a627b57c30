// Whether a call is turned down before anything is solved: the block first, then the row, and then a state or a position of it.
#![tactic(auto)]

ghost use Rattle.std.specs.Prelude.{◌≡◌, ◌≤◌, ◌<◌, length};
ghost use Rattle.block.specs.Inner.Tests.{Decides};
ghost use Rattle.block.specs.Layout as L;
ghost use Rattle.block.specs.Refusal.{Answers, NoValue};
ghost use Rattle.block.specs.Inner.Valid.{Valid};
ghost use Rattle.game.specs.Position as P;
ghost use Rattle.game.specs.Model.{bounds_of};
ghost use Rattle.admission.specs.Admission.{set_rules, row_rules, state_rules, NoPosition, position_rules};

use block::layout;
use block::refusal::{Answer, Refusal};
use turns::positions;

// A row whose set is wanted: one that exists, of any kind.
pub fn any_row(block: &[u8], i: usize) -> Answer
    ensures { Answers (set_rules block.now i) NoValue result }
{
    validate::check(block)?;
    if layout::rows(block) <= i {
        return Err(Refusal::RowChoice);
    }
    Ok(0)
}

// A row of which more is wanted: none of kind prop, not or or.
pub fn row(block: &[u8], i: usize) -> Answer
    ensures { Answers (row_rules block.now i) NoValue result }
{
    any_row(block, i)?;
    if layout::kind(block, i) < layout::NEXT_KIND {
        return Err(Refusal::RowChoice);
    }
    Ok(0)
}

// A state of such a row.
pub fn state(block: &[u8], i: usize, s: usize) -> Answer
    ensures { Answers (state_rules block.now i s) NoValue result }
{
    row(block, i)?;
    if layout::states(block) <= s {
        return Err(Refusal::Position);
    }
    Ok(0)
}

// Whether a stock of resource j is above its bound, or not 0 where it must be.
fn above(block: &[u8], i: usize, j: usize, stock: usize) -> bool
    requires valid { Valid block.now }
    requires i_bound { (i < L.rows block.now) × L.Strategic (L.kind block.now i) }
    ensures { Decides (P.places (bounds_of block.now i j) ≤ stock) result }
{
    if layout::resources(block) <= j {
        return 1 <= stock;
    }
    positions::places(block, i, j) <= stock
}

// Whether there is no such position.
pub fn no_position(block: &[u8], i: usize, s: usize, stocks: &[u8]) -> bool
    requires valid { Valid block.now }
    requires i_bound { (i < L.rows block.now) × L.Strategic (L.kind block.now i) × (L.max_resources ≤ length stocks.now) }
    ensures { Decides (NoPosition block.now i s stocks.now) result }
{
    layout::states(block) <= s
        || (0..layout::MAX_RESOURCES).any(|j| above(block, i, j, usize::from(stocks[j])))
}

// A position of such a row.
pub fn position(block: &[u8], i: usize, s: usize, stocks: &[u8]) -> Answer
    requires { length stocks.now ≡ L.max_resources }
    ensures { Answers (position_rules block.now i s stocks.now) NoValue result }
{
    row(block, i)?;
    if no_position(block, i, s, stocks) {
        return Err(Refusal::Position);
    }
    Ok(0)
}
