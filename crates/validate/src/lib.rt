// The check of a block: document 01's numbers 1 to 6, and 13, in their order.
#![tactic(auto)]

ghost use Rattle.block.specs.Check.{Verdict};

use block::layout;
use block::refusal::{Answer, Refusal};
use conditions::{nexts, rows, sizes, states};

// Checks a block: the first of the block's numbers whose condition holds, in the order of block's Check, or 0.
pub fn check(block: &[u8]) -> Answer
    ensures { Verdict block.now result }
{
    if block.len() != layout::BLOCK_BYTES {
        return Err(Refusal::Length);
    }
    if sizes::bad(block) {
        return Err(Refusal::Sizes);
    }
    if states::bad(block) {
        return Err(Refusal::State);
    }
    if charges::bad(block) {
        return Err(Refusal::Charge);
    }
    if nexts::bad(block) {
        return Err(Refusal::Next);
    }
    if rows::bad(block) {
        return Err(Refusal::Row);
    }
    if unused::bad(block) {
        return Err(Refusal::Unused);
    }
    Ok(0)
}
