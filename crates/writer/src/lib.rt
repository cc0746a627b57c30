// The writer: the text of a block.
#![tactic(auto)]

mod agents;
mod job;
mod output;
mod rows;
mod states;

ghost use Rattle.writer.specs.Call.{WriteCall};

use block::fill;
use block::refusal::{Answer, Refusal};
use job::job;
use text::TEXT_BYTES;

// Writes the text of a block that passes the check, with zeros after it.
pub fn write(block: &[u8], text: &mut [u8]) -> Answer
    ensures { WriteCall block.now text.old text.new result }
{
    if text.len() != TEXT_BYTES {
        return Err(Refusal::Length);
    }
    validate::check(block)?;
    let length = job(block, text);
    fill::zeros(text, length);
    Ok(length)
}
