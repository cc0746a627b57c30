// The reader: a text into a block.
#![tactic(auto)]

mod actions;
mod agents;
mod gos;
mod header;
mod rows;
mod states;

ghost use Rattle.std.specs.Prelude.{◌≡◌, length};
ghost use Rattle.block.specs.Layout.{block_bytes};
ghost use Rattle.block.specs.Refusal.{Answers};
ghost use Rattle.text.specs.Format.{end, read};
ghost use Rattle.text.specs.Job as J;
ghost use Rattle.scan.specs.Inner.Step.{resume, outcome_at, Inside};
ghost use Rattle.text.specs.Text.{edition_of, read_text, read_call, answer_to, block_after, StopsAt, stop_rules, Exact, Numbered};

use block::layout::BLOCK_BYTES;
use block::refusal::{Answer, Refusal};
use header::header;
use rows::rows;
use scan::step::Stop;
use states::states;
use text::TEXT_BYTES;
use text::sizes::Edition;

// The edition, which the first word tells.
fn edition(text: &[u8]) -> Edition
    ensures { result ≡ edition_of text.now }
{
    if text.starts_with(b"job2,") {
        Edition::Second
    } else {
        Edition::First
    }
}

// All lines of the text.
fn lines(text: &[u8], job: &mut [u8]) -> Result<usize, Stop>
    requires { length job.old ≡ block_bytes }
    ensures text_value { read (J.job (edition_of text.now)) job.old text.now ≡ resume text.now result (read end job.new) }
    ensures inside { Inside text.now result }
{
    let header = header(text, job, edition(text))?;
    let z = header.value;
    let next = states(text, header.next, job, z)?;
    rows(text, next, job, z)
}

// Reads the text into a block; nothing may follow its last line.
fn read_into(text: &[u8], job: &mut [u8]) -> Result<usize, Stop>
    requires { length job.old ≡ block_bytes }
    ensures text_value { read (J.job (edition_of text.now)) job.old text.now ≡ outcome_at text.now result job.new }
    ensures inside { Inside text.now result }
{
    let at = lines(text, job)?;
    if at < text.len() {
        let refusal = Refusal::Form;
        return Err(Stop { refusal, at });
    }
    Ok(at)
}

// Reads a text into a block, which keeps its bytes where the text is refused.
pub fn read(text: &[u8], block: &mut [u8]) -> Answer
    ensures value { result ≡ answer_to (read_call text.now block.old) }
    ensures block_after { block.new ≡ block_after block.old (read_call text.now block.old) }
    ensures exact { Exact text.now }
    ensures numbered { Numbered text.now }
{
    if TEXT_BYTES < text.len() {
        return Err(Refusal::Length);
    }
    if block.len() != BLOCK_BYTES {
        return Err(Refusal::Length);
    }
    let mut blank = [0u8; BLOCK_BYTES];
    match read_into(text, &mut blank) {
        Ok(_) => {
            block.copy_from_slice(&blank);
            Ok(0)
        }
        Err(stop) => Err(stop.refusal),
    }
}

// The place of the text at which reading stops: that of the field where it is refused, or its end.
pub fn read_at(text: &[u8]) -> Answer
    ensures { Answers (stop_rules text.now) (StopsAt text.now (read_text text.now)) result }
{
    if TEXT_BYTES < text.len() {
        return Err(Refusal::Length);
    }
    let mut blank = [0u8; BLOCK_BYTES];
    match read_into(text, &mut blank) {
        Ok(_) => Ok(text.len()),
        Err(stop) => Ok(stop.at),
    }
}
