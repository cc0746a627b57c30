// The listing of a job, as bytes in a lent buffer.
#![tactic(auto)]

mod plans;
mod rows;

ghost use Rattle.std.specs.Prelude.{◌≡◌, length, replicate};
ghost use Rattle.block.specs.Refusal.{number_of};
ghost use Rattle.block.specs.Inner.Valid.{Valid};
ghost use Rattle.turns.specs.Sizes.{room_bytes, moves_bytes};
ghost use Rattle.report.specs.Call.{listing_bytes, refused_bytes, Filled, ListingIn, ListingCall};
ghost use Rattle.printing.specs.Lines.{refused_line};

use block::refusal::{Answer, Refusal};
use block::{fill, layout, refusal};
use text::output::Output;
use turns::sizes;

// The listing is at most as long as a text, so its buffer has the length of one.
pub const LISTING_BYTES: usize = text::TEXT_BYTES;

// The buffer of a `refused,` line: the word, eight digits and the line end.
pub const REFUSED_BYTES: usize = 17;

// Fills the buffer with the listing of a job, gives its length and clears the rooms.
fn list_job(block: &[u8], out: &mut [u8], ranks: &mut [u8], moves: &mut [u8]) -> usize
    requires valid { Valid block.now }
    requires out_len { (length out.old ≡ listing_bytes) × (length ranks.old ≡ room_bytes) × (length moves.old ≡ moves_bytes) }
    ensures listing_in { ListingIn block.now out.new result }
    ensures ranks_after { (ranks.new ≡ replicate room_bytes 0) × (moves.new ≡ replicate moves_bytes 0) }
{
    let n = rows::job_lines(block, out, ranks, moves);
    fill::zeros(out, n);
    fill::zeros(ranks, 0);
    fill::zeros(moves, 0);
    n
}

// Fills the buffer with the listing of the text's job, and gives its length. Ranks and moves are working room.
pub fn listing(text: &[u8], out: &mut [u8], ranks: &mut [u8], moves: &mut [u8]) -> Answer
    ensures { ListingCall text.now out.old ranks.old moves.old out.new ranks.new moves.new result }
{
    if out.len() != LISTING_BYTES
        || ranks.len() != sizes::ROOM_BYTES
        || moves.len() != sizes::MOVES_BYTES
    {
        return Err(Refusal::Length);
    }
    let mut block = [0u8; layout::BLOCK_BYTES];
    match reader::read(text, &mut block) {
        Ok(_) => Ok(list_job(&block, out, ranks, moves)),
        Err(r) => {
            fill::leave(ranks, r);
            fill::leave(moves, r);
            Err(r)
        }
    }
}

// Fills the buffer with the line that is printed for a refused text, and gives its length.
pub fn refused_line(line: &mut [u8; REFUSED_BYTES], r: Refusal) -> usize
    ensures { Filled (refused_line (number_of r)) line.new refused_bytes result }
{
    let mut out = Output::new(line);
    printing::refused_line(&mut out, r.number());
    let n = out.len();
    fill::zeros(line, n);
    n
}
