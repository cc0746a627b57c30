// Reads the text of a job on standard input and prints its listing. It only moves bytes: what is printed is made by `report`.
#![tactic(auto)]

ghost use Rattle.std.specs.Io.{ReadsAtMost};

use block::refusal::Refusal;
use std::io;
use std::io::{ErrorKind, Read, Write};
use std::process::ExitCode;
use text::TEXT_BYTES;
use turns::sizes;

// One byte more than a text may have, so that a longer one is seen to be too long, also one that never ends.
const INPUT_BYTES: usize = TEXT_BYTES + 1;

// One read, tried again where a signal interrupts it.
fn read_some<R: Read>(input: &mut R, buf: &mut [u8]) -> io::Result<usize>
    ensures { ReadsAtMost result buf.new }
{
    for _ in 0..u64::MAX {
        match input.read(buf) {
            Err(error) if error.kind() == ErrorKind::Interrupted => {}
            read => return read,
        }
    }
    input.read(buf)
}

// Reads until the buffer is full or the input ends, and tells how much was read.
fn read_input<R: Read>(input: &mut R, text: &mut [u8]) -> io::Result<usize>
    ensures { ReadsAtMost result text.new }
{
    let mut n = 0;
    while n < text.len() {
        match read_some(input, &mut text[n..])? {
            0 => return Ok(n),
            more => n += more,
        }
    }
    Ok(n)
}

// Writes the bytes, or says that it cannot.
fn print<W: Write>(out: &mut W, bytes: &[u8]) -> io::Result<()> {
    out.write_all(bytes)
}

fn print_refusal<W: Write>(out: &mut W, r: Refusal) -> io::Result<()> {
    let mut line = [0u8; report::REFUSED_BYTES];
    let n = report::refused_line(&mut line, r);
    print(out, &line[..n])
}

// Prints the listing of the text's job, or the refusal's number.
fn print_listing<W: Write>(to: &mut W, text: &[u8]) -> io::Result<()> {
    let mut out = [0u8; report::LISTING_BYTES];
    let mut ranks = [0u8; sizes::ROOM_BYTES];
    let mut moves = [0u8; sizes::MOVES_BYTES];
    match report::listing(text, &mut out, &mut ranks, &mut moves) {
        Ok(n) => print(to, &out[..n]),
        Err(r) => print_refusal(to, r),
    }
}

// Says on standard error which stream failed, and why.
fn fail(rt: &impl Eprint, stream: &str, error: io::Error) -> io::Result<ExitCode> {
    eprintln!(rt; "{stream}: {error}")?;
    Ok(ExitCode::FAILURE)
}

fn main(rt: HostRuntime) -> io::Result<ExitCode> {
    let mut text = [0u8; INPUT_BYTES];
    match read_input(&mut rt.stdin(), &mut text) {
        Ok(n) => match print_listing(&mut rt.stdout(), &text[..n]) {
            Ok(()) => Ok(ExitCode::SUCCESS),
            Err(error) => fail(&rt, "standard output", error),
        },
        Err(error) => fail(&rt, "standard input", error),
    }
}
