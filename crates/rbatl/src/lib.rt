// The C library: each call of documents 01 and 02 under its C name, and nothing else. include/rbatl.h is its header.
#![tactic(auto)]

ghost use Rattle.std.specs.Prelude.{[], ◌∷◌, ◌≡◌};
ghost use Rattle.text.specs.Text.{read_call, block_after, Exact, Numbered};
ghost use Rattle.game.specs.Demand.{Demand3};
ghost use Rattle.rbatl.specs.Answer.{CheckAnswer, read_answer, StopAnswer, WriteAnswer, LabelAnswer, TableAnswer, Small, answer_code, MoveAnswer, ReplyAnswer, SheetAnswer, RehearsalAnswer, AllowancesAnswer, StatesAnswer, RefusalAnswer, ListAnswer};

use block::refusal;
use block::refusal::Answer;

// The number that is handed back: a value, or minus the number of a refusal.
fn code(a: Answer) -> i32
    requires { Small a }
    ensures { result ≡ answer_code a }
{
    match a {
        Ok(n) => n as i32,
        Err(r) => -(r.number() as i32),
    }
}

#[unsafe(no_mangle)]
pub extern "C" fn rbatl_check(block: &[u8]) -> i32
    ensures { CheckAnswer block.now result }
{
    code(validate::check(block))
}

#[unsafe(no_mangle)]
pub extern "C" fn rbatl_read(text: &[u8], block: &mut [u8]) -> i32
    ensures value { result ≡ read_answer text.now block.old }
    ensures block_after { block.new ≡ block_after block.old (read_call text.now block.old) }
    ensures exact { Exact text.now }
    ensures numbered { Numbered text.now }
{
    code(reader::read(text, block))
}

#[unsafe(no_mangle)]
pub extern "C" fn rbatl_read_at(text: &[u8]) -> i32
    ensures { StopAnswer text.now result }
{
    code(reader::read_at(text))
}

#[unsafe(no_mangle)]
pub extern "C" fn rbatl_write(block: &[u8], text: &mut [u8]) -> i32
    ensures { WriteAnswer block.now text.old text.new result }
{
    code(writer::write(block, text))
}

#[unsafe(no_mangle)]
pub extern "C" fn rbatl_label(block: &[u8], sets: &mut [u8], room: &mut [u8]) -> i32
    ensures { LabelAnswer block.now sets.old room.old sets.new room.new result }
{
    code(solver::label::label(block, sets, room))
}

#[unsafe(no_mangle)]
pub extern "C" fn rbatl_table(block: &[u8], row: u8, ranks: &mut [u8], moves: &mut [u8]) -> i32
    ensures table_answer { TableAnswer block.now row ranks.old moves.old ranks.new moves.new result }
    ensures demand3 { Demand3 block.now row }
{
    code(solver::table::table(block, row as usize, ranks, moves))
}

#[unsafe(no_mangle)]
pub extern "C" fn rbatl_move(
    block: &[u8],
    row: u8,
    state: u8,
    stock0: u8,
    stock1: u8,
    room: &mut [u8],
) -> i32
    ensures move_answer { MoveAnswer block.now row state (stock0 ∷ stock1 ∷ []) room.old room.new result }
    ensures demand3 { Demand3 block.now row }
{
    code(lookup::coalition::coalition_move(
        block,
        row as usize,
        state as usize,
        stock0,
        stock1,
        room,
    ))
}

#[unsafe(no_mangle)]
pub extern "C" fn rbatl_reply(
    block: &[u8],
    row: u8,
    state: u8,
    stock0: u8,
    stock1: u8,
    mv: u8,
    room: &mut [u8],
) -> i32
    ensures reply_answer { ReplyAnswer block.now row state (stock0 ∷ stock1 ∷ []) mv room.old room.new result }
    ensures demand3 { Demand3 block.now row }
{
    code(lookup::opponents::reply(
        block,
        row as usize,
        state as usize,
        stock0,
        stock1,
        mv as usize,
        room,
    ))
}

#[unsafe(no_mangle)]
pub extern "C" fn rbatl_worksheet(
    block: &[u8],
    row: u8,
    list: &[u8],
    words: &mut [u8],
    room: &mut [u8],
) -> i32
    ensures sheet_answer { SheetAnswer block.now row list.now words.old room.old words.new room.new result }
    ensures demand3 { Demand3 block.now row }
{
    code(sheets::worksheet(block, row as usize, list, words, room))
}

#[unsafe(no_mangle)]
pub extern "C" fn rbatl_rehearse(
    block: &[u8],
    row: u8,
    state: u8,
    script: &[u8],
    report: &mut [u8],
    room: &mut [u8],
) -> i32
    ensures rehearsal_answer { RehearsalAnswer block.now row state script.now report.old room.old report.new room.new result }
    ensures demand3 { Demand3 block.now row }
{
    code(rehearsal::call::rehearse(block, row as usize, state as usize, script, report, room))
}

#[unsafe(no_mangle)]
pub extern "C" fn rbatl_allowances(
    block: &[u8],
    row: u8,
    state: u8,
    list: &mut [u8],
    room: &mut [u8],
) -> i32
    ensures { AllowancesAnswer block.now row state list.old room.old list.new room.new result }
{
    code(allowances::call::allowances(block, row as usize, state as usize, list, room))
}

#[unsafe(no_mangle)]
pub extern "C" fn rbatl_states(block: &[u8], row: u8, list: &mut [u8], room: &mut [u8]) -> i32
    ensures { StatesAnswer block.now row list.old room.old list.new room.new result }
{
    code(lister::fill_states(block, row as usize, list, room))
}

#[unsafe(no_mangle)]
pub extern "C" fn rbatl_states_refusal(block: &[u8], row: u8, list: &[u8], room: &mut [u8]) -> i32
    ensures { RefusalAnswer block.now row list.now room.old room.new result }
{
    code(lister::states_refusal(block, row as usize, list, room))
}

#[unsafe(no_mangle)]
pub extern "C" fn rbatl_list(
    text: &[u8],
    listing: &mut [u8],
    ranks: &mut [u8],
    moves: &mut [u8],
) -> i32
    ensures { ListAnswer text.now listing.old ranks.old moves.old listing.new ranks.new moves.new result }
{
    code(report::listing(text, listing, ranks, moves))
}
