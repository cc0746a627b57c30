// The states in which a row is true, listed in a lent buffer of 24 bytes.
#![tactic(auto)]

ghost use Rattle.std.specs.Prelude.{◌≡◌, ◌<◌, length};
ghost use Rattle.block.specs.Layout as L;
ghost use Rattle.block.specs.Refusal.{Answers, NoValue};
ghost use Rattle.block.specs.Inner.Valid.{Valid};
ghost use Rattle.lister.specs.States.{states_rules, StatesIn, front_of, StatesCall, RefusalCall, PartCall};
ghost use Rattle.turns.specs.Listed.{states_bytes};
ghost use Rattle.turns.specs.Sizes.{room_bytes};

use block::refusal::{Answer, Refusal};
use block::{fill, layout};
use solver::label;
use turns::{buffers, sets, sizes};
use ways::lines;

// The list has a byte for each state that a job can have.
const STATES_BYTES: usize = layout::MAX_STATES;

// The refusal of a call with a list and a room of these lengths, or 0.
fn turned_down(block: &[u8], i: usize, list: usize, room: usize) -> Answer
    ensures { Answers (states_rules block.now i list room) NoValue result }
{
    if list != STATES_BYTES {
        return Err(Refusal::Length);
    }
    if room != sizes::ROOM_BYTES {
        return Err(Refusal::Length);
    }
    admission::any_row(block, i)
}

// Lists the states of row i.
fn list_row(block: &[u8], i: usize, list: &mut [u8], room: &mut [u8]) -> usize
    requires valid { Valid block.now }
    requires i_bound { (i < L.rows block.now) × (length list.old ≡ states_bytes) × (length room.old ≡ room_bytes) }
    ensures { StatesIn block.now i list.new result × (length room.new ≡ room_bytes) }
{
    let mut words = [0u8; sizes::SETS_BYTES];
    let mut ways = [0u8; lines::WAYS_BYTES];
    label::label_needed(block, i, &mut words, &mut ways, room);
    label::label_row(block, i, &mut words, &mut ways, room);
    let set = buffers::word_at(&words, i);
    sets::list_set(set, list)
}

// The count of the states of row i, which are in the front of the list. The room is left filled with zeros, unless a buffer has another length.
pub fn fill_states(block: &[u8], i: usize, list: &mut [u8], room: &mut [u8]) -> Answer
    ensures { StatesCall block.now i list.old room.old list.new room.new result }
{
    match turned_down(block, i, list.len(), room.len()) {
        Ok(_) => {
            let n = list_row(block, i, list, room);
            fill::zeros(room, 0);
            Ok(n)
        }
        Err(r) => {
            fill::leave(room, r);
            Err(r)
        }
    }
}

// How much of the list is handed back.
fn front(a: Answer) -> usize
    ensures { result ≡ front_of a }
{
    a.unwrap_or(0)
}

// The part of the list that holds the states of row i: its front, and nothing of it where the call is refused.
pub fn states<'a>(block: &[u8], i: usize, list: &'a mut [u8], room: &mut [u8]) -> &'a mut [u8]
    ensures part_call { PartCall block.now i list.old room.old result.now room.new }
    ensures ref_ptr_value { result.ref_ptr ≡ list.entry.ref_ptr }
{
    let n = front(fill_states(block, i, list, room));
    &mut list[..n]
}

// The refusal of the same call, or 0.
pub fn states_refusal(block: &[u8], i: usize, list: &[u8], room: &mut [u8]) -> Answer
    ensures { RefusalCall block.now i list.now room.old room.new result }
{
    match turned_down(block, i, list.len(), room.len()) {
        Ok(_) => {
            fill::zeros(room, 0);
            Ok(0)
        }
        Err(r) => {
            fill::leave(room, r);
            Err(r)
        }
    }
}
