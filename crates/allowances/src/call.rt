// The smallest allowances for a state, in a lent list of 32 bytes.
ghost use Rattle.std.specs.Prelude.{◌≡◌, ◌<◌, length};
ghost use Rattle.block.specs.Layout as L;
ghost use Rattle.block.specs.Refusal.{Answers, NoValue};
ghost use Rattle.block.specs.Inner.Valid.{Valid};
ghost use Rattle.turns.specs.Sizes.{room_bytes};
ghost use Rattle.allowances.specs.Allowances.{allowances_bytes, AllowancesIn, allowances_rules, AllowancesCall};

use crate::pairs;
use block::refusal::{Answer, Refusal};
use block::{fill, layout};
use solver::ready;
use turns::sizes;
use ways::lines;

// The list has a byte for each resource of as many allowances as there can be.
const LIST_BYTES: usize = layout::MAX_RESOURCES * sizes::MAX_STOCKS;

// The refusal of a call with a list and a room of these lengths, or 0.
fn turned_down(block: &[u8], i: usize, s: usize, list: usize, room: usize) -> Answer
    ensures { Answers (allowances_rules block.now i s list room) NoValue result }
{
    if list != LIST_BYTES {
        return Err(Refusal::Length);
    }
    if room != sizes::ROOM_BYTES {
        return Err(Refusal::Length);
    }
    admission::state(block, i, s)
}

// Lists them. The rows below are labelled once; the row itself is solved with other bounds in a copy of the job, once where nothing charges.
fn find(block: &[u8], i: usize, s: usize, list: &mut [u8], room: &mut [u8]) -> usize
    requires valid { Valid block.now }
    requires i_bound { (i < L.rows block.now) × L.Strategic (L.kind block.now i) × (s < L.states block.now) }
    requires list_len { (length list.old ≡ allowances_bytes) × (length room.old ≡ room_bytes) }
    ensures { AllowancesIn block.now i s list.new result × (length room.new ≡ room_bytes) }
{
    let mut ways = [0u8; lines::WAYS_BYTES];
    let lower = ready::lower_sets(block, i, &mut ways, room);
    let mut copy = [0u8; layout::BLOCK_BYTES];
    let ask = pairs::made_ready(block, i, s, lower, &mut copy, &mut ways, room);
    fill::zeros(list, 0);
    pairs::list_pairs(block, ask, list, &mut copy, &mut ways, room)
}

// The count of the smallest allowances with which row i is true in state s, which are in the front of the list. The room is left filled with
// zeros, unless a buffer has another length.
pub fn allowances(block: &[u8], i: usize, s: usize, list: &mut [u8], room: &mut [u8]) -> Answer
    ensures { AllowancesCall block.now i s list.old room.old list.new room.new result }
{
    match turned_down(block, i, s, list.len(), room.len()) {
        Ok(_) => {
            let n = find(block, i, s, list, room);
            fill::zeros(room, 0);
            Ok(n)
        }
        Err(r) => {
            fill::leave(room, r);
            Err(r)
        }
    }
}
