// A rehearsal of a row, reported in a lent buffer of four bytes.
ghost use Rattle.std.specs.Prelude.{cond, ◌≡◌, ◌≤◌, ◌<◌, length};
ghost use Rattle.block.specs.Layout as L;
ghost use Rattle.block.specs.Refusal.{Answers, NoValue, Kept};
ghost use Rattle.block.specs.Inner.Valid.{Valid};
ghost use Rattle.game.specs.Demand.{Demand3};
ghost use Rattle.turns.specs.Sizes.{room_bytes, rank_end};
ghost use Rattle.rehearsal.specs.Rehearsal.{script_bytes, report_bytes, finished_in, moves_in, last_in, admission_rules, play_rules, RowReports, RehearsalCall};

use crate::script;
use block::fill;
use block::refusal::{Answer, Refusal};
use solver::ready;
use turns::{buffers, positions, sizes};
use ways::lines;

const SCRIPT_BYTES: usize = 255;

const REPORT_BYTES: usize = 4;

// The refusal of a call with a script, a report and a room of these lengths, or 0.
fn turned_down(
    block: &[u8],
    i: usize,
    s: usize,
    script: usize,
    report: usize,
    room: usize,
) -> Answer
    ensures { Answers (admission_rules block.now i s script report room) NoValue result }
{
    if SCRIPT_BYTES < script {
        return Err(Refusal::Length);
    }
    if report != REPORT_BYTES {
        return Err(Refusal::Length);
    }
    if room != sizes::ROOM_BYTES {
        return Err(Refusal::Length);
    }
    admission::state(block, i, s)
}

// Stores a report.
fn store(report: &mut [u8], moves: usize, finished: bool, position: usize)
    requires { (length report.old ≡ report_bytes) × (moves ≤ script_bytes) × (position < rank_end) }
    ensures { (moves_in report.new ≡ moves) × (finished_in report.new ≡ cond finished 1 0) × (last_in report.new ≡ position) × (length report.new ≡ report_bytes) }
{
    buffers::set_rank(report, 1, position);
    report[0] = finished as u8;
    report[1] = moves as u8;
}

// Rehearses a strategic row and stores the report.
fn rehearse_row(
    block: &[u8],
    i: usize,
    s: usize,
    script: &[u8],
    report: &mut [u8],
    room: &mut [u8],
) -> Answer
    requires valid { Valid block.now }
    requires i_bound { (i < L.rows block.now) × L.Strategic (L.kind block.now i) × (s < L.states block.now) }
    requires script_len_bound { (length script.now ≤ script_bytes) × (length report.old ≡ report_bytes) × (length room.old ≡ room_bytes) }
    ensures answers { Answers (play_rules block.now i s script.now) (λ n. NoValue n × RowReports block.now i s script.now report.new) result }
    ensures kept { Kept report.old report.new result × (length room.new ≡ length room.old) }
{
    let mut ways = [0u8; lines::WAYS_BYTES];
    let ready = ready::prepare(block, i, &mut ways, room);
    let rank = buffers::rank_at(room, positions::full(block, i, s));
    if !rankings::claims(rankings::goal_of(block, i), rank) {
        return Err(Refusal::WrongSide);
    }
    match script::play(block, i, ready, &ways, room, s, script) {
        Some(ended) => {
            let position = ended.last.state * ready.row.places + ended.last.place;
            store(report, ended.moves, ended.finished, position);
            Ok(0)
        }
        None => Err(Refusal::Reply),
    }
}

// Rehearses row i from state s at full stock, a byte of the script for each reply. The room is left filled with zeros, unless a buffer has another
// length.
pub fn rehearse(
    block: &[u8],
    i: usize,
    s: usize,
    script: &[u8],
    report: &mut [u8],
    room: &mut [u8],
) -> Answer
    ensures rehearsal_call { RehearsalCall block.now i s script.now report.old room.old report.new room.new result }
    ensures demand3 { Demand3 block.now i }
{
    match turned_down(block, i, s, script.len(), report.len(), room.len()) {
        Ok(_) => {
            let answer = rehearse_row(block, i, s, script, report, room);
            fill::zeros(room, 0);
            answer
        }
        Err(r) => {
            fill::leave(room, r);
            Err(r)
        }
    }
}
