// Lists the moves of each state of a row, the replies there and what the moves take, so that nothing looks for them again.
ghost use Rattle.std.specs.Prelude.{true, false, ◌≡◌, ℕ, ◌+◌, ◌*◌, ◌≤◌, ◌<◌, length, get_or};
ghost use Rattle.block.specs.Decide.{Bit};
ghost use Rattle.block.specs.Inner.Tests.{Decides};
ghost use Rattle.block.specs.Layout as L;
ghost use Rattle.block.specs.Inner.Valid.{Valid};
ghost use Rattle.game.specs.Position.{MoveOf, Affordable, full};
ghost use Rattle.game.specs.Inner.Stocks.{offset};
ghost use Rattle.game.specs.Model.{structure_of, coalition_of, arena_of};
ghost use Rattle.parts.specs.Inner.Table.{PartsTable};
ghost use Rattle.turns.specs.Inner.Rules.{ReplyTo};
ghost use Rattle.ways.specs.Lines.{ways_bytes, field_place, count_in, number_in, count_at, line_at, takes_at};
ghost use Rattle.ways.specs.Listing.{LeadsInto, Eligible, Listable, LineOf, EffectsOf, StateGives, AnyGives, StateListed, Listed, SameOutside};
ghost use Rattle.ways.specs.Rows.{Playable, SameRow};

use crate::rows::Row;
use crate::{lines, packs};
use block::layout;
use parts::Table;
use turns::{buffers, moves, positions};

// Whether full stock pays the move m of row i's team in state s.
fn payable_at_all(block: &[u8], i: usize, s: usize, m: usize) -> bool
    requires valid { Valid block.now }
    requires i_bound { (i < L.rows block.now) × L.Strategic (L.kind block.now i) × (s < L.states block.now) }
    requires move_of { MoveOf (structure_of block.now) (coalition_of block.now i) s m }
    ensures { Decides (Affordable (arena_of block.now i) (full (arena_of block.now i) s) m) result }
{
    let n = layout::resources(block);
    (0..n).all(|j| positions::taken(block, i, s, m, j) < positions::places(block, i, j))
}

// Whether the k-th reply that is listed in state s leads with the move m into the row's set.
fn leads_by(block: &[u8], row: Row, ways: &[u8], s: usize, m: usize, k: usize) -> bool
    requires valid { Valid block.now }
    requires playable { Playable block.now row × (s < L.states block.now) × (length ways.now ≡ ways_bytes) }
    requires move_of { MoveOf (structure_of block.now) (coalition_of block.now row.index) s m }
    requires line_of { LineOf (ReplyTo block.now row.index s) (number_in ways.now s false) (count_in ways.now s false) × (k < count_in ways.now s false) }
    ensures { Decides (Bit row.set (L.next block.now s (m + number_in ways.now s false k))) result }
{
    let r = lines::number(ways, s, false, k);
    buffers::has_bit(row.set, layout::next(block, s, m + r))
}

// Whether each of them does.
fn leads_into(block: &[u8], row: Row, ways: &[u8], s: usize, m: usize) -> bool
    requires valid { Valid block.now }
    requires playable { Playable block.now row × (s < L.states block.now) × (length ways.now ≡ ways_bytes) }
    requires move_of { MoveOf (structure_of block.now) (coalition_of block.now row.index) s m }
    requires line_of { LineOf (ReplyTo block.now row.index s) (number_in ways.now s false) (count_in ways.now s false) }
    ensures { Decides (LeadsInto block.now row.index s m row.set) result }
{
    let n = lines::count(ways, s, false);
    (0..n).all(|k| leads_by(block, row, ways, s, m, k))
}

// Whether the move m matters to the row: by where it leads, if only moves into the set do.
fn matters(block: &[u8], row: Row, ways: &[u8], s: usize, m: usize) -> bool
    requires valid { Valid block.now }
    requires playable { Playable block.now row × (s < L.states block.now) × (length ways.now ≡ ways_bytes) }
    requires move_of { MoveOf (structure_of block.now) (coalition_of block.now row.index) s m }
    requires line_of { LineOf (ReplyTo block.now row.index s) (number_in ways.now s false) (count_in ways.now s false) }
    ensures { Decides (row.into ≡ true → LeadsInto block.now row.index s m row.set) result }
{
    !row.into || leads_into(block, row, ways, s, m)
}

// Whether the number m can be listed: as a move that full stock pays where ours, and else as a reply. The cost is asked for last, since it
// takes most time.
fn is_eligible(
    block: &[u8],
    parts: &Table,
    row: Row,
    ways: &[u8],
    s: usize,
    ours: bool,
    m: usize,
) -> bool
    requires valid { Valid block.now }
    requires playable { Playable block.now row × (s < L.states block.now) × (length ways.now ≡ ways_bytes) }
    requires line_of { ours ≡ true → LineOf (ReplyTo block.now row.index s) (number_in ways.now s false) (count_in ways.now s false) }
    requires parts_table { PartsTable parts.now }
    ensures { Decides (Eligible block.now row s ours m) result }
{
    let i = row.index;
    if !ours {
        return moves::is_reply(block, parts, i, s, m);
    }
    moves::is_move(block, parts, s, layout::team(block, i), m)
        && matters(block, row, ways, s, m)
        && payable_at_all(block, i, s, m)
}

// Whether a line of moves into the set ends with the move m, since it takes nothing.
fn ends_line(block: &[u8], row: Row, s: usize, ours: bool, m: usize) -> bool
    requires valid { Valid block.now }
    requires playable { Playable block.now row × (s < L.states block.now) }
    requires move_of { ours ≡ true → MoveOf (structure_of block.now) (coalition_of block.now row.index) s m }
    ensures { Decides ((ours ≡ true) × (row.into ≡ true) × (offset (arena_of block.now row.index) (full (arena_of block.now row.index) s) m ≡ 0)) result }
{
    ours && row.into && positions::effect_of(block, row.index, s, m).takes == 0
}

// Lists the moves of state s, or the replies there, in rising order. Answers how many there are.
fn list_line(block: &[u8], parts: &Table, row: Row, s: usize, ours: bool, ways: &mut [u8]) -> usize
    requires valid { Valid block.now }
    requires playable { Playable block.now row × (s < L.states block.now) × (length ways.old ≡ ways_bytes) }
    requires line_of { ours ≡ true → LineOf (ReplyTo block.now row.index s) (number_in ways.old s false) (count_in ways.old s false) }
    requires parts_table { PartsTable parts.now }
    ensures line_of_2 { LineOf (Listable block.now row s ours) (number_in ways.new s ours) result }
    ensures same_outside { SameOutside (field_place s (line_at ours)) (field_place s (line_at ours) + L.max_joint) ways.old ways.new }
{
    let limit = moves::numbers(block, parts, row.index, ours);
    let mut n = 0;
    for m in 0..limit {
        if is_eligible(block, parts, row, ways, s, ours, m) {
            lines::set_number(ways, s, ours, n, m);
            n += 1;
            if ends_line(block, row, s, ours, m) {
                return n;
            }
        }
    }
    n
}

// Stores what each listed move of state s takes and gives.
fn list_effects(block: &[u8], row: Row, s: usize, ways: &mut [u8])
    requires valid { Valid block.now }
    requires playable { Playable block.now row × (s < L.states block.now) × (length ways.old ≡ ways_bytes) }
    requires line_of { LineOf (Listable block.now row s true) (number_in ways.old s true) (count_in ways.old s true) }
    ensures effects_of { EffectsOf block.now row s ways.new }
    ensures same_outside { SameOutside (field_place s takes_at) (field_place (s + 1) 0) ways.old ways.new }
{
    let i = row.index;
    let n = lines::count(ways, s, true);
    for k in 0..n {
        let m = lines::number(ways, s, true, k);
        let e = positions::effect_of(block, i, s, m);
        lines::set_effect(ways, s, k, e.takes, e.gives);
    }
}

// Lists state s.
fn list_state(block: &[u8], parts: &Table, row: Row, s: usize, ways: &mut [u8])
    requires valid { Valid block.now }
    requires playable { Playable block.now row × (s < L.states block.now) × (length ways.old ≡ ways_bytes) }
    requires parts_table { PartsTable parts.now }
    ensures state_listed { StateListed block.now row s ways.new }
    ensures same_outside { SameOutside (field_place s 0) (field_place (s + 1) 0) ways.old ways.new }
{
    let replies = list_line(block, parts, row, s, false, ways);
    lines::set_count(ways, s, false, replies);
    let moves = list_line(block, parts, row, s, true, ways);
    lines::set_count(ways, s, true, moves);
    list_effects(block, row, s, ways);
}

// Whether a listed move of state s gives something.
fn state_gives(ways: &[u8], s: usize) -> bool
    requires { (length ways.now ≡ ways_bytes) × (s < L.max_states) × (count_in ways.now s true ≤ L.max_joint) }
    ensures { Decides (StateGives ways.now s) result }
{
    let n = lines::count(ways, s, true);
    (0..n).any(|k| 0 < lines::given(ways, s, k))
}

// Whether any listed move gives something.
fn any_gives(block: &[u8], row: Row, ways: &[u8]) -> bool
    requires valid { Valid block.now }
    requires playable { Playable block.now row × Listed block.now row ways.now }
    ensures { Decides (AnyGives block.now ways.now) result }
{
    let n = layout::states(block);
    (0..n).any(|s| state_gives(ways, s))
}

// Lists all of a row.
pub fn list_row(block: &[u8], row: Row, ways: &mut [u8])
    requires valid { Valid block.now }
    requires playable { Playable block.now row × (length ways.old ≡ ways_bytes) × (row.gives ≡ true) }
    ensures { Listed block.now row ways.new }
{
    packs::fill_packs(block, row, ways);
    let parts = parts::table();
    let n = layout::states(block);
    for s in 0..n {
        list_state(block, &parts, row, s, ways);
    }
}

// A row that is listed, with whether any of its listed moves gives something.
pub fn known(block: &[u8], row: Row, ways: &[u8]) -> Row
    requires valid { Valid block.now }
    requires playable { Playable block.now row × Listed block.now row ways.now }
    ensures { Playable block.now result × Listed block.now result ways.now × SameRow row result }
{
    Row {
        gives: any_gives(block, row, ways),
        ..row
    }
}
