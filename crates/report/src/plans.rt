// The plan lines of a strategic row: for each state in its set, rank and move at full stock.
ghost use Rattle.std.specs.Prelude.{◌≡◌, ℕ, ◌^◌, ◌≤◌, ◌<◌, length};
ghost use Rattle.block.specs.Decide.{Bit};
ghost use Rattle.block.specs.Layout as L;
ghost use Rattle.block.specs.Inner.Valid.{Valid};
ghost use Rattle.text.specs.Inner.Adding.{Adds, HasRoom, Within};
ghost use Rattle.turns.specs.Buffers.{table_in};
ghost use Rattle.report.specs.Listing.{plan_at, plan_lines};
ghost use Rattle.turns.specs.Sizes.{room_bytes, max_positions};

use printing::plan_line;
use text::output::Output;
use turns::{buffers, positions, sets};

// The plan line of state s.
fn plan_at(block: &[u8], i: usize, s: usize, ranks: &[u8], moves: &[u8], out: &mut Output)
    requires valid { Valid block.now }
    requires i_bound { (i < L.rows block.now) × L.Strategic (L.kind block.now i) × (s < L.states block.now) }
    requires room_bytes_in_bounds { (room_bytes ≤ length ranks.now) × (max_positions ≤ length moves.now) × HasRoom 41 out.old }
    ensures adds { Adds (plan_at block.now i (table_in ranks.now moves.now) s) out.old out.new }
    ensures within { Within 41 out.old out.new }
{
    let p = positions::full(block, i, s);
    plan_line(out, i, s, buffers::rank_at(ranks, p), moves[p]);
}

// The plan lines of row i, whose set is given: at most 24 of them, 984 bytes.
pub fn plan_lines(block: &[u8], i: usize, set: usize, ranks: &[u8], moves: &[u8], out: &mut Output)
    requires valid { Valid block.now }
    requires i_bound { (i < L.rows block.now) × L.Strategic (L.kind block.now i) }
    requires set_bound { (set < 2 ^ L.max_states) × ((s : ℕ) → Bit set s → s < L.states block.now) }
    requires room_bytes_in_bounds { (room_bytes ≤ length ranks.now) × (max_positions ≤ length moves.now) × HasRoom 984 out.old }
    ensures adds { Adds (plan_lines block.now i set (table_in ranks.now moves.now)) out.old out.new }
    ensures within { Within 984 out.old out.new }
{
    let mut from = 0;
    while set >> from != 0 {
        let s = from + sets::lowest(set >> from);
        plan_at(block, i, s, ranks, moves, out);
        from = s + 1;
    }
}
