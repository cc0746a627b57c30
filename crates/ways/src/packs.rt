// Stock places by their stocks, packed in one number with a free bit above each stock: so a place is asked for what it can pay by one
// subtraction.
ghost use Rattle.std.specs.Prelude.{◌≡◌, ◌/◌, ◌%◌, ◌^◌, ◌<◌, length};
ghost use Rattle.block.specs.Inner.Tests.{Decides};
ghost use Rattle.block.specs.Layout as L;
ghost use Rattle.block.specs.Inner.Valid.{Valid};
ghost use Rattle.game.specs.Model.{arena_of};
ghost use Rattle.turns.specs.Sizes.{max_stock_places};
ghost use Rattle.ways.specs.Lines.{ways_bytes, packed_in};
ghost use Rattle.ways.specs.Rows.{Playable};
ghost use Rattle.ways.specs.Packed.{pack_base, PackedAt, Packs, Narrow, Covers, filled_place};

use crate::lines;
use crate::rows::Row;
use block::layout;
use turns::{positions, sizes};

const PACK_BASE: usize = 2 * sizes::MAX_STOCKS;

// The free bit above the stock of resource 0, and that above the stock of resource 1.
const LOW_GUARD: usize = sizes::MAX_STOCKS;

const HIGH_GUARD: usize = PACK_BASE * sizes::MAX_STOCKS;

// The packed stocks at place x.
fn pack_at(block: &[u8], i: usize, x: usize) -> usize
    requires valid { Valid block.now }
    requires i_bound { (i < L.rows block.now) × L.Strategic (L.kind block.now i) }
    ensures { PackedAt (arena_of block.now i) x result × (result < pack_base ^ L.max_resources) }
{
    let n = layout::resources(block);
    let mut rest = x;
    let mut packed = 0;
    for j in (0..n).rev() {
        let c = positions::places(block, i, j);
        packed = packed * PACK_BASE + rest % c;
        rest /= c;
    }
    packed
}

// The packed stocks of all stock places of the row.
pub fn fill_packs(block: &[u8], row: Row, ways: &mut [u8])
    requires valid { Valid block.now }
    requires playable { Playable block.now row × (length ways.old ≡ ways_bytes) }
    ensures { Packs (arena_of block.now row.index) ways.new × (length ways.new ≡ ways_bytes) }
{
    let i = row.index;
    let c = row.places;
    for x in 0..c {
        lines::set_packed(ways, x, pack_at(block, i, x));
    }
}

// The stocks of a place, taken apart.
#[derive(Clone, Copy)]
pub struct Digits {
    pub low: usize,
    pub high: usize,
}

pub fn unpack(ways: &[u8], x: usize) -> Digits
    requires { (length ways.now ≡ ways_bytes) × (x < max_stock_places) }
    ensures { (result.low ≡ packed_in ways.now x % pack_base) × (result.high ≡ packed_in ways.now x / pack_base) }
{
    let w = lines::packed(ways, x);
    Digits {
        low: w % PACK_BASE,
        high: w / PACK_BASE,
    }
}

// Place x with what stands at place g more, as far as there is room below the last place.
pub fn filled(ways: &[u8], last: usize, x: usize, g: usize) -> usize
    requires ways_len { (length ways.now ≡ ways_bytes) × (last < max_stock_places) × (x < max_stock_places) × (g < max_stock_places) }
    requires narrow { Narrow (packed_in ways.now last) × Narrow (packed_in ways.now x) × Narrow (packed_in ways.now g) }
    ensures { result ≡ filled_place (packed_in ways.now last) (packed_in ways.now x) (packed_in ways.now g) }
{
    let full = lines::packed(ways, last);
    let sum = lines::packed(ways, x) + lines::packed(ways, g);
    let low = (full % PACK_BASE).min(sum % PACK_BASE);
    let high = (full / PACK_BASE).min(sum / PACK_BASE);
    low * (full / PACK_BASE + 1) + high
}

// Whether place x has what stands at place o.
pub fn covers(ways: &[u8], x: usize, o: usize) -> bool
    requires ways_len { (length ways.now ≡ ways_bytes) × (x < max_stock_places) × (o < max_stock_places) }
    requires narrow { Narrow (packed_in ways.now x) × Narrow (packed_in ways.now o) }
    ensures { Decides (Covers ways.now x o) result }
{
    let rest = lines::packed(ways, x) + (LOW_GUARD + HIGH_GUARD) - lines::packed(ways, o);
    rest / LOW_GUARD % 2 == 1 && rest / HIGH_GUARD % 2 == 1
}
