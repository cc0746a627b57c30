// The states of a set, a 32-bit word with a bit for each state.
ghost use Rattle.std.specs.Prelude.{◌≡◌, ◌^◌, ◌<◌, length};
ghost use Rattle.std.specs.Int.Count.{ones};
ghost use Rattle.block.specs.Decide.{Bit};
ghost use Rattle.block.specs.Inner.Tests.{Lowest};
ghost use Rattle.block.specs.Layout as L;
ghost use Rattle.turns.specs.Listed.{states_bytes, Lists};
ghost use Rattle.turns.specs.Sizes.{set_bits};

use block::fill;

// How many states a set has.
pub fn count(set: usize) -> usize
    requires { set < 2 ^ set_bits }
    ensures { result ≡ ones set }
{
    u32::count_ones(set as u32) as usize
}

// The lowest state of a set that has one.
pub fn lowest(set: usize) -> usize
    requires { (0 < set) × (set < 2 ^ set_bits) }
    ensures { Lowest set result }
{
    u32::trailing_zeros(set as u32) as usize
}

// Lists the states of a set, and tells how many they are.
pub fn list_set(set: usize, list: &mut [u8]) -> usize
    requires { (set < 2 ^ L.max_states) × (length list.old ≡ states_bytes) }
    ensures { Lists (Bit set) list.new result × (result ≡ ones set) }
{
    fill::zeros(list, 0);
    let n = count(set);
    let mut from = 0;
    for k in 0..n {
        let s = from + lowest(set >> from);
        list[k] = s as u8;
        from = s + 1;
    }
    n
}
