// Words in lent buffers, lowest byte first: the rank of a position, and the set of a row with a bit for each state. They have two, four and three
// bytes, each by one call of the library at an integer of its own: no const argument is computed from a type.
ghost use Rattle.std.specs.Prelude.{◌≡◌, ◌↔◌, ◌⊎◌, ℕ, ◌+◌, ◌*◌, ◌^◌, ◌≤◌, ◌<◌, length};
ghost use Rattle.block.specs.Decide.{Bit};
ghost use Rattle.block.specs.Inner.Tests.{Decides};
ghost use Rattle.turns.specs.Buffers.{rank_in, word_in, narrow_in};
ghost use Rattle.turns.specs.Sizes.{set_bits, narrow_bits, rank_end};
ghost use Rattle.turns.specs.Inner.Stores.{Stored, Lowered};

// The rank of position p.
pub fn rank_at(ranks: &[u8], p: usize) -> usize
    requires { 2 * p + 1 < length ranks.now }
    ensures { (result ≡ rank_in ranks.now p) × (result < rank_end) }
{
    u16::from_le_bytes([ranks[2 * p], ranks[2 * p + 1]]) as usize
}

// Stores the rank of position p.
pub fn set_rank(ranks: &mut [u8], p: usize, v: usize)
    requires { (2 * p + 1 < length ranks.old) × (v < rank_end) }
    ensures { Stored rank_in ranks.old ranks.new p v }
{
    ranks[2 * p..2 * p + 2].copy_from_slice(&(v as u16).to_le_bytes());
}

// Lowers the rank of position p to v, unless it is as low already. Tells whether it did.
pub fn lower(ranks: &mut [u8], p: usize, v: usize) -> bool
    requires { 2 * p + 1 < length ranks.old }
    ensures { Lowered result ranks.old ranks.new p v }
{
    if rank_at(ranks, p) <= v {
        return false;
    }
    set_rank(ranks, p, v);
    true
}

// The set of row i.
pub fn word_at(sets: &[u8], i: usize) -> usize
    requires { 4 * i + 3 < length sets.now }
    ensures { (result ≡ word_in sets.now i) × (result < 2 ^ set_bits) }
{
    u32::from_le_bytes([
        sets[4 * i],
        sets[4 * i + 1],
        sets[4 * i + 2],
        sets[4 * i + 3],
    ]) as usize
}

// Stores the set of row i.
pub fn set_word(sets: &mut [u8], i: usize, w: usize)
    requires { (4 * i + 3 < length sets.old) × (w < 2 ^ set_bits) }
    ensures { Stored word_in sets.old sets.new i w }
{
    sets[4 * i..4 * i + 4].copy_from_slice(&(w as u32).to_le_bytes());
}

// A set of states of three bytes, the i-th of a buffer.
pub fn narrow_at(sets: &[u8], i: usize) -> usize
    requires { 3 * i + 2 < length sets.now }
    ensures { (result ≡ narrow_in sets.now i) × (result < 2 ^ narrow_bits) }
{
    u32::from_le_bytes([sets[3 * i], sets[3 * i + 1], sets[3 * i + 2], 0]) as usize
}

// Stores it.
pub fn set_narrow(sets: &mut [u8], i: usize, w: usize)
    requires { (3 * i + 2 < length sets.old) × (w < 2 ^ narrow_bits) }
    ensures { Stored narrow_in sets.old sets.new i w }
{
    sets[3 * i..3 * i + 3].copy_from_slice(&(w as u32).to_le_bytes()[..3]);
}

// Whether the word w has bit s.
pub fn has_bit(w: usize, s: usize) -> bool
    requires { s < set_bits }
    ensures { Decides (Bit w s) result }
{
    (w >> s) % 2 == 1
}

// The word w with bit s besides.
pub fn with_bit(w: usize, s: usize) -> usize
    requires { (s < set_bits) × (w < 2 ^ set_bits) }
    ensures { ((n : ℕ) → s < n → w < 2 ^ n → result < 2 ^ n) × ((x : ℕ) → Bit result x ↔ (Bit w x ⊎ (x ≡ s))) }
{
    w | 1 << s
}
