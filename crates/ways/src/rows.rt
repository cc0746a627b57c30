// A strategic row as it is played, a position of it, and a side of an attack.
ghost use Rattle.std.specs.Prelude.{Bool, true, ◌≡◌, ◌<◌};
ghost use Rattle.block.specs.Layout as L;
ghost use Rattle.block.specs.Inner.Valid.{Valid};
ghost use Rattle.ways.specs.Rows.{Playable};

use turns::positions;

// The row's number and how many stock places each state has. Where `into`, only moves that lead into the set whatever the reply matter. Where not
// `gives`, no listed move gives anything.
#[derive(Clone, Copy)]
pub struct Row {
    pub index: usize,
    pub places: usize,
    pub into: bool,
    pub set: usize,
    pub gives: bool,
}

// A position: its state, and the number of its stocks among the stock places.
#[derive(Clone, Copy)]
pub struct Spot {
    pub state: usize,
    pub place: usize,
}

// Who attacks, the coalition where `most`, and the safe states from which an attack goes on.
#[derive(Clone, Copy)]
pub struct Side {
    pub most: bool,
    pub safe: usize,
}

pub fn row_of(block: &[u8], i: usize, into: bool, set: usize) -> Row
    requires valid { Valid block.now }
    requires i_bound { (i < L.rows block.now) × L.Strategic (L.kind block.now i) }
    ensures { Playable block.now result × (result.index ≡ i) × (result.into ≡ into) × (result.set ≡ set) × (result.gives ≡ true) }
{
    Row {
        index: i,
        places: positions::stock_places(block, i),
        into: into,
        set: set,
        gives: true,
    }
}
