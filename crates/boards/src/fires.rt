// Whether a move serves the attack by what is ranked where it lands: until asks that all its next states are, always that one is.
ghost use Rattle.std.specs.Prelude.{true, false};
ghost use Rattle.block.specs.Inner.Tests.{Decides};
ghost use Rattle.boards.specs.Boards.{Fires, Newly};

pub fn fires(most: bool, to: usize, won: usize) -> bool
    ensures { Decides (Fires most to won) result }
{
    if most { to & won == to } else { to & won != 0 }
}

// Whether it does, by a state that is fresh.
pub fn newly(most: bool, to: usize, won: usize, fresh: usize) -> bool
    ensures { Decides (Newly most to won fresh) result }
{
    fires(false, to, fresh) && fires(most, to, won)
}
