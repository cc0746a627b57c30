// Bits of a mask.
ghost use Rattle.std.specs.Prelude.{◌<◌};
ghost use Rattle.block.specs.Decide.{BitFrom};
ghost use Rattle.block.specs.Inner.Tests.{Decides};

// Whether the mask m has a bit at or above p.
pub fn bit_from(m: usize, p: usize) -> bool
    requires { p < 64 }
    ensures { Decides (BitFrom p m) result }
{
    m >> p != 0
}
