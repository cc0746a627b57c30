// The lines of the listing. Each number is given room for eight digits.
#![tactic(auto)]

ghost use Rattle.std.specs.Prelude.{◌^◌, ◌<◌};
ghost use Rattle.block.specs.Layout.{max_states};
ghost use Rattle.text.specs.Inner.Adding.{Adds, HasRoom, Within};
ghost use Rattle.text.specs.Numeral as F;
ghost use Rattle.printing.specs.Lines.{list_line, set_line, plan_line, refused_line};

use text::output::Output;
use turns::sets;

// A number of at most eight digits, and the byte after it.
fn number(out: &mut Output, n: usize, sep: u8)
    requires { HasRoom 9 out.old × (n < 10 ^ 8) }
    ensures adds { Adds (F.field n sep) out.old out.new }
    ensures within { Within 9 out.old out.new }
{
    out.field(n, sep);
}

pub fn list_line(out: &mut Output, rows: usize)
    requires { HasRoom 14 out.old × (rows < 10 ^ 8) }
    ensures adds { Adds (list_line rows) out.old out.new }
    ensures within { Within 14 out.old out.new }
{
    out.word(b"list,");
    number(out, rows, b'\n');
}

pub fn refused_line(out: &mut Output, refusal: u8)
    requires { HasRoom 17 out.old }
    ensures adds { Adds (refused_line refusal) out.old out.new }
    ensures within { Within 17 out.old out.new }
{
    out.word(b"refused,");
    number(out, usize::from(refusal), b'\n');
}

pub fn set_line(out: &mut Output, i: usize, set: usize)
    requires { HasRoom 31 out.old × ((i < 10 ^ 8) × (set < 2 ^ max_states)) }
    ensures adds { Adds (set_line i set) out.old out.new }
    ensures within { Within 31 out.old out.new }
{
    let states = sets::count(set);
    out.word(b"set,");
    number(out, i, b',');
    number(out, states, b',');
    number(out, set, b'\n');
}

pub fn plan_line(out: &mut Output, i: usize, s: usize, rank: usize, m: u8)
    requires { HasRoom 41 out.old × ((i < 10 ^ 8) × ((s < 10 ^ 8) × (rank < 10 ^ 8))) }
    ensures adds { Adds (plan_line i s rank m) out.old out.new }
    ensures within { Within 41 out.old out.new }
{
    out.word(b"plan,");
    number(out, i, b',');
    number(out, s, b',');
    number(out, rank, b',');
    number(out, usize::from(m), b'\n');
}
