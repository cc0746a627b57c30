// The spellings of a field.
ghost use Rattle.std.specs.Prelude.{◌∷◌, [], ◌++◌, ◌≡◌, ◌+◌, ◌≤◌, ◌<◌};
ghost use Rattle.block.specs.Layout.{kinds, max_kind};
ghost use Rattle.text.specs.declared.sizes.Edition.TheVariants as Edition;
ghost use Rattle.text.specs.Job as J;
ghost use Rattle.text.specs.Numeral.{numbers, decimal};
ghost use Rattle.text.specs.Inner.Adding.{Adds, HasRoom, SameBuffer, Within};
ghost use Rattle.writer.specs.Inner.Lengths.{field_bytes, index_bytes, word_bytes, resource_bytes};

use block::layout;
use text::output::Output;

// A number and the comma or line end after it.
pub fn number(out: &mut Output, n: usize, sep: u8)
    requires { HasRoom field_bytes out.old × (n < numbers) }
    ensures adds { Adds (decimal n ++ sep ∷ []) out.old out.new }
    ensures within { Within field_bytes out.old out.new × (n < 100 → Within index_bytes out.old out.new) }
{
    out.field(n, sep);
}

// A cost and the comma or line end after it; a charge has a minus.
pub fn cost(out: &mut Output, v: usize, sep: u8)
    requires { HasRoom field_bytes out.old × (v < numbers) }
    ensures adds { Adds (J.cost_field ((J.cost_spelling Edition.Second 0 0 0).chosen v) ++ sep ∷ []) out.old out.new }
    ensures within { Within field_bytes out.old out.new }
{
    if v < layout::CHARGE_BYTE {
        number(out, v, sep);
    } else {
        out.put(b'-');
        out.field(layout::BYTE_VALUES - v, sep);
    }
}

// A bound and a comma; an unlimited one is inf.
pub fn bound(out: &mut Output, v: usize)
    requires { HasRoom field_bytes out.old × (v < numbers) }
    ensures adds { Adds ((J.bound).spell ((J.bound).chosen v)) out.old out.new }
    ensures within { Within field_bytes out.old out.new }
{
    if v == layout::UNLIMITED {
        out.word(b"inf,");
    } else {
        number(out, v, b',');
    }
}

// The word of a row's kind.
pub fn kind(out: &mut Output, k: usize)
    requires { HasRoom word_bytes out.old × (k < kinds) }
    ensures adds { Adds (J.kind_word k) out.old out.new }
    ensures within { Within word_bytes out.old out.new }
{
    match k {
        layout::PROP_KIND => out.word(b"prop,"),
        layout::NOT_KIND => out.word(b"not,"),
        layout::OR_KIND => out.word(b"or,"),
        layout::NEXT_KIND => out.word(b"next,"),
        layout::ALWAYS_KIND => out.word(b"always,"),
        _ => out.word(b"until,"),
    }
}

// The word of a resource's kind, and the comma or line end after it.
pub fn resource(out: &mut Output, k: usize, sep: u8)
    requires { HasRoom field_bytes out.old × (k ≤ max_kind) }
    ensures adds { Adds (J.resource_word k ++ sep ∷ []) out.old out.new }
    ensures within { Within field_bytes out.old out.new }
{
    resource_word(out, k);
    out.put(sep);
}

fn resource_word(out: &mut Output, k: usize)
    requires { HasRoom resource_bytes out.old × (k ≤ max_kind) }
    ensures adds { Adds (J.resource_word k) out.old out.new × (out.new.len ≡ out.old.len + resource_bytes) }
    ensures same_buffer { SameBuffer out.old out.new }
{
    match k {
        layout::SUM_KIND => out.word(b"sum"),
        _ => out.word(b"max"),
    }
}
