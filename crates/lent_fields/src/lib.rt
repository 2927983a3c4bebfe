// The fixed fields of a rule of a deck, in a lent table.
#![tactic(auto)]

ghost use Rattle.std.specs.Prelude.{Ok};
ghost use Rattle.fixed.specs.Fixed.{fields_values, fields_answer};
ghost use Rattle.lent.specs.Lent.{fields_width, Lends};

use format::Outcome;
use rule::Fields;

#[tactic(auto, using(buffer::specs::Laws::Laid::bit_from))]
fn put_fields(t: &mut [u32], f: Fields) -> Outcome
    ensures { Lends fields_width t.old (Ok 0, fields_values f) result t.new }
{
    lent::put_row(
        t,
        &[
            f.signature,
            u32::from(f.on),
            f.unknown2,
            f.unknown3,
            f.unknown4,
            f.unknown5,
        ],
    )
}

// The fixed fields of rule k.
#[tactic(auto, unfolding(lent::specs::Lent::lent_says, lent::specs::Lent::lent_leaves))]
pub fn fields(edition: u64, s: &[u8], k: u64, t: &mut [u32]) -> Outcome
    ensures { Lends fields_width t.old (fields_answer edition k s.now) result t.new }
{
    let f = fixed::fixed(edition, s, k)?;
    put_fields(t, f)
}
