// The fixed fields of a rule of a deck.
#![tactic(auto)]

ghost use Rattle.std.specs.Prelude.{◌≡◌};
ghost use Rattle.asked.specs.Laws.Asked.{Tells};
ghost use Rattle.fixed.specs.Laws.Fixed.{Kept};
ghost use Rattle.fixed.specs.Fixed.{fixed_at, fixed_fields, fields_say, fields_answer};

use format::{Fault, Refusal};
use rule::Fields;

// What the fixed fields of a rule are answered as.
pub type Fielded = Result<Fields, Refusal>;

// The fixed fields of a rule of a sound deck: its signature was read, Enabled and Unknown2 to Unknown5 stand from a place on.
#[tactic(auto, using(crate::specs::Laws::Fixed::in_four, format::specs::Laws::Format::bytes_all))]
fn kept_at(s: &[u8], at: usize, signature: u32) -> Fielded
    ensures { Kept s.now at signature result }
{
    let (p, on) = wire::u32_at(s, at)?;
    let (q, unknown2) = wire::u32_at(s, p)?;
    let (r, unknown3) = wire::u32_at(s, q)?;
    let (t, unknown4) = wire::u32_at(s, r)?;
    let (_, unknown5) = wire::u32_at(s, t)?;
    Ok(Fields {
        signature,
        on: on == 1,
        unknown2: unknown2 as u32,
        unknown3: unknown3 as u32,
        unknown4: unknown4 as u32,
        unknown5: unknown5 as u32,
    })
}

// The fixed fields of rule k of a sound deck, whose rules start at base.
#[tactic(auto, using(crate::specs::Laws::Fixed::in_four, format::specs::Laws::Format::bytes_all))]
fn fields_at(s: &[u8], version: u64, base: usize, k: u64) -> Fielded
    ensures { Tells version s.now base k fixed_at result }
{
    let (at, _) = steps::rule_start(s, version, base, k)?;
    let (_, signature) = wire::u32_at(s, at)?;
    let (e, _) = steps::name_end(s, at)?;
    kept_at(s, e, signature as u32)
}

// The fixed fields of rule k.
pub fn fixed(edition: u64, s: &[u8], k: u64) -> Fielded
    ensures { (result ≡ fixed_fields edition k s.now) × (fields_say result ≡ fields_answer edition k s.now) }
{
    let (version, base, n, _) = deck::pass(edition, s)?;
    if n <= k {
        return Err(Refusal::At(Fault::Absent, 0));
    }
    fields_at(s, version, base, k)
}
