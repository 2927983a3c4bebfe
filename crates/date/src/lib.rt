// Dates: doubles within a range, kept as their bits.
#![tactic(auto)]

ghost use Rattle.std.specs.Prelude.{◌≡◌};
ghost use Rattle.std.specs.Float.{binary64};
ghost use Rattle.std.specs.Float.Ieee.{to_bits};
ghost use Rattle.format.specs.Laws.Seen.{seen, itself};
ghost use Rattle.date.specs.Double.{accepted};
ghost use Rattle.date.specs.Date.{date};

use format::{Fault, Read, Refusal};

// Whether a float is a date; a not-a-number passes no comparison.
pub fn in_range(days: f64) -> bool
    ensures { result ≡ accepted (to_bits binary64 days) }
{
    -657435.0 < days && days < 2958466.0
}

// The bits of infinity: above them, but for the sign, is what is no number.
const INFINITY: u64 = 0x7FF0_0000_0000_0000;

// Whether 64 bits are a date's. What is no number is tested before it is taken for one.
pub fn is_date(bits: u64) -> bool
    ensures { result ≡ accepted bits }
{
    if bits % 0x8000_0000_0000_0000 > INFINITY {
        return false;
    }
    in_range(f64::from_bits(bits))
}

// The date at a place; its value is its bits.
pub fn date_at(s: &[u8], at: usize) -> Read
    ensures { result ≡ seen itself date s.now at }
{
    let r = wire::u64_at(s, at);
    let Ok((_, bits)) = r else {
        return r;
    };
    if is_date(bits) {
        return r;
    }
    Err(Refusal::At(Fault::Date, at))
}
