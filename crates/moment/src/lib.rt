// What a date says: the day by the calendar, and the second of the day.
#![tactic(auto)]

ghost use Rattle.std.specs.Prelude.{true, ◌≡◌, ◌+◌, ◌-◌, ◌%◌, ◌^◌, ◌<◌};
ghost use Rattle.date.specs.Double.{exponent, digits, accepted};
ghost use Rattle.moment.specs.Moment.{whole_days, day_in, second_in, Says};

use civil::Civil;
use format::{Fault, Refusal};

// A civil date and the second of its day, or a refusal.
pub type Moment = Result<(Civil, u64), Refusal>;

// The bits of an accepted date.
#[derive(Clone, Copy)]
struct Date {
    bits: u64,
    ghost accepted: { accepted bits ≡ true },
}

fn exponent_of(bits: u64) -> u64
    ensures { result ≡ exponent bits }
{
    bits % 0x8000_0000_0000_0000 / 0x10_0000_0000_0000
}

// The 53 digits of a double whose exponent is not 0.
fn digits_of(bits: u64) -> u64
    ensures { (result ≡ 2 ^ 52 + digits bits) × (result < 2 ^ 53) }
{
    0x10_0000_0000_0000 + bits % 0x10_0000_0000_0000
}

// The whole days of a date, without its sign.
#[tactic(auto, using(crate::proofs::Shift::whole_none, crate::proofs::Shift::whole_shift, crate::proofs::Shift::exponent_most))]
fn whole_of(date: Date) -> u64
    ensures { result ≡ whole_days date.bits }
{
    let e = exponent_of(date.bits);
    if e < 1023 {
        return 0;
    }
    digits_of(date.bits) >> (1075 - e)
}

// The digits of the fraction, the last counting as the last of the 53.
#[tactic(auto, using(crate::proofs::Shift::all_fraction, crate::proofs::Shift::cut_fraction, crate::proofs::Shift::shifted_pos, crate::proofs::Shift::exponent_most))]
fn fraction_of(date: Date) -> u64
    ensures { (result ≡ (2 ^ 52 + digits date.bits) % 2 ^ (1075 - exponent date.bits)) × (result < 2 ^ 53) }
{
    let e = exponent_of(date.bits);
    let q = digits_of(date.bits);
    if e < 1023 {
        return q;
    }
    q % (1 << (1075 - e))
}

// The second of the day. 86400 is 675 * 2 ^ 7, and less than 2 ^ -17 of a day is no whole second.
#[tactic(auto, using(crate::proofs::Shift::second_none, crate::proofs::Shift::second_shift, crate::proofs::Shift::exponent_most), unfolding(crate::specs::Moment::second_in))]
fn second_in(date: Date) -> u64
    ensures { result ≡ second_in date.bits }
{
    let e = exponent_of(date.bits);
    if e < 1006 {
        return 0;
    }
    (fraction_of(date) * 675) >> (1068 - e)
}

// The day, counted from 1 January 100; 30 December 1899 is day 657434.
#[tactic(auto, using(crate::proofs::Shift::whole_small, crate::proofs::Shift::whole_before, crate::proofs::Shift::day_before, crate::proofs::Shift::day_after))]
fn day_in(date: Date) -> u64
    ensures { result ≡ day_in date.bits }
{
    let w = whole_of(date);
    if date.bits >= 0x8000_0000_0000_0000 {
        return 657434 - w;
    }
    657434 + w
}

// What the date of these bits says. A lone date is refused at 0.
#[tactic(auto, using(crate::specs::Laws::Moment::says_at, crate::specs::Laws::Moment::says_no))]
pub fn moment_of(bits: u64) -> Moment
    ensures { Says bits result }
{
    if date::is_date(bits) {
        let date = Date { bits };
        let c = civil::civil_of(day_in(date));
        return Ok((c, second_in(date)));
    }
    Err(Refusal::At(Fault::Date, 0))
}
