// Readers of fields that have a range or a set value: counts, constants and flags at a place of a slice.
#![tactic(auto)]

ghost use Rattle.std.specs.Prelude.{◌≡◌};
ghost use Rattle.format.specs.ReadWrite.{bit};
ghost use Rattle.format.specs.Combinators.{count, fixed, flag};
ghost use Rattle.format.specs.Laws.Seen.{seen, itself, none, judged_count, judged_fixed};

use format::{Fault, Read, Refusal};

// A number that was read, as a count: it must be from low to high.
fn judged_count(r: Read, at: usize, low: u64, high: u64) -> Read
    ensures { result ≡ judged_count at low high r }
{
    let Ok((_, n)) = r else {
        return r;
    };
    if n < low {
        return Err(Refusal::At(Fault::Count, at));
    }
    if high < n {
        return Err(Refusal::At(Fault::Count, at));
    }
    r
}

// A count of 2 or 4 bytes.
pub fn count16_at(s: &[u8], at: usize, low: u64, high: u64) -> Read
    ensures { result ≡ seen itself (count 2 low high) s.now at }
{
    judged_count(wire::u16_at(s, at), at, low, high)
}

pub fn count32_at(s: &[u8], at: usize, low: u64, high: u64) -> Read
    ensures { result ≡ seen itself (count 4 low high) s.now at }
{
    judged_count(wire::u32_at(s, at), at, low, high)
}

// A number that was read, as a constant: it must be v.
fn judged_fixed(r: Read, at: usize, v: u64, fault: Fault) -> Read
    ensures { result ≡ judged_fixed at v fault r }
{
    let Ok((p, n)) = r else {
        return r;
    };
    if n != v {
        return Err(Refusal::At(fault, at));
    }
    Ok((p, 0))
}

// A constant of 2, 3 or 4 bytes.
pub fn fixed16_at(s: &[u8], at: usize, v: u64, fault: Fault) -> Read
    ensures { result ≡ seen none (fixed 2 v fault) s.now at }
{
    judged_fixed(wire::u16_at(s, at), at, v, fault)
}

pub fn fixed24_at(s: &[u8], at: usize, v: u64, fault: Fault) -> Read
    ensures { result ≡ seen none (fixed 3 v fault) s.now at }
{
    judged_fixed(wire::u24_at(s, at), at, v, fault)
}

pub fn fixed32_at(s: &[u8], at: usize, v: u64) -> Read
    ensures { result ≡ seen none (fixed 4 v Fault.Field) s.now at }
{
    judged_fixed(wire::u32_at(s, at), at, v, Fault::Field)
}

// A yes or no: a field of 4 bytes that must hold 0 or 1.
pub fn flag_at(s: &[u8], at: usize) -> Read
    ensures { result ≡ seen bit flag s.now at }
{
    let r = wire::u32_at(s, at);
    let Ok((_, x)) = r else {
        return r;
    };
    if 1 < x {
        return Err(Refusal::At(Fault::Field, at));
    }
    r
}
