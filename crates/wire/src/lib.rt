// Readers of numbers at a place of a slice, and of a constant that is longer than a number.
#![tactic(auto)]

ghost use Rattle.std.specs.Prelude.{◌≡◌, ◌+◌, ◌-◌, ◌*◌, ◌<◌, ◌≤◌, ◌^◌, length, take, drop};
ghost use Rattle.format.specs.ReadWrite.{value};
ghost use Rattle.format.specs.Combinators.{number, each, fixed};
ghost use Rattle.format.specs.Laws.Seen.{seen, itself, none};

use format::{Fault, Read, Refusal};

// The number that K bytes at a place that has them spell, the lowest first.
fn value_at<const K: usize>(s: &[u8], at: usize) -> u64
    requires { (K ≤ 8) × (at + K ≤ length s.now) }
    ensures { result ≡ value (take K (drop at s.now)) }
{
    let mut n = 0;
    for i in (0..K).rev() {
        n = 0x100 * n + s[at + i] as u64;
    }
    n
}

// How many bytes a slice has from a place on.
pub fn left(s: &[u8], at: usize) -> usize
    ensures { result ≡ length s.now - at }
{
    if s.len() < at {
        return 0;
    }
    s.len() - at
}

#[tactic(auto, using(format::specs::Laws::Seen::number_is, format::specs::Laws::Seen::number_no))]
fn number_at<const K: usize>(s: &[u8], at: usize) -> Read
    requires { (0 < K) × (K ≤ 8) }
    ensures { result ≡ seen itself (number K) s.now at }
{
    if s.len() < at || s.len() < at + K {
        return Err(Refusal::At(Fault::Cut, at));
    }
    Ok((at + K, value_at::<K>(s, at)))
}

// A number of 1, 2, 3, 4 or 8 bytes.
pub fn u8_at(s: &[u8], at: usize) -> Read
    ensures { result ≡ seen itself (number 1) s.now at }
{
    number_at::<1>(s, at)
}

pub fn u16_at(s: &[u8], at: usize) -> Read
    ensures { result ≡ seen itself (number 2) s.now at }
{
    number_at::<2>(s, at)
}

pub fn u24_at(s: &[u8], at: usize) -> Read
    ensures { result ≡ seen itself (number 3) s.now at }
{
    number_at::<3>(s, at)
}

pub fn u32_at(s: &[u8], at: usize) -> Read
    ensures { result ≡ seen itself (number 4) s.now at }
{
    number_at::<4>(s, at)
}

pub fn u64_at(s: &[u8], at: usize) -> Read
    ensures { result ≡ seen itself (number 8) s.now at }
{
    number_at::<8>(s, at)
}

// n numbers of 4 bytes, of which nothing is told: a cut one is the first that is not there whole.
pub fn numbers_at(s: &[u8], at: usize, n: u16) -> Read
    ensures { result ≡ seen none (each (λ i. number 4) 0 n) s.now at }
{
    if s.len() < at {
        if n == 0 {
            return Ok((at, 0));
        }
        return Err(Refusal::At(Fault::Cut, at));
    }
    let end = at + 4 * (n as usize);
    if s.len() < end {
        return Err(Refusal::At(Fault::Cut, at + 4 * ((s.len() - at) / 4)));
    }
    Ok((end, 0))
}

// A constant of 12 bytes, the first eight and the last four.
#[tactic(auto, using(format::specs::Laws::Seen::fixed_cut))]
pub fn fixed96_at(s: &[u8], at: usize, first: u64, last: u64) -> Read
    ensures { result ≡ seen none (fixed 12 (first + 2 ^ 64 * last) Fault.Field) s.now at }
{
    if s.len() < at || s.len() < at + 12 {
        return Err(Refusal::At(Fault::Cut, at));
    }
    if value_at::<8>(s, at) != first {
        return Err(Refusal::At(Fault::Field, at));
    }
    if value_at::<4>(s, at + 8) != last {
        return Err(Refusal::At(Fault::Field, at));
    }
    Ok((at + 12, 0))
}
