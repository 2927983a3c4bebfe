// An outcome as the one number that goes back over the products' door.
#![tactic(auto)]

ghost use Rattle.std.specs.Prelude.{◌≡◌, ◌%◌, ◌^◌};
ghost use Rattle.format.specs.Fault.{packed};

use format::{Outcome, Refusal};

// As many places as go into 64 bits beside a code of 8.
const PLACES: u64 = 0x100_0000_0000_0000;

// Code plus 256 times place, in 64 bits.
#[inline(always)]
#[tactic(auto, using(format::specs::Laws::Fault::number_small))]
pub fn pack(o: Outcome) -> u64
    ensures { result ≡ packed o % 2 ^ 64 }
{
    match o {
        Ok(n) => 256 * (n as u64 % PLACES),
        Err(Refusal::At(c, p)) => format::number_of(c) + 256 * (p as u64 % PLACES),
        Err(Refusal::Given(c, p)) => format::number_of(c) + 32 + 256 * (p as u64 % PLACES),
    }
}
