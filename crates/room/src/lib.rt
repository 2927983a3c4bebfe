// How long a deck may be: 18, 19, 20.
#![tactic(auto)]

ghost use Rattle.std.specs.Prelude.{◌≡◌};
ghost use Rattle.room.specs.Room.{room_for};

use format::{Fault, Outcome, Refusal};

// A deck of so many rules and bytes for a buffer of cap bytes: its length, or a refusal.
pub fn room_for(rules: u64, size: usize, cap: usize) -> Outcome
    ensures { result ≡ room_for rules size cap }
{
    if 256 < rules {
        return Err(Refusal::At(Fault::Rules, 0));
    }
    if 60000 < size {
        return Err(Refusal::At(Fault::Large, 0));
    }
    if cap < size {
        return Err(Refusal::At(Fault::Room, 0));
    }
    Ok(size)
}
