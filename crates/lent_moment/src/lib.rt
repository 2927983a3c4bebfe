// What a date says, in a lent table.
#![tactic(auto)]

ghost use Rattle.lent_moment.specs.Moment.{LendsMoment};

use format::{Outcome, Refusal};

// What the date of these bits says.
#[tactic(auto, using(crate::specs::Laws::Narrow::moment_narrow))]
pub fn moment(bits: u64, t: &mut [u32]) -> Outcome
    ensures { LendsMoment bits t.old result t.new }
{
    let (date, second) = moment::moment_of(bits)?;
    lent::put_row(
        t,
        &[
            date.year as u32,
            date.month as u32,
            date.day as u32,
            second as u32,
        ],
    )
}
