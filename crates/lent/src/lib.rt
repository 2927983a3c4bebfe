// A row of numbers put into a lent table of 32-bit numbers: from its start, later entries as they were.
#![tactic(auto)]

ghost use Rattle.std.specs.Prelude.{length, Ok};
ghost use Rattle.lent.specs.Lent.{Lends};

use format::{Fault, Outcome, Refusal};

// A row at the start of a table; 14 where there is no room for it.
#[tactic(auto, using(crate::specs::Laws::Lent::room, buffer::specs::Laws::Laid::put_first, std::proofs::lemmas::Grind::common_steps), unfolding(crate::specs::Lent::lent_says, crate::specs::Lent::lent_leaves, format::specs::Format::pick))]
pub fn put_row(t: &mut [u32], row: &[u32]) -> Outcome
    ensures { Lends (length row.now) t.old (Ok 0, row.now) result t.new }
{
    if t.len() < row.len() {
        return Err(Refusal::At(Fault::Table, 0));
    }
    t[..row.len()].copy_from_slice(row);
    Ok(0)
}
