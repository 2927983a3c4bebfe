// A rule switched on or off where it stands.
#![tactic(auto)]

ghost use Rattle.std.specs.Prelude.{ℕ};
ghost use Rattle.plan.specs.Edit.{switch, Edits};
ghost use Rattle.plan.specs.Laws.Found.{Makes};

use format::{Fault, Outcome, Refusal};
use spot::Site;

// Rule k of the deck that was found.
#[tactic(auto, using(steps::specs::Laws::Steps::name_got, crate::specs::Laws::Switch::switch_absent, crate::specs::Laws::Switch::switch_done))]
fn switch_at(buf: &mut [u8], f: Site, k: u64, on: bool) -> Outcome
    ensures { (edition : ℕ) → Makes edition (λ rs. k) f (switch k on) buf.old result buf.new }
{
    if f.rules <= k {
        return Err(Refusal::At(Fault::Absent, 0));
    }
    let (e, _) = steps::name_end(buf, f.start)?;
    buffer::put_flag(buf, e, on);
    Ok(f.bytes)
}

// Rule k is switched on or off.
pub fn switch(edition: u64, buf: &mut [u8], n: usize, k: u64, on: bool) -> Outcome
    ensures { Edits edition n (switch k on) buf.old result buf.new }
{
    let site = plan::find(edition, buf, n, k)?;
    switch_at(buf, site, k, on)
}
