// A rule renamed where it stands.
#![tactic(auto)]

ghost use Rattle.std.specs.Prelude.{◌≡◌, ℕ, ◌<◌};
ghost use Rattle.steps.specs.Laws.Steps.{name_end};
ghost use Rattle.plan.specs.Edit.{rename, Edits};
ghost use Rattle.plan.specs.Laws.Found.{Makes};
ghost use Rattle.rename.specs.Laws.Rename.{Named};

use format::{Fault, Outcome, Refusal};
use spot::Site;

// The name of the rule that was found, which ends at e, gives way to another.
#[tactic(auto, using(parts::specs::Laws::Text::text_small, crate::specs::Laws::Rename::rename_text))]
fn rename_at(buf: &mut [u8], f: Site, e: usize, name: &[u8]) -> Outcome
    requires { Named f e buf.old }
    ensures { (edition k : ℕ) → k < f.rules → e ≡ name_end buf.old f.start → Makes edition (λ rs. k) f (rename k name.now) buf.old result buf.new }
{
    if !given::is_text(name) {
        return Err(Refusal::At(Fault::Text, 0));
    }
    let len = parts::text_size(name);
    let at = f.start + 4;
    let n = f.bytes - (e - at) + len;
    let size = room::room_for(f.rules, n, buf.len())?;
    gap::open(buf, f.bytes, at, e, len);
    parts::put_text(buf, at, name);
    plan::refresh(buf, f, n);
    Ok(size)
}

// Rule k is renamed.
pub fn rename(edition: u64, buf: &mut [u8], n: usize, k: u64, name: &[u8]) -> Outcome
    ensures { Edits edition n (rename k name.now) buf.old result buf.new }
{
    let site = plan::find(edition, buf, n, k)?;
    if site.rules <= k {
        return Err(Refusal::At(Fault::Absent, 0));
    }
    let (e, _) = steps::name_end(buf, site.start)?;
    rename_at(buf, site, e, name)
}
