// A rule removed; the one that becomes the first gets the long head.
#![tactic(auto)]

ghost use Rattle.std.specs.Prelude.{◌≡◌, true, false, ℕ, ◌+◌, ◌-◌, ◌^◌, ◌≤◌, ◌<◌};
ghost use Rattle.steps.specs.Laws.Steps.{name_end};
ghost use Rattle.plan.specs.Edit.{remove, Edits};
ghost use Rattle.plan.specs.Laws.Found.{Makes, Within};
ghost use Rattle.remove.specs.Laws.Remove.{Second, led};

use format::{Fault, Outcome, Refusal};
use spot::Site;

// The rule that was found gives way to nothing: not the first, or the only one.
#[tactic(auto, using(crate::specs::Laws::Remove::remove_other))]
fn remove_other(buf: &mut [u8], f: Site) -> Outcome
    requires { Within f buf.old × (0 < f.rules) }
    ensures { (edition k : ℕ) → k < f.rules → (k ≡ 0 → f.rules ≡ 1) → Makes edition (λ rs. k) f (remove k) buf.old result buf.new }
{
    gap::open(buf, f.bytes, f.start, f.end, 0);
    let n = plan::finish(buf, f, f.rules - 1, f.bytes - (f.end - f.start));
    Ok(n)
}

// The rule that starts at b and has its head at h moves to the place of the first, base, and gets the long head.
#[tactic(auto, using(crate::specs::Laws::Remove::led_is))]
fn lead(buf: &mut [u8], n: usize, base: usize, b: usize, h: usize, size: u64)
    requires { (base ≤ b) × (b ≤ h) × (h + 2 ≤ n) × (n ≤ 60000) × (size < 256 ^ 4) × (6 ≤ h - (b - base)) }
    ensures { buf.new ≡ led buf.old n base b h size }
{
    let at = h - (b - base);
    gap::move_down(buf, base, h, b - base);
    gap::open(buf, n, at, h + 2, 18);
    head::put_head(buf, at, 0);
    buffer::put_number(buf, at - 6, 4, size + 16);
}

// Rule 0 of several: the rule behind it has a name that ends at e.
#[tactic(auto, using(crate::specs::Laws::Remove::remove_unread, crate::specs::Laws::Remove::remove_first))]
fn remove_first(buf: &mut [u8], f: Site, e: usize) -> Outcome
    requires { Second f e buf.old }
    ensures { (edition k : ℕ) → k ≡ 0 → e ≡ name_end buf.old f.end → Makes edition (λ rs. k) f (remove k) buf.old result buf.new }
{
    let (_, size) = wire::u32_at(buf, e + 20)?;
    lead(buf, f.bytes, f.base, f.end, e + 26, size);
    let n = plan::finish(buf, f, f.rules - 1, f.bytes - (f.end - f.base) + 16);
    Ok(n)
}

// Whether no other rule becomes the first where rule k of so many goes.
fn keeps_first(k: u64, rules: u64) -> bool
    ensures { (result ≡ true → k ≡ 0 → rules ≡ 1) × (result ≡ false → (k ≡ 0) × (rules ≡ 1 → ⊥)) }
{
    if 0 < k {
        return true;
    }
    rules == 1
}

// Rule k is removed.
pub fn remove(edition: u64, buf: &mut [u8], n: usize, k: u64) -> Outcome
    ensures { Edits edition n (remove k) buf.old result buf.new }
{
    let site = plan::find(edition, buf, n, k)?;
    if site.rules <= k {
        return Err(Refusal::At(Fault::Absent, 0));
    }
    if keeps_first(k, site.rules) {
        return remove_other(buf, site);
    }
    let (e, _) = steps::name_end(buf, site.end)?;
    remove_first(buf, site, e)
}
