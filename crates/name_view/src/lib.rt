// The name of a rule as a part of the deck's bytes.
#![tactic(auto)]

ghost use Rattle.std.specs.Prelude.{◌≡◌, length};
ghost use Rattle.asked.specs.Laws.Asked.{Tells};
ghost use Rattle.view.specs.Laws.View.{Inside};
ghost use Rattle.view.specs.View.{PartOf, view_says};
ghost use Rattle.name_view.specs.Name.{name_at, name_view};

use format::{Fault, Outcome, Refusal};
use view::View;

// The name of rule k of a sound deck, whose rules start at base.
fn name_at(s: &[u8], version: u64, base: usize, k: u64) -> View
    ensures { Tells version s.now base k name_at result × Inside result (length s.now) }
{
    let (at, _) = steps::rule_start(s, version, base, k)?;
    if wire::left(s, at) < 4 {
        return Err(Refusal::At(Fault::Cut, 0));
    }
    let t = text::string_at(s, at + 4);
    view::units_of(s, t)
}

// The name of rule k: where its units stand and how many bytes they are.
pub fn find_name(edition: u64, s: &[u8], k: u64) -> View
    ensures { (result ≡ name_view edition k s.now) × Inside result (length s.now) }
{
    let (version, base, n, _) = deck::pass(edition, s)?;
    if n <= k {
        return Err(Refusal::At(Fault::Absent, 0));
    }
    name_at(s, version, base, k)
}

// The name of rule k as a part of the deck's bytes.
pub fn name(edition: u64, s: &[u8], k: u64) -> &[u8]
    ensures { PartOf (name_view edition k s.now) s.now s.entry.ref_ptr result.now result.ref_ptr }
{
    let v = find_name(edition, s, k);
    view::part(s, v)
}

// The number and place of that view.
pub fn name_place(edition: u64, s: &[u8], k: u64) -> Outcome
    ensures { result ≡ view_says (name_view edition k s.now) }
{
    let v = find_name(edition, s, k);
    view::place_of(v)
}
