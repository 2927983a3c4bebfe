// Views: a part of a slice, by its first byte and its length, and the form of the String whose units it is.
#![tactic(auto)]

ghost use Rattle.std.specs.Prelude.{◌≡◌, [], length};
ghost use Rattle.view.specs.Laws.View.{units_of, within};
ghost use Rattle.view.specs.View.{PartOf, view_says};

use format::{Fault, Outcome, Refusal};
use text::{Form, StringRead};

// What a view answers: its first byte, how many bytes it is and the String's form; or a refusal.
pub type View = Result<(usize, usize, Form), Refusal>;

// The units of a String that was read: they end where it ends.
#[tactic(auto, using(crate::specs::Laws::View::units_past, crate::specs::Laws::View::units_odd, crate::specs::Laws::View::units_are), unfolding(crate::specs::Laws::View::units_of))]
pub fn units_of(s: &[u8], t: StringRead) -> View
    ensures { result ≡ units_of (length s.now) t }
{
    let (e, form, n) = t?;
    let units = n as usize;
    if s.len() < e {
        return Err(Refusal::At(Fault::Cut, 0));
    }
    if e / 2 < units {
        return Err(Refusal::At(Fault::Cut, 0));
    }
    Ok((e - 2 * units, 2 * units, form))
}

// The empty part at the start.
fn empty(s: &[u8]) -> &[u8]
    ensures { (result.now ≡ []) × (result.ref_ptr ≡ s.entry.ref_ptr) }
{
    &s[..0]
}

// The part of a slice that a view shows; the empty part at the start where it is refused or does not lie within.
pub fn part(s: &[u8], v: View) -> &[u8]
    ensures { PartOf (within (length s.now) v) s.now s.entry.ref_ptr result.now result.ref_ptr }
{
    let Ok((a, n, _)) = v else {
        return empty(s);
    };
    if s.len() < a {
        return empty(s);
    }
    if s.len() - a < n {
        return empty(s);
    }
    let b = a + n;
    &s[a..b]
}

// The number and place of a view.
pub fn place_of(v: View) -> Outcome
    ensures { result ≡ view_says v }
{
    let (a, _, _) = v?;
    Ok(a)
}
