// Elements: an identifier, and the data of its kind behind it.
#![tactic(auto)]

ghost use Rattle.std.specs.Prelude.{◌≡◌};
ghost use Rattle.format.specs.Laws.Seen.{seen};
ghost use Rattle.element.specs.Element.{element};
ghost use Rattle.element.specs.Laws.Element.{named};
ghost use Rattle.element.specs.Data.{data_of};

use format::{Fault, Read, Refusal};
use kind::{Kind, Product};

// The data of a kind, of which the identifier is told.
fn named_data_at(s: &[u8], at: usize, kind: Kind, identifier: u64) -> Read
    ensures { result ≡ seen (λ d. identifier) (data_of kind) s.now at }
{
    let d = element::data_at(s, at, kind);
    let Ok((q, _)) = d else {
        return d;
    };
    Ok((q, identifier))
}

// The element at the start of a part; its value is its identifier.
#[tactic(auto, using(element::specs::Laws::Element::element_cut, element::specs::Laws::Element::element_off))]
fn read_element(rest: &[u8], product: Product) -> Read
    ensures { result ≡ seen named (element product) rest.now 0 }
{
    let r = wire::u32_at(rest, 0);
    let Ok((p, identifier)) = r else {
        return r;
    };
    let kind = row::row_for(product, identifier)?;
    named_data_at(rest, p, kind, identifier)
}

// The element at a place.
pub fn element_at(s: &[u8], at: usize, product: Product) -> Read
    ensures { result ≡ seen named (element product) s.now at }
{
    if s.len() < at {
        return Err(Refusal::At(Fault::Cut, at));
    }
    let rest = &s[at..];
    let r = read_element(rest, product);
    match r {
        Ok((n, identifier)) => Ok((at + n, identifier)),
        Err(why) => Err(format::further(why, at)),
    }
}
