// What an edit is given, judged: a name or a word, an element.
#![tactic(auto)]

ghost use Rattle.std.specs.Prelude.{◌≡◌};
ghost use Rattle.format.specs.Laws.Seen.{told, none};
ghost use Rattle.given.specs.Given.{is_text, given};

use format::{Fault, Read, Refusal};
use kind::Product;

// Whether bytes are a name or a word: an even number of them, at most 510.
pub fn is_text(s: &[u8]) -> bool
    ensures { result ≡ is_text s.now }
{
    s.len() % 2 == 0 && s.len() <= 510
}

// A given element: its identifier, then its data to the last byte.
#[tactic(auto, using(crate::specs::Laws::Given::given_no))]
pub fn given_element(product: Product, identifier: u32, s: &[u8]) -> Read
    ensures { result ≡ told 0 none (given product identifier s.now) }
{
    let kind = row::row_for(product, identifier as u64)?;
    let r = element::data_at(s, 0, kind);
    let Ok((e, _)) = r else {
        return r;
    };
    if e != s.len() {
        return Err(Refusal::At(Fault::Over, e));
    }
    Ok((e, 0))
}
