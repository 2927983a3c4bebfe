// A word of an element as a part of the deck's bytes.
#![tactic(auto)]

ghost use Rattle.std.specs.Prelude.{◌≡◌, length};
ghost use Rattle.format.specs.Laws.Back.{Where};
ghost use Rattle.rule.specs.Rule.{rule};
ghost use Rattle.walk.specs.Laws.Elements.{Carries};
ghost use Rattle.asked.specs.Laws.Asked.{Finds};
ghost use Rattle.data_word.specs.Word.{data_word};
ghost use Rattle.word_view.specs.Word.{rule_word, word_view};
ghost use Rattle.view.specs.Laws.View.{Inside};
ghost use Rattle.view.specs.View.{PartOf, view_says};

use format::{Fault, Outcome, Refusal};
use kind::Product;
use view::View;

// Word w of the element at place e of its rule.
fn element_word(s: &[u8], at: usize, product: Product, e: u64, w: u64) -> View
    ensures { Carries product s.now at e (data_word w) result × Inside result (length s.now) }
{
    let (q, id) = walk::identifier_at(s, at, e)?;
    let kind = row::row_for(product, id)?;
    data_word::data_word(s, q, kind, w)
}

// Word w of element e of rule k, which starts at a place.
fn rule_word(s: &[u8], at: usize, product: Product, k: u64, e: u64, w: u64) -> View
    ensures { Where (rule product k) s.now at (rule_word k e w product at) result × Inside result (length s.now) }
{
    let (p, n) = walk::elements_of(s, at, k)?;
    if n <= e {
        return Err(Refusal::At(Fault::Absent, 1));
    }
    let (q, _) = walk::element_start(s, p, product, e)?;
    element_word(s, q, product, e, w)
}

// Word w of element e of rule k of a sound deck, whose rules start at base.
fn word_of(s: &[u8], product: Product, version: u64, base: usize, k: u64, e: u64, w: u64) -> View
    ensures { Finds product version s.now base k (rule_word k e w product) result × Inside result (length s.now) }
{
    let (at, _) = steps::rule_start(s, version, base, k)?;
    rule_word(s, at, product, k, e, w)
}

// Word w of element e of rule k: where its units stand and how many bytes they are.
pub fn find_word(edition: u64, s: &[u8], k: u64, e: u64, w: u64) -> View
    ensures { (result ≡ word_view edition k e w s.now) × Inside result (length s.now) }
{
    let Some(product) = kind::edition_of(edition) else {
        return Err(Refusal::At(Fault::Edition, 0));
    };
    let (version, base, n, _) = deck::pass(edition, s)?;
    if n <= k {
        return Err(Refusal::At(Fault::Absent, 0));
    }
    word_of(s, product, version, base, k, e, w)
}

// That word as a part of the deck's bytes.
pub fn word(edition: u64, s: &[u8], k: u64, e: u64, w: u64) -> &[u8]
    ensures { PartOf (word_view edition k e w s.now) s.now s.entry.ref_ptr result.now result.ref_ptr }
{
    let v = find_word(edition, s, k, e, w);
    view::part(s, v)
}

// The number and place of that view.
pub fn word_place(edition: u64, s: &[u8], k: u64, e: u64, w: u64) -> Outcome
    ensures { result ≡ view_says (word_view edition k e w s.now) }
{
    let v = find_word(edition, s, k, e, w);
    view::place_of(v)
}
