// The value of an element's data.
#![tactic(auto)]

ghost use Rattle.std.specs.Prelude.{◌≡◌, length};
ghost use Rattle.element.specs.Data.{word_data, size_data, date_data, data_of, words_of, sizes_of, span_of};
ghost use Rattle.value.specs.declared.Value.TheVariants.{Size, Dates, Words};
ghost use Rattle.value.specs.Value.{floats, value_in, from_kind, value_of, value_says, value_answer};
ghost use Rattle.value.specs.Laws.Places.{Holds};

use format::{Fault, Refusal};
use kind::Kind;

// A date span: whether the after date counts and whether the before date does, and the two dates.
#[derive(Clone, Copy)]
pub struct Span {
    pub starts: bool,
    pub ends: bool,
    pub after: f64,
    pub before: f64,
}

#[derive(Clone, Copy)]
pub enum Value {
    Marker,
    Simple(u32),
    Size(u32, u32),
    Dates(Span),
    Words(u32),
}

// What lone data answer: a value, or a refusal of the call or of the data.
pub type Valued = Result<Value, Refusal>;

// What follows reads sound data, whose fields stand at fixed places.

#[tactic(auto, using(crate::specs::Laws::Places::number_fits_4, crate::specs::Laws::Places::words_are))]
fn words_in(s: &[u8]) -> Valued
    ensures { Holds word_data s.now (λ d. Words (length (words_of d))) result }
{
    let (_, n) = wire::u32_at(s, 0)?;
    Ok(Value::Words(n as u32))
}

#[tactic(auto, using(crate::specs::Laws::Places::number_fits_4, crate::specs::Laws::Places::sizes_are))]
fn sizes_in(s: &[u8]) -> Valued
    ensures { Holds size_data s.now (λ d. Size (sizes_of d).0 (sizes_of d).1) result }
{
    let (_, minimum) = wire::u32_at(s, 8)?;
    let (_, maximum) = wire::u32_at(s, 12)?;
    Ok(Value::Size(minimum as u32, maximum as u32))
}

#[tactic(auto, using(crate::specs::Laws::Places::date_floats))]
fn span_in(s: &[u8]) -> Valued
    ensures { Holds date_data s.now (λ d. Dates (floats (span_of d))) result }
{
    let (_, starts) = field::flag_at(s, 8)?;
    let (_, after) = date::date_at(s, 16)?;
    let (_, ends) = field::flag_at(s, 24)?;
    let (_, before) = date::date_at(s, 32)?;
    Ok(Value::Dates(Span {
        starts: starts == 1,
        ends: ends == 1,
        after: f64::from_bits(after),
        before: f64::from_bits(before),
    }))
}

#[tactic(auto, unfolding(format::specs::Laws::Back::Where))]
fn value_in(kind: Kind, identifier: u32, s: &[u8]) -> Valued
    ensures { Holds (data_of kind) s.now (value_in kind identifier) result }
{
    match kind {
        Kind::Marker => Ok(Value::Marker),
        Kind::Simple(_) => Ok(Value::Simple(identifier)),
        Kind::WordList => words_in(s),
        Kind::Size(_) => sizes_in(s),
        Kind::Dates(_) => span_in(s),
    }
}

// Lone data of a kind: 45 last.
#[tactic(auto, using(crate::specs::Laws::Places::value_is))]
fn value_as(kind: Kind, identifier: u32, s: &[u8]) -> Valued
    ensures { result ≡ from_kind kind identifier s.now }
{
    let (e, _) = format::in_given(element::data_at(s, 0, kind))?;
    if e != s.len() {
        return Err(Refusal::Given(Fault::Over, e));
    }
    value_in(kind, identifier, s)
}

// Lone data of an identifier in an edition.
#[tactic(auto, unfolding(crate::specs::Value::value_of))]
pub fn value_of(edition: u64, identifier: u32, s: &[u8]) -> Valued
    ensures { (result ≡ value_of edition identifier s.now) × (value_says result ≡ value_answer edition identifier s.now) }
{
    let Some(product) = kind::edition_of(edition) else {
        return Err(Refusal::At(Fault::Edition, 0));
    };
    let kind = format::in_given(row::row_for(product, identifier as u64))?;
    value_as(kind, identifier, s)
}
