// A value as a lent table of five numbers.
#![tactic(auto)]

ghost use Rattle.std.specs.Prelude.{◌≤◌, length, Ok};
ghost use Rattle.value.specs.declared.Value.TheVariants.{Dates};
ghost use Rattle.value.specs.Value.{value_case, value_answer};
ghost use Rattle.value.specs.Laws.Dates.{Dated};
ghost use Rattle.lent.specs.Lent.{value_width, Lends};

use format::{Fault, Outcome, Refusal};
use value::{Span, Value};

// The numbers of a case at the start of a table; 14 where it has not room for every case.
#[tactic(auto, using(lent::specs::Laws::Lent::room, buffer::specs::Laws::Laid::put_first), unfolding(lent::specs::Lent::lent_says, lent::specs::Lent::lent_leaves, format::specs::Format::pick))]
fn put_numbers(t: &mut [u64], numbers: &[u64]) -> Outcome
    requires { length numbers.now ≤ value_width }
    ensures { Lends value_width t.old (Ok 0, numbers.now) result t.new }
{
    if t.len() < 5 {
        return Err(Refusal::At(Fault::Table, 0));
    }
    t[..numbers.len()].copy_from_slice(numbers);
    Ok(0)
}

#[tactic(auto, using(date::proofs::Floats::float_no_nan, buffer::specs::Laws::Laid::bit_from))]
fn put_span(t: &mut [u64], v: Span) -> Outcome
    requires { Dated (Dates v) }
    ensures { Lends value_width t.old (Ok 0, value_case (Dates v)) result t.new }
{
    let starts = u64::from(v.starts);
    let ends = u64::from(v.ends);
    let after = f64::to_bits(v.after);
    let before = f64::to_bits(v.before);
    put_numbers(t, &[3, starts, ends, after, before])
}

// A value by its case and what it holds.
fn put_case(t: &mut [u64], v: Value) -> Outcome
    requires { Dated v }
    ensures { Lends value_width t.old (Ok 0, value_case v) result t.new }
{
    match v {
        Value::Marker => put_numbers(t, &[0]),
        Value::Simple(id) => put_numbers(t, &[1, id as u64]),
        Value::Size(minimum, maximum) => put_numbers(t, &[2, minimum as u64, maximum as u64]),
        Value::Dates(span) => put_span(t, span),
        Value::Words(n) => put_numbers(t, &[4, n as u64]),
    }
}

// The value of lone data.
#[tactic(auto, using(crate::specs::Laws::Dates::value_dated), unfolding(lent::specs::Lent::lent_says, lent::specs::Lent::lent_leaves))]
pub fn value(edition: u64, identifier: u32, s: &[u8], t: &mut [u64]) -> Outcome
    ensures { Lends value_width t.old (value_answer edition identifier s.now) result t.new }
{
    let v = value::value_of(edition, identifier, s)?;
    put_case(t, v)
}
