// A value as the data of an element, in a buffer: the way back of value.
#![tactic(auto)]

ghost use Rattle.std.specs.Prelude.{◌≡◌, true, length, ◌+◌, ◌≤◌};
ghost use Rattle.std.specs.Float.{binary64};
ghost use Rattle.std.specs.Float.Ieee.{to_bits};
ghost use Rattle.buffer.specs.Laid.{put_in};
ghost use Rattle.date.specs.Double.{accepted};
ghost use Rattle.element.specs.Data.{plain, sizes, one_zero, marker_data, simple_data, size_data, limit, date_data};
ghost use Rattle.put.specs.Plan.{from_span, if_room, plan_data, plan_kind, putting, put_says, put_leaves, Puts};
ghost use Rattle.put.specs.Laws.Put.{limit_of, span_data};

use format::{Fault, Outcome, Refusal};
use kind::Kind;
use value::{Span, Value};

// 1, 0: two words of 4 bytes, written as one number.
#[tactic(auto, using(crate::specs::Laws::Put::one_zero_put))]
fn put_one_zero(buf: &mut [u8])
    ensures { buf.new ≡ put_in buf.old 0 (one_zero.write tt) }
{
    buffer::put_number(buf, 0, 8, 1);
}

// One end of a date span: flag, 0 and the date.
#[tactic(auto, using(crate::specs::Laws::Put::limit_put, date::proofs::Floats::float_no_nan))]
fn put_limit(buf: &mut [u8], at: usize, counts: bool, days: f64)
    requires at_in_bounds { at + 16 ≤ length buf.old }
    requires days_value { accepted (to_bits binary64 days) ≡ true }
    ensures { buf.new ≡ put_in buf.old at (limit.write (limit_of counts days)) }
{
    buffer::put_flag(buf, at, counts);
    buffer::put_number(buf, at + 4, 4, 0);
    buffer::put_number(buf, at + 8, 8, f64::to_bits(days));
}

#[tactic(auto, using(crate::specs::Laws::Put::room, crate::specs::Laws::Put::marker_put, crate::specs::Laws::Put::marker_long), unfolding(crate::specs::Plan::put_says, crate::specs::Plan::put_leaves))]
fn put_marker(buf: &mut [u8]) -> Outcome
    ensures { Puts buf.old (if_room (length buf.old) (marker_data.write plain)) result buf.new }
{
    if buf.len() < 12 {
        return Err(Refusal::At(Fault::Room, 0));
    }
    put_one_zero(buf);
    buffer::put_number(buf, 8, 4, 1);
    Ok(12)
}

#[tactic(auto, using(crate::specs::Laws::Put::room, crate::specs::Laws::Put::simple_put, crate::specs::Laws::Put::simple_long), unfolding(crate::specs::Plan::put_says, crate::specs::Plan::put_leaves))]
fn put_simple(buf: &mut [u8]) -> Outcome
    ensures { Puts buf.old (if_room (length buf.old) (simple_data.write plain)) result buf.new }
{
    if buf.len() < 8 {
        return Err(Refusal::At(Fault::Room, 0));
    }
    put_one_zero(buf);
    Ok(8)
}

#[tactic(auto, using(crate::specs::Laws::Put::room, crate::specs::Laws::Put::sizes_put, crate::specs::Laws::Put::sizes_long), unfolding(crate::specs::Plan::put_says, crate::specs::Plan::put_leaves))]
fn put_sizes(buf: &mut [u8], min: u32, max: u32) -> Outcome
    ensures { Puts buf.old (if_room (length buf.old) (size_data.write (sizes min max))) result buf.new }
{
    if buf.len() < 16 {
        return Err(Refusal::At(Fault::Room, 0));
    }
    put_one_zero(buf);
    buffer::put_number(buf, 8, 4, min as u64);
    buffer::put_number(buf, 12, 4, max as u64);
    Ok(16)
}

#[tactic(auto, using(crate::specs::Laws::Put::room, crate::specs::Laws::Put::span_put, crate::specs::Laws::Put::span_long), unfolding(crate::specs::Plan::put_says, crate::specs::Plan::put_leaves))]
fn put_span(buf: &mut [u8], span: Span) -> Outcome
    requires { (accepted (to_bits binary64 span.after) ≡ true) × (accepted (to_bits binary64 span.before) ≡ true) }
    ensures { Puts buf.old (if_room (length buf.old) (date_data.write (span_data span))) result buf.new }
{
    if buf.len() < 40 {
        return Err(Refusal::At(Fault::Room, 0));
    }
    put_one_zero(buf);
    put_limit(buf, 8, span.starts, span.after);
    put_limit(buf, 24, span.ends, span.before);
    Ok(40)
}

// 43 before 20.
#[tactic(auto, unfolding(crate::specs::Plan::from_span, crate::specs::Plan::put_says, crate::specs::Plan::put_leaves, format::specs::Format::pick))]
fn put_dates(buf: &mut [u8], span: Span) -> Outcome
    ensures { Puts buf.old (plan_data date_data (length buf.old) (from_span span)) result buf.new }
{
    if date::in_range(span.after) {
        if date::in_range(span.before) {
            return put_span(buf, span);
        }
        return Err(Refusal::Given(Fault::Date, 32));
    }
    Err(Refusal::Given(Fault::Date, 16))
}

// A value as the data of a kind: 40 first.
#[tactic(auto, unfolding(crate::specs::Plan::plan_kind, crate::specs::Plan::is_of, crate::specs::Plan::shape, crate::specs::Plan::put_says, crate::specs::Plan::put_leaves, element::specs::Data::data_of, format::specs::Format::pick))]
fn put_as(kind: Kind, identifier: u32, value: Value, buf: &mut [u8]) -> Outcome
    ensures { Puts buf.old (plan_kind kind identifier value (length buf.old)) result buf.new }
{
    match (kind, value) {
        (Kind::Marker, Value::Marker) => put_marker(buf),
        (Kind::Simple(_), Value::Simple(n)) if n == identifier => put_simple(buf),
        (Kind::Size(_), Value::Size(min, max)) => put_sizes(buf, min, max),
        (Kind::Dates(_), Value::Dates(span)) => put_dates(buf, span),
        _ => Err(Refusal::Given(Fault::Field, 0)),
    }
}

// A value as the data of an identifier in an edition, written at the start of a buffer.
#[tactic(auto, unfolding(crate::specs::Plan::putting, crate::specs::Plan::put_says, crate::specs::Plan::put_leaves))]
pub fn put_value(edition: u64, identifier: u32, value: Value, buf: &mut [u8]) -> Outcome
    ensures { (result ≡ put_says (putting edition identifier value (length buf.old))) × (buf.new ≡ put_leaves buf.old (putting edition identifier value (length buf.old))) }
{
    let Some(product) = kind::edition_of(edition) else {
        return Err(Refusal::At(Fault::Edition, 0));
    };
    let kind = format::in_given(row::row_for(product, identifier as u64))?;
    put_as(kind, identifier, value, buf)
}
