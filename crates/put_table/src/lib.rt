// A lent table of five numbers as the value that it says, and its data in a buffer: the way back of value_table.
#![tactic(auto)]

ghost use Rattle.std.specs.Prelude.{◌≡◌, length};
ghost use Rattle.value.specs.declared.Value.TheVariants.{Dates};
ghost use Rattle.put.specs.Plan.{putting, put_says, put_leaves};
ghost use Rattle.put_table.specs.Table.{by_simple, by_size, by_dates, value_from};
ghost use Rattle.put_table.specs.Laws.Table.{Stands, Alike};

use format::Outcome;
use value::{Span, Value};

// A float that is refused as a date where the bits are no date's: those of a not-a-number are those of no float here.
#[tactic(auto, using(crate::specs::Laws::Table::stands_for, crate::specs::Laws::Table::stands_off, date::proofs::Floats::date_no_nan), unfolding(date::specs::Double::day))]
fn float_of(bits: u64) -> f64
    ensures { Stands bits result }
{
    if date::is_date(bits) {
        return f64::from_bits(bits);
    }
    2958466.0
}

#[tactic(auto, unfolding(crate::specs::Table::by_simple, format::specs::Format::pick))]
fn simple_from(id: u64) -> Value
    ensures { result ≡ by_simple id }
{
    if id >= 0x1_0000_0000 {
        return Value::Words(0);
    }
    Value::Simple(id as u32)
}

#[tactic(auto, unfolding(crate::specs::Table::by_size, format::specs::Format::pick))]
fn size_from(minimum: u64, maximum: u64) -> Value
    ensures { result ≡ by_size minimum maximum }
{
    if minimum >= 0x1_0000_0000 {
        return Value::Words(0);
    }
    if maximum >= 0x1_0000_0000 {
        return Value::Words(0);
    }
    Value::Size(minimum as u32, maximum as u32)
}

#[tactic(auto, using(crate::specs::Laws::Table::dates_are, crate::specs::Laws::Table::dates_none, crate::specs::Laws::Table::dates_none_2))]
fn dates_from(starts: u64, ends: u64, after: u64, before: u64) -> Value
    ensures { Alike result (by_dates starts ends after before) }
{
    if starts > 1 {
        return Value::Words(0);
    }
    if ends > 1 {
        return Value::Words(0);
    }
    let a = float_of(after);
    let b = float_of(before);
    Value::Dates(Span {
        starts: starts == 1,
        ends: ends == 1,
        after: a,
        before: b,
    })
}

// The value that a table says, or one that is refused as it.
#[tactic(auto, using(crate::specs::Laws::Table::cases))]
fn value_from(table: &[u64]) -> Value
    ensures { Alike result (value_from table.now) }
{
    if table.len() < 5 {
        return Value::Words(0);
    }
    match table[0] {
        0 => Value::Marker,
        1 => simple_from(table[1]),
        2 => size_from(table[1], table[2]),
        3 => dates_from(table[1], table[2], table[3], table[4]),
        _ => Value::Words(0),
    }
}

// The value that a table says as the data of an identifier in an edition, written at the start of a buffer.
#[tactic(auto, using(crate::specs::Laws::Table::putting_alike))]
pub fn put_value(edition: u64, identifier: u32, table: &[u64], buf: &mut [u8]) -> Outcome
    ensures { (result ≡ put_says (putting edition identifier (value_from table.now) (length buf.old))) × (buf.new ≡ put_leaves buf.old (putting edition identifier (value_from table.now) (length buf.old))) }
{
    let v = value_from(table);
    put::put_value(edition, identifier, v, buf)
}
