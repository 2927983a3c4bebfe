// The data of an element, by its kind.
#![tactic(auto)]

ghost use Rattle.std.specs.Prelude.{◌≡◌};
ghost use Rattle.format.specs.Combinators.{each};
ghost use Rattle.format.specs.Laws.Seen.{seen, none};
ghost use Rattle.text.specs.Text.{word};
ghost use Rattle.element.specs.Data.{one_zero, marker_data, word_data, size_data, limit, date_data, data_of};

use format::Read;
use kind::Kind;

// 1, 0, the two words that most data begin with, one after the other.
fn one_then_zero_at(s: &[u8], at: usize) -> Read
    ensures { result ≡ seen none one_zero s.now at }
{
    let a = field::fixed32_at(s, at, 1);
    let Ok((p, _)) = a else {
        return a;
    };
    field::fixed32_at(s, p, 0)
}

// The same, both at once where they are right.
fn one_zero_at(s: &[u8], at: usize) -> Read
    ensures { result ≡ seen none one_zero s.now at }
{
    let w = wire::u64_at(s, at);
    let Ok((p, x)) = w else {
        return one_then_zero_at(s, at);
    };
    if x != 1 {
        return one_then_zero_at(s, at);
    }
    Ok((p, 0))
}

fn marker_at(s: &[u8], at: usize) -> Read
    ensures { result ≡ seen none marker_data s.now at }
{
    let a = one_zero_at(s, at);
    let Ok((p, _)) = a else {
        return a;
    };
    field::fixed32_at(s, p, 1)
}

// n words.
pub fn words_at(s: &[u8], at: usize, n: u64) -> Read
    ensures { result ≡ seen none (each (λ i. word) 0 n) s.now at }
{
    each::each_at(|p, _| text::word_end(s, p), at, n)
}

fn word_list_at(s: &[u8], at: usize) -> Read
    ensures { result ≡ seen none word_data s.now at }
{
    let c = field::count32_at(s, at, 0, 64);
    let Ok((p, n)) = c else {
        return c;
    };
    words_at(s, p, n)
}

fn size_at(s: &[u8], at: usize) -> Read
    ensures { result ≡ seen none size_data s.now at }
{
    let a = one_zero_at(s, at);
    let Ok((p, _)) = a else {
        return a;
    };
    let min = wire::u32_at(s, p);
    let Ok((q, _)) = min else {
        return min;
    };
    format::untold(wire::u32_at(s, q))
}

// One end of a date span: flag, 0, date.
fn limit_at(s: &[u8], at: usize) -> Read
    ensures { result ≡ seen none limit s.now at }
{
    let f = field::flag_at(s, at);
    let Ok((p, _)) = f else {
        return f;
    };
    let z = field::fixed32_at(s, p, 0);
    let Ok((q, _)) = z else {
        return z;
    };
    format::untold(date::date_at(s, q))
}

fn dates_at(s: &[u8], at: usize) -> Read
    ensures { result ≡ seen none date_data s.now at }
{
    let a = one_zero_at(s, at);
    let Ok((p, _)) = a else {
        return a;
    };
    let after = limit_at(s, p);
    let Ok((q, _)) = after else {
        return after;
    };
    limit_at(s, q)
}

// The data of a kind.
pub fn data_at(s: &[u8], at: usize, kind: Kind) -> Read
    ensures { result ≡ seen none (data_of kind) s.now at }
{
    match kind {
        Kind::Marker => marker_at(s, at),
        Kind::Simple(_) => one_zero_at(s, at),
        Kind::WordList => word_list_at(s, at),
        Kind::Size(_) => size_at(s, at),
        Kind::Dates(_) => dates_at(s, at),
    }
}
