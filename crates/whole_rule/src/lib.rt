// A rule at a place, whole: its fields, Data Size, elements.
#![tactic(auto)]

ghost use Rattle.std.specs.Prelude.{◌≡◌, length};
ghost use Rattle.format.specs.Combinators.{each, sized};
ghost use Rattle.format.specs.Laws.Seen.{seen, none};
ghost use Rattle.rule.specs.Rule.{placed, body, from_unknown2, rule, elements_in};

use format::{Fault, Read, Refusal};
use kind::Product;

// n elements of a rule.
fn elements_at(s: &[u8], at: usize, product: Product, n: u64) -> Read
    ensures { result ≡ seen none (each (placed product) 0 n) s.now at }
{
    each::each_at(|p, j| rule::placed_at(s, p, product, j), at, n)
}

// The number of elements of rule i, its head and its elements; the value is their number, and so up to the rule.
fn body_at(s: &[u8], at: usize, product: Product, i: u64) -> Read
    ensures { result ≡ seen length (body product i) s.now at }
{
    let c = field::count16_at(s, at, 1, 64);
    let Ok((p, n)) = c else {
        return c;
    };
    let h = rule::head_at(s, p, i);
    let Ok((q, _)) = h else {
        return h;
    };
    let x = elements_at(s, q, product, n);
    let Ok((e, _)) = x else {
        return x;
    };
    Ok((e, n))
}

// The Data Size of rule i and what it counts.
fn sized_at(s: &[u8], at: usize, product: Product, i: u64) -> Read
    ensures { result ≡ seen length (sized Fault.Size (body product i)) s.now at }
{
    let d = wire::u32_at(s, at);
    let Ok((p, size)) = d else {
        return d;
    };
    let rest = body_at(s, p, product, i);
    let Ok((q, _)) = rest else {
        return rest;
    };
    if p + size as usize != q {
        return Err(Refusal::At(Fault::Size, at));
    }
    rest
}

// Unknown2 to Unknown5, and from Data Size on; all five are there, or the first that is not is cut.
fn unknown2_at(s: &[u8], at: usize, product: Product, i: u64) -> Read
    ensures { result ≡ seen (λ f. length f.1.1.1.1) (from_unknown2 product i) s.now at }
{
    let u = wire::numbers_at(s, at, 5);
    let Ok((p, _)) = u else {
        return u;
    };
    sized_at(s, p - 4, product, i)
}

// Rule i at the start of a part.
fn read_rule(rest: &[u8], product: Product, i: u64) -> Read
    ensures { result ≡ seen elements_in (rule product i) rest.now 0 }
{
    let a = wire::u32_at(rest, 0);
    let Ok((p, _)) = a else {
        return a;
    };
    let name = text::string_end(rest, p);
    let Ok((q, _)) = name else {
        return name;
    };
    let on = field::flag_at(rest, q);
    let Ok((e, _)) = on else {
        return on;
    };
    unknown2_at(rest, e, product, i)
}

// Rule i at a place.
pub fn rule_at(s: &[u8], at: usize, product: Product, i: u64) -> Read
    ensures { result ≡ seen elements_in (rule product i) s.now at }
{
    if s.len() < at {
        return Err(Refusal::At(Fault::Cut, at));
    }
    let rest = &s[at..];
    let r = read_rule(rest, product, i);
    match r {
        Ok((n, v)) => Ok((at + n, v)),
        Err(why) => Err(format::further(why, at)),
    }
}
