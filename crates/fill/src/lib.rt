// The rows of the rules and elements of a deck that was accepted, put into two lent tables of 32-bit numbers.
#![tactic(auto)]

ghost use Rattle.std.specs.Prelude.{◌≡◌, ◌≤◌, ◌<◌, ◌+◌, ◌^◌, length, IfErr};
ghost use Rattle.format.specs.Laws.Fault.{Own};
ghost use Rattle.rule.specs.Places.{data_at};
ghost use Rattle.buffer.specs.Laid.{put};
ghost use Rattle.fill.specs.Laws.Fill.{Under, ElementsFill};
ghost use Rattle.fill.specs.Laws.Parts.{BodyFill, PartFill, RuleFill, RulesFill};

use format::{Fault, Read, Refusal};
use kind::Product;

// The numbers of a row.
pub const RULE_WIDTH: usize = 5;

pub const ELEMENT_WIDTH: usize = 4;

// A row at a place of a table that has room for it.
fn put_row(t: &mut [u32], at: usize, row: &[u32])
    ensures { at + length row.now ≤ length t.old → t.new ≡ put t.old at row.now }
{
    if t.len() < at {
        return;
    }
    let _ = lent::put_row(&mut t[at..], row);
}

// What follows goes over a deck that was accepted; its bounds only keep sums from wrapping.

// A rule as its rows go by it: where it starts in the deck, its number, and where its elements' rows start in their table.
#[derive(Clone, Copy)]
struct Entry {
    start: usize,
    i: u64,
    k: usize,
    ghost start_bound: { start < 2 ^ 28 },
    ghost i_bound: { i ≤ 256 },
    ghost k_bound: { k < 2 ^ 30 },
}

// Where the data of an element start that stands at place j of its rule.
#[tactic(auto, unfolding(format::specs::Format::pick))]
fn data_start(j: u64, at: usize) -> usize
    requires { at < 2 ^ 31 }
    ensures { (result ≡ data_at j at) × (result ≤ at + 6) }
{
    if j == 0 {
        return at + 4;
    }
    at + 6
}

// n elements of a rule, in the rule's part, and their rows; the value is n.
fn fill_elements(
    rest: &[u8],
    at: usize,
    product: Product,
    n: u64,
    t: &mut [u32],
    rule: Entry,
) -> Read
    requires rest_len_bound { length rest.now ≤ 60000 }
    requires at_bound { at < 2 ^ 30 }
    requires n_bound { n < 2 ^ 16 }
    ensures { ElementsFill product rest.now at rule.start rule.i n rule.k t.old t.new result × Under (at + 60000) result }
{
    let mut p = at;
    for j in 0..n {
        let r = rule::placed_at(rest, p, product, j);
        let Ok((q, id)) = r else {
            return r;
        };
        let d = data_start(j, rule.start + p);
        let row = [id as u32, rule.i as u32, d as u32, (rule.start + q) as u32];
        put_row(t, rule.k + ELEMENT_WIDTH * (j as usize), &row);
        p = q;
    }
    Ok((p, n))
}

// The number of a rule's elements, its head and its elements, in its part, and their rows; the value is their number.
fn fill_body(rest: &[u8], at: usize, product: Product, t: &mut [u32], rule: Entry) -> Read
    requires rest_len_bound { length rest.now ≤ 60000 }
    requires at_bound { at < 2 ^ 29 }
    ensures { BodyFill product rest.now at rule.start rule.i rule.k t.old t.new result × Under (at + 120000) result }
{
    let c = wire::u16_at(rest, at);
    let Ok((p, n)) = c else {
        return c;
    };
    let h = rule::head_at(rest, p, rule.i);
    let Ok((q, _)) = h else {
        return h;
    };
    fill_elements(rest, q, product, n, t, rule)
}

// A rule at the start of its part: its row, and the rows of its elements; the value is their number.
#[tactic(auto, using(text::specs::Laws::Written::length_three, crate::specs::Laws::Fill::under_got))]
fn fill_part(
    rest: &[u8],
    product: Product,
    rules: &mut [u32],
    elements: &mut [u32],
    rule: Entry,
) -> Read
    requires rest_len_bound { length rest.now ≤ 60000 }
    ensures { PartFill product rest.now rule.start rule.i rule.k rules.old rules.new elements.old elements.new result × Under 200000 result }
{
    let (enabled, form, _) = text::string_at(rest, 4)?;
    let units = 4 + text::length_size(form);
    let r = fill_body(rest, enabled + 24, product, elements, rule);
    let Ok((end, n)) = r else {
        return r;
    };
    let row = [
        rule.start as u32,
        (rule.start + end) as u32,
        (rule.start + units) as u32,
        n as u32,
        (rule.start + enabled) as u32,
    ];
    put_row(rules, RULE_WIDTH * (rule.i as usize), &row);
    r
}

// A rule, from the part of the deck that starts at it, with the rows of its elements.
#[tactic(auto, using(crate::specs::Laws::Fill::under_got))]
fn fill_rule(
    s: &[u8],
    product: Product,
    rules: &mut [u32],
    elements: &mut [u32],
    rule: Entry,
) -> Read
    requires s_len_bound { length s.now ≤ 60000 }
    ensures { RuleFill product s.now rule.start rule.i rule.k rules.old rules.new elements.old elements.new result × Under (rule.start + 200000) result }
{
    let at = rule.start;
    if s.len() < at {
        return Err(Refusal::At(Fault::Cut, at));
    }
    let rest = &s[at..];
    let r = fill_part(rest, product, rules, elements, rule);
    match r {
        Ok((p, n)) => Ok((at + p, n)),
        Err(why) => Err(format::further(why, at)),
    }
}

// The n rules of a deck that was accepted, which start at base; the value is n.
#[tactic(auto, using(crate::specs::Laws::Fill::under_got, crate::specs::Laws::Parts::rules_start))]
pub fn fill_rules(
    s: &[u8],
    product: Product,
    base: usize,
    n: u64,
    rules: &mut [u32],
    elements: &mut [u32],
) -> Read
    ensures { RulesFill product s.now base n rules.old rules.new elements.old elements.new result × IfErr result Own }
{
    if 60000 < s.len() {
        return Err(Refusal::At(Fault::Long, 60000));
    }
    if s.len() < base {
        return Err(Refusal::At(Fault::Cut, base));
    }
    if 256 < n {
        return Err(Refusal::At(Fault::Count, 5));
    }
    let mut p = base;
    let mut k: usize = 0;
    for i in 0..n {
        let rule = Entry { start: p, i, k };
        let r = fill_rule(s, product, rules, elements, rule);
        let Ok((q, m)) = r else {
            return r;
        };
        k += ELEMENT_WIDTH * (m as usize);
        p = q;
    }
    Ok((p, n))
}
