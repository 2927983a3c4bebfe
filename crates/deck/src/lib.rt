// The deck: a pass over it, and its check.
#![tactic(auto)]

ghost use Rattle.std.specs.Prelude.{◌≡◌, ◌+◌, ◌-◌, ◌*◌, ◌≤◌, length};
ghost use Rattle.format.specs.Combinators.{number, each};
ghost use Rattle.format.specs.Indexed.{indexed};
ghost use Rattle.format.specs.Row.{total};
ghost use Rattle.format.specs.Laws.Seen.{seen, itself, none};
ghost use Rattle.format.specs.Laws.Indexed.{offset_is};
ghost use Rattle.rule.specs.Rule.{rule, elements_in};
ghost use Rattle.scan.specs.Scan.{scan_says};
ghost use Rattle.deck.specs.Deck.{version, wide, read_as, read_deck, scanned, answered};
ghost use Rattle.deck.specs.Laws.Deck.{Turn};

use format::{Fault, Outcome, Read, Refusal};
use kind::Product;
use scan::Scan;

// Mark and version; the value is the version.
pub fn version_at(s: &[u8]) -> Read
    ensures { result ≡ seen itself version s.now 0 }
{
    let m = field::fixed24_at(s, 0, 0x4B_4452, Fault::Mark);
    let Ok((p, _)) = m else {
        return m;
    };
    let v = wire::u16_at(s, p);
    let Ok((_, n)) = v else {
        return v;
    };
    if n < 1 {
        return Err(Refusal::At(Fault::Version, p));
    }
    if 2 < n {
        return Err(Refusal::At(Fault::Version, p));
    }
    v
}

// How many bytes an offset has in a version.
pub fn wide_of(version: u64) -> usize
    ensures { (result ≡ wide version) × (result ≤ 4) }
{
    if version == 2 {
        return 4;
    }
    0
}

// n offsets.
fn index_at(s: &[u8], version: u64, n: u64) -> Read
    requires { n ≤ 256 }
    ensures { result ≡ seen none (each (λ i. number (wide version)) 0 n) s.now 7 }
{
    if version != 2 {
        return Ok((7, 0));
    }
    wire::numbers_at(s, 7, n as u16)
}

// Whether the offset of rule i is p.
fn starts_at(s: &[u8], version: u64, i: u64, p: usize) -> bool
    requires { (i ≤ 256) × (wide version * (i + 1) ≤ length s.now - 7) × (p ≤ 60000) }
    ensures { result ≡ offset_is (wide version) 7 s.now i p }
{
    if version != 2 {
        return true;
    }
    let o = wire::u32_at(s, 7 + 4 * (i as usize));
    let Ok((_, x)) = o else {
        return false;
    };
    x == p as u64
}

// n rules from base on, behind their offsets; the value is the number of their elements.
fn rules_at(s: &[u8], base: usize, product: Product, version: u64, n: u64) -> Read
    requires { Turn product version n s.now 0 0 base × (n ≤ 256) × (length s.now ≤ 60000) }
    ensures { result ≡ seen (total elements_in) (indexed (wide version) 7 Fault.Offset (rule product) n) s.now 7 }
{
    let mut t = 0;
    let mut p = base;
    for i in 0..n {
        if !starts_at(s, version, i, p) {
            return Err(Refusal::At(Fault::Offset, 7 + 4 * (i as usize)));
        }
        let r = whole_rule::rule_at(s, p, product, i);
        let Ok((q, v)) = r else {
            return r;
        };
        t += v;
        p = q;
    }
    Ok((p, t))
}

// A pass over a deck by a product: 2 first, 13 last.
fn pass_as(product: Product, s: &[u8]) -> Scan
    ensures { result ≡ scanned (read_as product s.now) }
{
    if 60000 < s.len() {
        return Err(Refusal::At(Fault::Long, 60000));
    }
    let (p, version) = version_at(s)?;
    let (_, n) = field::count16_at(s, p, 0, 256)?;
    let (base, _) = index_at(s, version, n)?;
    let (q, t) = rules_at(s, base, product, version, n)?;
    if q != s.len() {
        return Err(Refusal::At(Fault::Over, q));
    }
    Ok((version, base, n, t))
}

// A pass over a deck.
pub fn pass(edition: u64, s: &[u8]) -> Scan
    ensures { (result ≡ scanned (read_deck edition s.now)) × (scan_says result ≡ answered (read_deck edition s.now)) }
{
    let Some(product) = kind::edition_of(edition) else {
        return Err(Refusal::At(Fault::Edition, 0));
    };
    pass_as(product, s)
}

// The deck check: the number of rules, or a refusal.
pub fn check(edition: u64, s: &[u8]) -> Outcome
    ensures { result ≡ answered (read_deck edition s.now) }
{
    scan::scan_says(pass(edition, s))
}
