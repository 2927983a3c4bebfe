// A rule's head, and an element at its place among those of its rule.
#![tactic(auto)]

ghost use Rattle.std.specs.Prelude.{◌≡◌};
ghost use Rattle.element.specs.Laws.Element.{named};
ghost use Rattle.format.specs.Laws.Seen.{seen, none};
ghost use Rattle.rule.specs.Rule.{separator, class_head, head, placed};
ghost use Rattle.rule.specs.Laws.Rule.{lead_at};

use format::{Fault, Read};
use kind::Product;

// The fixed fields of a rule; the signature is with Unknown1.
#[derive(Clone, Copy)]
pub struct Fields {
    pub signature: u32,
    pub on: bool,
    pub unknown2: u32,
    pub unknown3: u32,
    pub unknown4: u32,
    pub unknown5: u32,
}

// 8001.
fn separator_at(s: &[u8], at: usize) -> Read
    ensures { result ≡ seen none separator s.now at }
{
    field::fixed16_at(s, at, 0x8001, Fault::Field)
}

// The long head behind its FFFF: 0000, 000C, `CRuleElement`.
fn class_at(s: &[u8], at: usize) -> Read
    ensures { result ≡ seen none class_head s.now at }
{
    let z = field::fixed16_at(s, at, 0x0000, Fault::Field);
    let Ok((p, _)) = z else {
        return z;
    };
    let n = field::fixed16_at(s, p, 0x000C, Fault::Field);
    let Ok((q, _)) = n else {
        return n;
    };
    wire::fixed96_at(s, q, 0x656C_4565_6C75_5243, 0x746E_656D)
}

// The head of rule i.
pub fn head_at(s: &[u8], at: usize, i: u64) -> Read
    ensures { result ≡ seen none (head i) s.now at }
{
    if i != 0 {
        return separator_at(s, at);
    }
    let f = field::fixed16_at(s, at, 0xFFFF, Fault::Field);
    let Ok((p, _)) = f else {
        return f;
    };
    class_at(s, p)
}

// What stands before the element at place j of its rule: 8001 where it is not the first.
fn lead_at(s: &[u8], at: usize, j: u64) -> Read
    ensures { result ≡ lead_at j s.now at }
{
    if j == 0 {
        return Ok((at, 0));
    }
    separator_at(s, at)
}

// The element at place j of its rule, behind that; its value is its identifier.
pub fn placed_at(s: &[u8], at: usize, product: Product, j: u64) -> Read
    ensures { result ≡ seen named (placed product j) s.now at }
{
    let b = lead_at(s, at, j);
    let Ok((p, _)) = b else {
        return b;
    };
    identified::element_at(s, p, product)
}
