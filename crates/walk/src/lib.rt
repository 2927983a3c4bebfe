// The elements of a rule of a sound deck: how many they are, where each starts, and its identifier.
#![tactic(auto)]

ghost use Rattle.std.specs.Prelude.{IfErr};
ghost use Rattle.format.specs.Laws.Fault.{Own};
ghost use Rattle.format.specs.Laws.Skip.{Skipped};
ghost use Rattle.rule.specs.Rule.{placed};
ghost use Rattle.walk.specs.Laws.Elements.{Counts, Elements, Identifies};

use format::{Fault, Read, Refusal};
use kind::Product;

// The number of elements of rule i, and where they start behind its head.
fn counted_at(s: &[u8], at: usize, i: u64) -> Read
    ensures { Counts s.now at i result × IfErr result Own }
{
    let c = wire::u16_at(s, at);
    let Ok((p, n)) = c else {
        return c;
    };
    let h = rule::head_at(s, p, i);
    let Ok((q, _)) = h else {
        return h;
    };
    Ok((q, n))
}

// The same, from the start of rule i.
pub fn elements_of(s: &[u8], at: usize, i: u64) -> Read
    ensures { Elements s.now at i result × IfErr result Own }
{
    let t = steps::name_end(s, at);
    let Ok((e, _)) = t else {
        return t;
    };
    if wire::left(s, e) < 24 {
        return Err(Refusal::At(Fault::Cut, e));
    }
    counted_at(s, e + 24, i)
}

// Where element e of a row of elements starts.
pub fn element_start(s: &[u8], at: usize, product: Product, e: u64) -> Read
    ensures { Skipped (placed product) s.now at e e result × IfErr result Own }
{
    each::each_at(|p, j| rule::placed_at(s, p, product, j), at, e)
}

// The identifier of the element at place j of its rule, behind its 8001; it ends where its data start.
pub fn identifier_at(s: &[u8], at: usize, j: u64) -> Read
    ensures { Identifies s.now at j result × IfErr result Own }
{
    if j == 0 {
        return wire::u32_at(s, at);
    }
    if wire::left(s, at) < 2 {
        return Err(Refusal::At(Fault::Cut, at));
    }
    wire::u32_at(s, at + 2)
}
