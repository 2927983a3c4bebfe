// The word list that is the last element of a rule.
#![tactic(auto)]

ghost use Rattle.std.specs.Prelude.{IfErr};
ghost use Rattle.format.specs.Laws.Fault.{Own};
ghost use Rattle.format.specs.Laws.Back.{Where};
ghost use Rattle.element.specs.Data.{word_data, data_of};
ghost use Rattle.rule.specs.Rule.{rule};
ghost use Rattle.walk.specs.Laws.Elements.{Carries};
ghost use Rattle.list.specs.Laws.List.{list_of, last_list};

use format::{Fault, Read, Refusal};
use kind::{Kind, Product};

// The number of words of the data of a list, and where it stands: at their start.
#[tactic(auto, using(crate::specs::Laws::List::list_is))]
fn word_count(s: &[u8], at: usize) -> Read
    ensures { Where word_data s.now at (list_of at) result × IfErr result Own }
{
    let z = wire::u32_at(s, at);
    let Ok((_, count)) = z else {
        return z;
    };
    Ok((at, count))
}

// The same of the data of a kind.
#[tactic(auto, using(walk::specs::Laws::Elements::of_kind, crate::specs::Laws::List::list_other))]
fn list_of(s: &[u8], at: usize, kind: Kind) -> Read
    ensures { Where (data_of kind) s.now at (list_of at) result × IfErr result Own }
{
    match kind {
        Kind::WordList => word_count(s, at),
        Kind::Marker => Err(Refusal::At(Fault::Last, 0)),
        Kind::Simple(_) => Err(Refusal::At(Fault::Last, 0)),
        Kind::Size(_) => Err(Refusal::At(Fault::Last, 0)),
        Kind::Dates(_) => Err(Refusal::At(Fault::Last, 0)),
    }
}

// The same of the element at place j of its rule.
#[tactic(auto, using(walk::specs::Laws::Elements::carries_cut, walk::specs::Laws::Elements::carries_none))]
fn list_in(s: &[u8], at: usize, product: Product, j: u64) -> Read
    ensures { Carries product s.now at j list_of result × IfErr result Own }
{
    let x = walk::identifier_at(s, at, j);
    let Ok((q, identifier)) = x else {
        return x;
    };
    let kind = row::row_for(product, identifier)?;
    list_of(s, q, kind)
}

// The same of the last element of rule i, which starts at a place.
#[tactic(auto, using(crate::specs::Laws::List::last_list_cut, crate::specs::Laws::List::last_list_none, crate::specs::Laws::List::last_list_never, crate::specs::Laws::List::last_list_is))]
pub fn list_at(s: &[u8], at: usize, product: Product, i: u64) -> Read
    ensures { Where (rule product i) s.now at (last_list product i at) result × IfErr result Own }
{
    let c = walk::elements_of(s, at, i);
    let Ok((p, count)) = c else {
        return c;
    };
    if count == 0 {
        return Err(Refusal::At(Fault::Last, 0));
    }
    let r = walk::element_start(s, p, product, count - 1);
    let Ok((t, _)) = r else {
        return r;
    };
    list_in(s, t, product, count - 1)
}
