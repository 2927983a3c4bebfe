// Reading a deck into two lent tables of 32-bit numbers: a pass that judges it, then one that fills them.
#![tactic(auto)]

ghost use Rattle.std.specs.Prelude.{◌≡◌, length};
ghost use Rattle.kind.specs.Kinds.{edition_of};
ghost use Rattle.tables.specs.Tables.{in_tables, read_says, rules_after, elements_after};

use fill::{ELEMENT_WIDTH, RULE_WIDTH};
use format::{Fault, Outcome, Refusal};

// Whether tables of so many numbers have room for n rules and m elements: the rule table first.
#[tactic(auto, unfolding(crate::specs::Tables::in_tables, format::specs::Format::pick))]
fn room(n: u64, m: u64, rules: usize, elements: usize) -> Outcome
    ensures { result ≡ in_tables n m rules elements }
{
    if ((rules / RULE_WIDTH) as u64) < n {
        return Err(Refusal::At(Fault::Table, 0));
    }
    if ((elements / ELEMENT_WIDTH) as u64) < m {
        return Err(Refusal::At(Fault::Table, 1));
    }
    Ok(n as usize)
}

// Reads a deck into two tables: the number of rules; or a refusal, with both tables as found.
pub fn read(edition: u64, s: &[u8], rules: &mut [u32], elements: &mut [u32]) -> Outcome
    ensures { (result ≡ read_says (edition_of edition) (length rules.old) (length elements.old) s.now) × ((rules.new ≡ rules_after (edition_of edition) s.now rules.old elements.old) × (elements.new ≡ elements_after (edition_of edition) s.now rules.old elements.old)) }
{
    let Some(product) = kind::edition_of(edition) else {
        return Err(Refusal::At(Fault::Edition, 0));
    };
    let (_, base, n, m) = deck::pass(edition, s)?;
    let count = room(n, m, rules.len(), elements.len())?;
    fill::fill_rules(s, product, base, n, rules, elements)?;
    Ok(count)
}
