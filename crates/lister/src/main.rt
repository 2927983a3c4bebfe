// Lists the deck on standard input, read as Studio: document 01, "One deck whole".
#![tactic(auto)]

ghost use Rattle.std.specs.Prelude.{◌≤◌};

use fill::{ELEMENT_WIDTH, RULE_WIDTH};
use format::Refusal;
use std::io;

type RuleRow = [u32; RULE_WIDTH];

type ElementRow = [u32; ELEMENT_WIDTH];

type Text = [u8; 96];

// The first bytes of a line's buffer.
fn print(rt: &impl Print, text: &Text, length: usize) -> io::Result<()>
    requires { length ≤ 96 }
{
    rt.write_all(&text[..length])
}

// The elements of a rule.
fn list_elements(rt: &impl Print, text: &mut Text, rows: &[ElementRow]) -> io::Result<()> {
    for (j, row) in rows.iter().enumerate() {
        let length = listed::element_line(text, j, row);
        print(rt, text, length)?;
    }
    Ok(())
}

// The rules, each with its elements behind it; answers how many elements there were.
fn list_rules(
    rt: &impl Print,
    text: &mut Text,
    deck: &[u8],
    rules: &[RuleRow],
    elements: &[ElementRow],
) -> io::Result<usize> {
    let mut rest = elements;
    for (k, row) in rules.iter().enumerate() {
        let length = listed::rule_line(text, deck, k, row);
        print(rt, text, length)?;
        let n = row[3] as usize;
        let Some((own, others)) = rest.split_at_checked(n) else {
            break;
        };
        list_elements(rt, text, own)?;
        rest = others;
    }
    Ok(elements.len() - rest.len())
}

fn list(
    rt: &impl Print,
    deck: &[u8],
    rules: &[RuleRow],
    elements: &[ElementRow],
) -> io::Result<()> {
    let mut text = [0; 96];
    let length = listed::deck_line(&mut text, deck);
    print(rt, &text, length)?;
    let all = list_rules(rt, &mut text, deck, rules, elements)?;
    let length = line::end(&mut text, rules.len() as u64, all as u64);
    print(rt, &text, length)
}

fn refused(rt: &impl Print, number: u64, place: usize) -> io::Result<()> {
    let mut text = [0; 96];
    let length = line::refused(&mut text, number, place as u64);
    print(rt, &text, length)
}

fn main(rt: HostRuntime) -> io::Result<()> {
    let mut space = [0; 65536];
    let length = stream::read_full(&mut rt.stdin(), &mut space)?;
    let deck = &space[..length];
    let mut rules = [[0; RULE_WIDTH]; 256];
    let mut elements = [[0; ELEMENT_WIDTH]; 4096];
    let outcome = tables::read(
        2,
        deck,
        rules.as_flattened_mut(),
        elements.as_flattened_mut(),
    );
    match outcome {
        Ok(count) => list(&rt, deck, &rules[..count.min(256)], &elements),
        Err(Refusal::At(fault, place) | Refusal::Given(fault, place)) => {
            refused(&rt, format::number_of(fault), place)
        }
    }
}
