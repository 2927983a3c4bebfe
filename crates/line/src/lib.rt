// The lines that the lister prints, put at the start of a buffer: document 01, "One deck whole".
#![tactic(auto)]

ghost use Rattle.std.specs.Prelude.{◌≡◌, ◌+◌, ◌≤◌, length};
ghost use Rattle.digits.specs.Digits.{decimal, hex_digits};
ghost use Rattle.line.specs.Line.{spaced, state, deck_line, rule_line, element_line, end_line, refused_line, Lined};
ghost use Rattle.line.specs.Laws.Line.{numbers_line};
ghost use Rattle.line.specs.Laws.Adds.{Adds};

// More bytes of a line that has at; answers how many it has then.
#[inline(always)]
fn add(line: &mut [u8], at: usize, more: &[u8]) -> usize
    requires { at + length more.now ≤ length line.old }
    ensures { Adds line.old at more.now result line.new }
{
    line[at..at + more.len()].copy_from_slice(more);
    at + more.len()
}

fn add_number(line: &mut [u8], at: usize, n: u64) -> usize
    requires { at + 21 ≤ length line.old }
    ensures { Adds line.old at (spaced (decimal n)) result line.new × (result ≤ at + 21) }
{
    let mut s = [0u8; 20];
    let i = digits::spell(&mut s, n);
    let b = add(line, at, b" ");
    add(line, b, &s[i..])
}

fn add_identifier(line: &mut [u8], at: usize, n: u32) -> usize
    requires { at + 9 ≤ length line.old }
    ensures { Adds line.old at (spaced (hex_digits n)) result line.new × (result ≤ at + 9) }
{
    let s = digits::hex_digits(n);
    let b = add(line, at, b" ");
    add(line, b, &s)
}

fn add_state(line: &mut [u8], at: usize, on: bool) -> usize
    requires { at + 4 ≤ length line.old }
    ensures { Adds line.old at (spaced (state on)) result line.new × (result ≤ at + 4) }
{
    if on {
        return add(line, at, b" ON");
    }
    add(line, at, b" OFF")
}

// A line of a word and two numbers.
fn numbers(line: &mut [u8; 96], word: &[u8], m: u64, n: u64) -> usize
    requires { length word.now ≤ 7 }
    ensures { Lined line.old (numbers_line word.now m n) result line.new }
{
    let a = add(line, 0, word);
    let b = add_number(line, a, m);
    let c = add_number(line, b, n);
    add(line, c, b"\n")
}

pub fn deck(line: &mut [u8; 96], version: u64, bytes: u64) -> usize
    ensures { Lined line.old (deck_line version bytes) result line.new }
{
    numbers(line, b"DECK", version, bytes)
}

pub fn rule(line: &mut [u8; 96], k: u64, on: bool, units: u64, elements: u64) -> usize
    ensures { Lined line.old (rule_line k on units elements) result line.new }
{
    let a = add(line, 0, b"RULE");
    let b = add_number(line, a, k);
    let c = add_state(line, b, on);
    let d = add_number(line, c, units);
    let e = add_number(line, d, elements);
    add(line, e, b"\n")
}

// i is the element's number within its rule.
pub fn element(line: &mut [u8; 96], i: u64, identifier: u32, bytes: u64) -> usize
    ensures { Lined line.old (element_line i identifier bytes) result line.new }
{
    let a = add(line, 0, b"ELEM");
    let b = add_number(line, a, i);
    let c = add_identifier(line, b, identifier);
    let d = add_number(line, c, bytes);
    add(line, d, b"\n")
}

pub fn end(line: &mut [u8; 96], rules: u64, elements: u64) -> usize
    ensures { Lined line.old (end_line rules elements) result line.new }
{
    numbers(line, b"END", rules, elements)
}

pub fn refused(line: &mut [u8; 96], number: u64, place: u64) -> usize
    ensures { Lined line.old (refused_line number place) result line.new }
{
    numbers(line, b"REFUSED", number, place)
}
