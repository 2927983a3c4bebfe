// The line of a deck, from its bytes, and of a rule and an element, from its row of the tables too: document 01, "One deck whole".
#![tactic(auto)]

ghost use Rattle.std.specs.Prelude.{◌≡◌, ◌-◌, ◌/◌, drop};
ghost use Rattle.format.specs.Combinators.{number};
ghost use Rattle.line.specs.Line.{Lined};
ghost use Rattle.listed.specs.Listed.{entry as Listed·entry, version_in, deck_listed, is_on, rule_listed, element_listed};

// Number j of a row; 0 past its end.
pub fn entry(row: &[u32], j: usize) -> u32
    ensures { result ≡ Listed·entry row.now j }
{
    if row.len() <= j {
        return 0;
    }
    row[j]
}

// The version that stands behind the mark; 0 where there is none.
fn version_of(s: &[u8]) -> u64
    ensures { result ≡ version_in ((number 2).read (drop 3 s.now)) }
{
    let r = wire::u16_at(s, 3);
    match r {
        Ok((_, version)) => version,
        Err(_) => 0,
    }
}

// A deck, by its bytes.
pub fn deck_line(line: &mut [u8; 96], s: &[u8]) -> usize
    ensures { Lined line.old (deck_listed s.now) result line.new }
{
    let version = version_of(s);
    line::deck(line, version, s.len() as u64)
}

// Whether the Enabled at a place is on.
fn is_on(s: &[u8], at: usize) -> bool
    ensures { result ≡ is_on ((number 4).read (drop at s.now)) }
{
    let r = wire::u32_at(s, at);
    match r {
        Ok((_, enabled)) => enabled == 1,
        Err(_) => false,
    }
}

// The units of a name stand between two places.
fn units_between(first: u32, end: u32) -> u32
    ensures { result ≡ (end - first) / 2 }
{
    if end < first {
        return 0;
    }
    (end - first) / 2
}

// Rule k, by its row.
pub fn rule_line(line: &mut [u8; 96], s: &[u8], k: usize, row: &[u32]) -> usize
    ensures { Lined line.old (rule_listed s.now k row.now) result line.new }
{
    let units = entry(row, 2);
    let elements = entry(row, 3);
    let enabled = entry(row, 4);
    let on = is_on(s, enabled as usize);
    let n = units_between(units, enabled);
    line::rule(line, k as u64, on, n as u64, elements as u64)
}

// Element j of its rule, by its row.
pub fn element_line(line: &mut [u8; 96], j: usize, row: &[u32]) -> usize
    ensures { Lined line.old (element_listed j row.now) result line.new }
{
    let identifier = entry(row, 0);
    let start = entry(row, 2);
    let end = entry(row, 3);
    if end < start {
        return line::element(line, j as u64, identifier, 0);
    }
    line::element(line, j as u64, identifier, (end - start) as u64)
}
