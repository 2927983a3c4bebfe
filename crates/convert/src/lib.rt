// Deck version 2 and back: the deck of the same rules in the other version.
#![tactic(auto)]

ghost use Rattle.std.specs.Prelude.{◌≤◌, ◌≡◌, length};
ghost use Rattle.convert.specs.Convert.{Converts};
ghost use Rattle.convert.specs.Laws.Convert.{taken_in, headed, Rewrites};

use format::{Fault, Outcome, Read, Refusal};

// Whether no other version was read.
fn takes(h: Read, version: u64) -> bool
    ensures { result ≡ taken_in version h }
{
    match h {
        Ok((_, v)) => v == version,
        Err(_) => true,
    }
}

// Mark, version and number of rules.
#[tactic(auto, using(crate::specs::Laws::Convert::headed_put))]
fn put_header(buf: &mut [u8], version: u64, n: u64)
    ensures { buf.new ≡ headed version n buf.old }
{
    buffer::put_number(buf, 0, 3, 0x4B_4452);
    buffer::put_number(buf, 3, 2, version);
    buffer::put_number(buf, 5, 2, n);
}

// The n rules of a sound deck, which start at base, in a version.
#[tactic(auto, using(deck::specs::Laws::Deck::index_small, crate::specs::Laws::Convert::length_take_drop, crate::specs::Laws::Convert::rewrite_out, crate::specs::Laws::Convert::rewrite_two, crate::specs::Laws::Convert::rewrite_plain))]
fn rewrite(s: &[u8], base: usize, n: u64, buf: &mut [u8], version: u64) -> Outcome
    requires { (base ≤ length s.now) × (length s.now ≤ 60000) × (n ≤ 256) }
    ensures { Rewrites s.now base n version buf.old result buf.new }
{
    let start = 7 + deck::wide_of(version) * (n as usize);
    let rules = &s[base..];
    let size = room::room_for(n, start + rules.len(), buf.len())?;
    put_header(buf, version, n);
    buffer::put_bytes(buf, start, rules);
    if version == 2 {
        offsets::put_offsets(buf, n);
    }
    Ok(size)
}

// A deck of one version alone, in another.
fn convert(edition: u64, s: &[u8], buf: &mut [u8], from: u64, to: u64) -> Outcome
    ensures { Converts edition from to s.now buf.old result buf.new }
{
    let Some(_) = kind::edition_of(edition) else {
        return Err(Refusal::At(Fault::Edition, 0));
    };
    if 60000 < s.len() {
        return Err(Refusal::At(Fault::Long, 60000));
    }
    if !takes(deck::version_at(s), from) {
        return Err(Refusal::At(Fault::Version, 3));
    }
    let (_, base, n, _) = deck::pass(edition, s)?;
    rewrite(s, base, n, buf, to)
}

// A deck of version 1 in version 2.
pub fn to_2(edition: u64, s: &[u8], buf: &mut [u8]) -> Outcome
    ensures { Converts edition 1 2 s.now buf.old result buf.new }
{
    convert(edition, s, buf, 1, 2)
}

// A deck of version 2 in version 1.
pub fn to_1(edition: u64, s: &[u8], buf: &mut [u8]) -> Outcome
    ensures { Converts edition 2 1 s.now buf.old result buf.new }
{
    convert(edition, s, buf, 2, 1)
}
