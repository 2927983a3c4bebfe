// An element added to the last rule of a deck.
#![tactic(auto)]

ghost use Rattle.std.specs.Prelude.{◌+◌, ◌≤◌, ◌<◌, ◌≡◌, length};
ghost use Rattle.buffer.specs.Laid.{put_in};
ghost use Rattle.locate.specs.Laws.Located.{last_of};
ghost use Rattle.plan.specs.Edit.{add_element, Edits};
ghost use Rattle.plan.specs.Laws.Found.{MakesAs, Within};
ghost use Rattle.add_element.specs.Laws.Element.{later_bytes, Grows};

use format::{Fault, Outcome, Refusal};
use kind::Product;
use spot::Site;

// An element behind others of its rule: 8001 first.
#[tactic(auto, using(crate::specs::Laws::Element::later_put))]
fn put_element(buf: &mut [u8], at: usize, identifier: u32, s: &[u8])
    requires { at + 6 + length s.now ≤ length buf.old }
    ensures { buf.new ≡ put_in buf.old at (later_bytes identifier s.now) }
{
    buffer::put_number(buf, at, 2, 0x8001);
    parts::put_behind(buf, at + 2, 4, identifier as u64, s);
}

// To the last of m rules, whose name ends at e and which has count elements.
#[tactic(auto, using(room::specs::Laws::Room::roomy, crate::specs::Laws::Element::grow_out, crate::specs::Laws::Element::grow_short, crate::specs::Laws::Element::grow_done))]
fn grow(
    buf: &mut [u8],
    n: usize,
    m: u64,
    e: usize,
    count: u64,
    identifier: u32,
    s: &[u8],
) -> Outcome
    requires { (e ≤ length buf.old) × (n ≤ 60000) × (count < 64) }
    ensures { Grows n m e count identifier s.now buf.old result buf.new }
{
    let new = n + 6 + s.len();
    let size = room::room_for(m, new, buf.len())?;
    if new < e + 24 {
        return Err(Refusal::At(Fault::Last, 0));
    }
    put_element(buf, n, identifier, s);
    buffer::put_number(buf, e + 20, 4, (new - (e + 24)) as u64);
    buffer::put_number(buf, e + 24, 2, count + 1);
    Ok(size)
}

// To the last rule, the one that was found.
fn element_in(buf: &mut [u8], f: Site, product: Product, identifier: u32, s: &[u8]) -> Outcome
    requires { Within f buf.old }
    ensures { MakesAs product last_of f (add_element identifier s.now) buf.old result buf.new }
{
    if f.rules == 0 {
        return Err(Refusal::At(Fault::Last, 0));
    }
    let (e, _) = steps::name_end(buf, f.start)?;
    let (_, count) = wire::u16_at(buf, e + 24)?;
    if 64 <= count {
        return Err(Refusal::At(Fault::Full, 0));
    }
    format::in_given(given::given_element(product, identifier, s))?;
    grow(buf, f.bytes, f.rules, e, count, identifier, s)
}

// An element is added to the last rule.
pub fn add_element(edition: u64, buf: &mut [u8], n: usize, identifier: u32, s: &[u8]) -> Outcome
    ensures { Edits edition n (add_element identifier s.now) buf.old result buf.new }
{
    let Some(product) = kind::edition_of(edition) else {
        return Err(Refusal::At(Fault::Edition, 0));
    };
    let site = plan::find_last(edition, buf, n)?;
    element_in(buf, site, product, identifier, s)
}
