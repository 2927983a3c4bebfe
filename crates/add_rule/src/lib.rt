// A rule added at the end of a deck.
#![tactic(auto)]

ghost use Rattle.std.specs.Prelude.{ℕ, ◌+◌, ◌≤◌, ◌<◌, ◌≡◌, true, length};
ghost use Rattle.buffer.specs.Laid.{put_in};
ghost use Rattle.locate.specs.Laws.Located.{last_of};
ghost use Rattle.rule.specs.Laws.Parts.{head_bytes};
ghost use Rattle.parts.specs.Laws.Text.{text_bytes};
ghost use Rattle.given.specs.Given.{is_text};
ghost use Rattle.plan.specs.Edit.{add_rule, Edits};
ghost use Rattle.plan.specs.Handed.{HandedFields};
ghost use Rattle.plan.specs.Laws.Found.{MakesAs};
ghost use Rattle.add_rule.specs.Laws.Rule.{kept_bytes, front_bytes, back_bytes, Extends};

use format::{Fault, Outcome, Refusal};
use kind::Product;
use rule::Fields;
use spot::Site;

// Enabled and Unknown2 to Unknown5.
#[tactic(auto, using(crate::specs::Laws::Rule::kept_put))]
fn put_kept(buf: &mut [u8], at: usize, fields: Fields)
    requires { at + 20 ≤ length buf.old }
    ensures { buf.new ≡ put_in buf.old at (kept_bytes fields) }
{
    buffer::put_flag(buf, at, fields.on);
    buffer::put_number(buf, at + 4, 4, fields.unknown2 as u64);
    buffer::put_number(buf, at + 8, 4, fields.unknown3 as u64);
    buffer::put_number(buf, at + 12, 4, fields.unknown4 as u64);
    buffer::put_number(buf, at + 16, 4, fields.unknown5 as u64);
}

// What stands before Data Size: signature, name, the kept fields.
#[tactic(auto, using(parts::specs::Laws::Text::text_size_lem, crate::specs::Laws::Rule::front_put))]
fn put_front(buf: &mut [u8], at: usize, name: &[u8], fields: Fields)
    requires { (is_text name.now ≡ true) × (at + 24 + length (text_bytes name.now) ≤ length buf.old) }
    ensures { (buf.new ≡ put_in buf.old at (front_bytes name.now fields)) × HandedFields fields }
{
    buffer::put_number(buf, at, 4, fields.signature as u64);
    parts::put_text(buf, at + 4, name);
    let size = parts::text_size(name);
    put_kept(buf, at + 4 + size, fields);
}

// Data Size, the number of elements, the head of rule i and its only element.
#[tactic(auto, using(crate::specs::Laws::Rule::back_put))]
fn put_back(buf: &mut [u8], at: usize, i: u64, identifier: u32, s: &[u8])
    requires { at + 10 + length (head_bytes i) + length s.now ≤ length buf.old }
    ensures { buf.new ≡ put_in buf.old at (back_bytes i identifier s.now) }
{
    let head = head::head_size(i);
    buffer::put_number(buf, at, 4, (6 + head + s.len()) as u64);
    buffer::put_number(buf, at + 4, 2, 1);
    head::put_head(buf, at + 6, i);
    parts::put_behind(buf, at + 6 + head, 4, identifier as u64, s);
}

// Behind the rules of the deck that was found.
#[tactic(auto, using(room::specs::Laws::Room::roomy, parts::specs::Laws::Text::text_small, parts::specs::Laws::Text::text_size_lem, crate::specs::Laws::Rule::extend_out, crate::specs::Laws::Rule::extend_done))]
fn extend(
    buf: &mut [u8],
    site: Site,
    name: &[u8],
    fields: Fields,
    identifier: u32,
    s: &[u8],
) -> Outcome
    requires { (site.bytes ≤ 60000) × (site.rules ≤ 256) × (is_text name.now ≡ true) }
    ensures { Extends site name.now fields identifier s.now buf.old result buf.new }
{
    let at = site.bytes + 24 + parts::text_size(name);
    let end = at + 10 + head::head_size(site.rules) + s.len();
    let size = room::room_for(site.rules + 1, end + deck::wide_of(site.version), buf.len())?;
    put_front(buf, site.bytes, name, fields);
    put_back(buf, at, site.rules, identifier, s);
    plan::finish(buf, site, site.rules + 1, end);
    Ok(size)
}

// What is given judged, then the rest.
fn rule_in(
    buf: &mut [u8],
    site: Site,
    product: Product,
    name: &[u8],
    fields: Fields,
    identifier: u32,
    s: &[u8],
) -> Outcome
    requires { (site.bytes ≤ 60000) × (site.rules ≤ 256) }
    ensures { MakesAs product last_of site (add_rule name.now fields identifier s.now) buf.old result buf.new }
{
    let text = given::is_text(name);
    if !text {
        return Err(Refusal::At(Fault::Text, 0));
    }
    format::in_given(given::given_element(product, identifier, s))?;
    extend(buf, site, name, fields, identifier, s)
}

// A rule is added at the end, with its name, its fixed fields and its first element.
pub fn add_rule(
    edition: u64,
    buf: &mut [u8],
    n: usize,
    name: &[u8],
    fields: Fields,
    identifier: u32,
    s: &[u8],
) -> Outcome
    ensures { Edits edition n (add_rule name.now fields identifier s.now) buf.old result buf.new }
{
    let Some(product) = kind::edition_of(edition) else {
        return Err(Refusal::At(Fault::Edition, 0));
    };
    let site = plan::find_last(edition, buf, n)?;
    rule_in(buf, site, product, name, fields, identifier, s)
}
