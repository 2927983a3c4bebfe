// A copy of a rule of a second deck, inserted at a place of a deck.
#![tactic(auto)]

ghost use Rattle.std.specs.Prelude.{◌≡◌, ◌+◌, ◌-◌, ◌≤◌, ◌<◌, length};
ghost use Rattle.plan.specs.Edit.{insert, Edits};
ghost use Rattle.plan.specs.Laws.Found.{Makes, Within};
ghost use Rattle.insert.specs.Laws.Copy.{copy_size, Puts};
ghost use Rattle.place.specs.Laws.Place.{lost};
ghost use Rattle.insert.specs.Laws.Insert.{Sizes, Copied, Inserts, Copies, Copyable};

use format::{Fault, Outcome, Refusal};
use spot::Site;

// A rule at a place of the buffer, with the head of place i: what stands before its head, and its elements, are given; its Data Size is put anew.
#[tactic(auto, using(crate::specs::Laws::Copy::put_copied))]
fn put_rule(buf: &mut [u8], at: usize, front: &[u8], els: &[u8], i: u64)
    requires { (6 ≤ length front.now) × (at + copy_size front.now els.now i ≤ length buf.old) }
    ensures { Puts buf.old at front.now els.now i buf.new }
{
    let head = at + front.len();
    let long = head::head_size(i);
    buffer::put_bytes(buf, at, front);
    buffer::put_number(buf, head - 6, 4, (2 + long + els.len()) as u64);
    head::put_head(buf, head, i);
    buffer::put_bytes(buf, head + long, els);
}

// The rule of these parts at place k, the place that was found; the buffer has room for it.
#[tactic(auto, using(crate::specs::Laws::Insert::copied_holds))]
fn put_copy(buf: &mut [u8], f: Site, k: u64, len: usize, front: &[u8], els: &[u8])
    requires { Sizes f k buf.old front.now els.now × (len ≡ copy_size front.now els.now k) × (len ≤ 200000) × (f.bytes + (len - lost k f.rules) ≤ length buf.old) }
    ensures { Copied f k front.now els.now buf.old buf.new }
{
    place::open_place(buf, f, k, len);
    put_rule(buf, f.start, front, els, k);
}

// The same, with 18, 19, 20 judged.
#[tactic(auto, using(room::specs::Laws::Room::roomy, crate::specs::Laws::Insert::inserts_out, crate::specs::Laws::Insert::inserts_done))]
fn copy_rule(buf: &mut [u8], f: Site, k: u64, front: &[u8], els: &[u8]) -> Outcome
    requires { Sizes f k buf.old front.now els.now }
    ensures { Inserts f k front.now els.now buf.old result buf.new }
{
    let len = front.len() + head::head_size(k) + els.len();
    let n = f.bytes + (len - place::lost_at(k, f.rules));
    let size = room::room_for(f.rules + 1, n + deck::wide_of(f.version), buf.len())?;
    put_copy(buf, f, k, len, front, els);
    plan::finish(buf, f, f.rules + 1, n);
    Ok(size)
}

// A copy of rule j of the second deck, where g was found.
fn insert_copy(buf: &mut [u8], f: Site, k: u64, second: &[u8], g: Site, j: u64) -> Outcome
    requires { Within f buf.old × (f.start + lost k f.rules ≤ f.bytes) × Copyable second.now j g }
    ensures { Copies f k second.now j g buf.old result buf.new }
{
    if f.rules < k {
        return Err(Refusal::At(Fault::Absent, 0));
    }
    if g.rules <= j {
        return Err(Refusal::At(Fault::Absent, 1));
    }
    let start = g.start;
    let end = g.end;
    let (name, _) = format::in_given(steps::name_end(second, start))?;
    let head = name + 26;
    let first = head + head::head_size(j);
    let front = &second[start..head];
    let els = &second[first..end];
    copy_rule(buf, f, k, front, els)
}

// The second deck judged, then the rest.
fn insert_from(edition: u64, buf: &mut [u8], f: Site, k: u64, second: &[u8], j: u64) -> Outcome
    requires { Within f buf.old × (f.start + lost k f.rules ≤ f.bytes) }
    ensures { Makes edition (λ rs. k) f (insert k second.now j) buf.old result buf.new }
{
    let g = format::in_given(locate::locate(edition, second, j))?;
    insert_copy(buf, f, k, second, g, j)
}

// A copy of rule j of a second deck is inserted at place k.
pub fn insert(edition: u64, buf: &mut [u8], n: usize, k: u64, second: &[u8], j: u64) -> Outcome
    ensures { Edits edition n (insert k second.now j) buf.old result buf.new }
{
    let site = plan::find(edition, buf, n, k)?;
    insert_from(edition, buf, site, k, second, j)
}
