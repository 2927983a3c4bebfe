// What every edit begins with, its deck found in its buffer; and what it ends with where rules start elsewhere.
#![tactic(auto)]

ghost use Rattle.std.specs.Prelude.{◌≡◌};
ghost use Rattle.locate.specs.Laws.Located.{last_of};
ghost use Rattle.plan.specs.Laws.Found.{found};
ghost use Rattle.plan.specs.Laws.Finish.{Reindexes, Finishes};

use format::{Fault, Refusal};
use spot::{Site, Spot};

// The deck in the first n bytes of a buffer, and where its rule k stands: 1, 15, 2 to 13.
pub fn find(edition: u64, buf: &[u8], n: usize, k: u64) -> Spot
    ensures { result ≡ found (λ rs. k) edition n buf.now }
{
    if buf.len() < n {
        let Some(_) = kind::edition_of(edition) else {
            return Err(Refusal::At(Fault::Edition, 0));
        };
        return Err(Refusal::At(Fault::Stated, 0));
    }
    let deck = &buf[..n];
    locate::locate(edition, deck, k)
}

// The same, and where its last rule stands.
pub fn find_last(edition: u64, buf: &[u8], n: usize) -> Spot
    ensures { result ≡ found last_of edition n buf.now }
{
    if buf.len() < n {
        let Some(_) = kind::edition_of(edition) else {
            return Err(Refusal::At(Fault::Edition, 0));
        };
        return Err(Refusal::At(Fault::Stated, 0));
    }
    let deck = &buf[..n];
    locate::last(edition, deck)
}

// In version 2 the offsets, which end at base, give way to those of the rules that stand there, so many, to n.
fn reindex(buf: &mut [u8], base: usize, number: u64, n: usize) -> usize
    ensures { Reindexes base number n buf.old result buf.new }
{
    if 256 < number {
        return n;
    }
    if base < 7 {
        return n;
    }
    if n < base {
        return n;
    }
    if buf.len() < n {
        return n;
    }
    let room = 4 * (number as usize);
    let left = n - (base - 7);
    if buf.len() - left < room {
        return n;
    }
    gap::open(buf, n, 7, base, room);
    buffer::put_number(buf, 5, 2, number);
    offsets::put_offsets(buf, number);
    left + room
}

// The rules of the edited list, so many, stand to n behind what stood before those that were found; the length of their deck.
pub fn finish(buf: &mut [u8], f: Site, rules: u64, n: usize) -> usize
    ensures { Finishes f rules n buf.old result buf.new }
{
    if f.version == 2 {
        return reindex(buf, f.base, rules, n);
    }
    buffer::put_number(buf, 5, 2, rules);
    n
}

// The same where as many rules stand there as were found.
pub fn refresh(buf: &mut [u8], f: Site, n: usize) -> usize
    ensures { Finishes f f.rules n buf.old result buf.new }
{
    if f.version == 2 {
        return reindex(buf, f.base, f.rules, n);
    }
    n
}
