// An edit at the end of a deck: a word is added to the list that is the last element of the last rule.
#![tactic(auto)]

ghost use Rattle.std.specs.Prelude.{◌≤◌, ◌<◌, ◌≡◌, true, length};
ghost use Rattle.locate.specs.Laws.Located.{last_of};
ghost use Rattle.given.specs.Given.{is_text};
ghost use Rattle.plan.specs.Edit.{add_word, Edits};
ghost use Rattle.plan.specs.Laws.Found.{MakesAs, Within};
ghost use Rattle.word.specs.Laws.Word.{Lengthens};

use format::{Fault, Outcome, Refusal};
use kind::Product;
use spot::Site;

// To the list of count words, a number that stands at t, in the last of m rules, whose name ends at e.
#[tactic(auto, using(parts::specs::Laws::Text::text_small, crate::specs::Laws::Word::lengthen_out, crate::specs::Laws::Word::lengthen_done))]
fn lengthen(
    buf: &mut [u8],
    n: usize,
    m: u64,
    e: usize,
    t: usize,
    count: u64,
    word: &[u8],
) -> Outcome
    requires { (e ≤ length buf.old) × (n ≤ 60000) × (count < 64) × (is_text word.now ≡ true) }
    ensures { Lengthens n m e t count word.now buf.old result buf.new }
{
    let size = parts::text_size(word);
    let new = n + 4 + size;
    let total = room::room_for(m, new, buf.len())?;
    if new < e + 24 {
        return Err(Refusal::At(Fault::Last, 0));
    }
    buffer::put_number(buf, n, 4, 0);
    parts::put_text(buf, n + 4, word);
    buffer::put_number(buf, e + 20, 4, (new - (e + 24)) as u64);
    buffer::put_number(buf, t, 4, count + 1);
    Ok(total)
}

// To the last rule, the one that was found.
fn word_in(buf: &mut [u8], f: Site, product: Product, word: &[u8]) -> Outcome
    requires { Within f buf.old }
    ensures { MakesAs product last_of f (add_word word.now) buf.old result buf.new }
{
    if f.rules == 0 {
        return Err(Refusal::At(Fault::Last, 0));
    }
    let (e, _) = steps::name_end(buf, f.start)?;
    let (t, count) = list::list_at(buf, f.start, product, f.rules - 1)?;
    if 64 <= count {
        return Err(Refusal::At(Fault::Full, 0));
    }
    let text = given::is_text(word);
    if !text {
        return Err(Refusal::At(Fault::Text, 0));
    }
    lengthen(buf, f.bytes, f.rules, e, t, count, word)
}

// A word is added to the list that is the last element of the last rule.
pub fn add_word(edition: u64, buf: &mut [u8], n: usize, word: &[u8]) -> Outcome
    ensures { Edits edition n (add_word word.now) buf.old result buf.new }
{
    let Some(product) = kind::edition_of(edition) else {
        return Err(Refusal::At(Fault::Edition, 0));
    };
    let site = plan::find_last(edition, buf, n)?;
    word_in(buf, site, product, word)
}
