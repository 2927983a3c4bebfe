// A word within an element's data as a part of the deck's bytes.
#![tactic(auto)]

ghost use Rattle.std.specs.Prelude.{length, IfErr};
ghost use Rattle.format.specs.Laws.Fault.{Own};
ghost use Rattle.format.specs.Laws.Skip.{Skipped};
ghost use Rattle.format.specs.Laws.Back.{Where};
ghost use Rattle.text.specs.Text.{word};
ghost use Rattle.element.specs.Data.{word_data, data_of};
ghost use Rattle.data_word.specs.Laws.Word.{Words};
ghost use Rattle.data_word.specs.Word.{data_word};
ghost use Rattle.view.specs.Laws.View.{Inside};

use format::{Fault, Read, Refusal};
use kind::Kind;
use view::View;

// Where word w of a row of words starts.
fn word_start(s: &[u8], at: usize, w: u64) -> Read
    ensures { Skipped (λ i. word) s.now at w w result × IfErr result Own }
{
    each::each_at(|p, _| text::word_end(s, p), at, w)
}

// Word w of a row of words.
fn word_in(s: &[u8], at: usize, w: u64) -> View
    ensures { Words s.now at w result × (Inside result (length s.now) × IfErr result Own) }
{
    let (q, _) = word_start(s, at, w)?;
    let t = text::word_at(s, q);
    view::units_of(s, t)
}

// Word w of the data of a word list.
fn list_word(s: &[u8], at: usize, w: u64) -> View
    ensures { Where word_data s.now at (data_word w at) result × (Inside result (length s.now) × IfErr result Own) }
{
    let (p, n) = wire::u32_at(s, at)?;
    if n <= w {
        return Err(Refusal::At(Fault::Absent, 2));
    }
    word_in(s, p, w)
}

// Word w of the data of a kind.
pub fn data_word(s: &[u8], at: usize, kind: Kind, w: u64) -> View
    ensures { Where (data_of kind) s.now at (data_word w at) result × (Inside result (length s.now) × IfErr result Own) }
{
    match kind {
        Kind::WordList => list_word(s, at, w),
        Kind::Marker => Err(Refusal::At(Fault::Absent, 2)),
        Kind::Simple(_) => Err(Refusal::At(Fault::Absent, 2)),
        Kind::Size(_) => Err(Refusal::At(Fault::Absent, 2)),
        Kind::Dates(_) => Err(Refusal::At(Fault::Absent, 2)),
    }
}
