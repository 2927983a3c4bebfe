// The name of a rule of a deck, or a word, as a part of the deck, in a lent table.
#![tactic(auto)]

ghost use Rattle.std.specs.Prelude.{◌≡◌};
ghost use Rattle.view.specs.View.{part_says};
ghost use Rattle.name_view.specs.Name.{name_view};
ghost use Rattle.word_view.specs.Word.{word_view};
ghost use Rattle.view.specs.Laws.View.{Inside};
ghost use Rattle.lent.specs.Lent.{part_width, Lends};

use format::Outcome;
use view::View;

// A view by its numbers.
#[tactic(auto, using(view::specs::Laws::View::inside_at), unfolding(lent::specs::Lent::lent_says, lent::specs::Lent::lent_leaves))]
fn put_part(t: &mut [u32], v: View) -> Outcome
    requires { Inside v 60000 }
    ensures { Lends part_width t.old (part_says v) result t.new }
{
    let (a, b, form) = v?;
    lent::put_row(t, &[a as u32, b as u32, form as u32])
}

// The name of rule k.
pub fn name_part(edition: u64, s: &[u8], k: u64, t: &mut [u32]) -> Outcome
    ensures { Lends part_width t.old (part_says (name_view edition k s.now)) result t.new }
{
    let v = name_view::find_name(edition, s, k);
    put_part(t, v)
}

// Word w of element e of rule k.
pub fn word_part(edition: u64, s: &[u8], k: u64, e: u64, w: u64, t: &mut [u32]) -> Outcome
    ensures { Lends part_width t.old (part_says (word_view edition k e w s.now)) result t.new }
{
    let v = word_view::find_word(edition, s, k, e, w);
    put_part(t, v)
}
