// Starting an empty deck, which begins a run of edits.
#![tactic(auto)]

ghost use Rattle.std.specs.Prelude.{◌≡◌, length};
ghost use Rattle.start.specs.Start.{start_says, start_leaves};

use format::Outcome;

// The empty deck at the start of a buffer: 7, or 20 where it is longer than the buffer.
#[tactic(auto, using(crate::specs::Laws::Start::start_is))]
pub fn start(buf: &mut [u8]) -> Outcome
    ensures { (result ≡ start_says (length buf.old)) × (buf.new ≡ start_leaves buf.old) }
{
    buffer::put_number(buf, 0, 7, 0x014B_4452);
    room::room_for(0, 7, buf.len())
}
