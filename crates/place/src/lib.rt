// A gap for a rule, opened at a place of a deck.
#![tactic(auto)]

ghost use Rattle.std.specs.Prelude.{◌≡◌, ◌≤◌, ◌<◌};
ghost use Rattle.place.specs.Laws.Place.{lost, Opens};

use spot::Site;

// How many bytes the rules from place k of m lose where a rule comes before them: the old first rule gives its long head up.
#[tactic(auto, using(crate::specs::Laws::Place::lost_later, crate::specs::Laws::Place::lost_none, crate::specs::Laws::Place::lost_first))]
pub fn lost_at(k: u64, m: u64) -> usize
    ensures { (result ≡ lost k m) × (result ≤ 16) }
{
    if k != 0 {
        return 0;
    }
    if m == 0 {
        return 0;
    }
    16
}

// The rule at place 0 gives its long head up, and a gap of len bytes opens before it.
#[tactic(auto, using(steps::specs::Laws::Steps::name_got, crate::specs::Laws::Place::opens_unnamed, crate::specs::Laws::Place::opens_not, crate::specs::Laws::Place::opens_shift))]
fn open_first(buf: &mut [u8], f: Site, len: usize)
    requires { (0 < f.rules) × (f.end ≤ f.bytes) × (f.bytes ≤ 60000) × (len ≤ 200000) }
    ensures { Opens f 0 len buf.old buf.new }
{
    let t = steps::name_end(buf, f.base);
    let Ok((e, _)) = t else {
        return;
    };
    if f.end < e {
        return;
    }
    if f.end - e < 44 {
        return;
    }
    let head = e + 26;
    gap::open(buf, f.bytes, head, head + 18, len + 2);
    gap::move_up(buf, f.base, head + len, len);
    buffer::put_number(buf, e + 20 + len, 4, (f.end - e - 40) as u64);
    head::put_head(buf, head + len, 1);
}

// A gap of len bytes opens for a rule at place k, the place that was found; what stands behind it becomes what it is behind a rule.
#[tactic(auto, using(crate::specs::Laws::Place::lost_is, crate::specs::Laws::Place::opens_never, crate::specs::Laws::Place::opens_plain, crate::specs::Laws::Place::opens_first))]
pub fn open_place(buf: &mut [u8], f: Site, k: u64, len: usize)
    ensures { Opens f k len buf.old buf.new }
{
    if f.bytes < f.end {
        return;
    }
    if 60000 < f.bytes {
        return;
    }
    if 200000 < len {
        return;
    }
    if lost_at(k, f.rules) == 0 {
        gap::open(buf, f.bytes, f.start, f.start, len);
        return;
    }
    open_first(buf, f, len);
}
