// The offsets of the rules of a deck of version 2, put into a buffer.
#![tactic(auto)]

ghost use Rattle.offsets.specs.Laws.Offsets.{Offsets};

// Rules, so many, stand behind room for their offsets.
pub fn put_offsets(buf: &mut [u8], rules: u64)
    ensures { Offsets rules buf.old buf.new }
{
    if 256 < rules {
        return;
    }
    let mut p = 7 + 4 * (rules as usize);
    for i in 0..rules {
        buffer::put_number(buf, 7 + 4 * (i as usize), 4, p as u64);
        let r = steps::end_of(buf, p);
        let Ok((q, _)) = r else {
            return;
        };
        p = q;
    }
}
