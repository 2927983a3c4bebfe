// A String put into a buffer; a number with bytes behind it.
#![tactic(auto)]

ghost use Rattle.std.specs.Prelude.{◌≡◌, ◌++◌};
ghost use Rattle.format.specs.ReadWrite.{spelt};
ghost use Rattle.buffer.specs.Laid.{put_in};
ghost use Rattle.parts.specs.Laws.Text.{text_bytes, text_size};

// How many bytes a String is written in whose units are s; 0 where it is none.
pub fn text_size(s: &[u8]) -> usize
    ensures { result ≡ text_size s.now }
{
    if 510 < s.len() {
        return 0;
    }
    if s.len() / 2 == 255 {
        return s.len() + 3;
    }
    s.len() + 1
}

// A number of k bytes, then s, at a place.
pub fn put_behind(buf: &mut [u8], at: usize, k: usize, n: u64, s: &[u8])
    ensures { buf.new ≡ put_in buf.old at (spelt k n ++ s.now) }
{
    if buf.len() < at {
        return;
    }
    if buf.len() - at < k {
        return;
    }
    if buf.len() - at - k < s.len() {
        return;
    }
    buffer::put_number(buf, at, k, n);
    buffer::put_bytes(buf, at + k, s);
}

// A String at a place, whose units are s.
pub fn put_text(buf: &mut [u8], at: usize, s: &[u8])
    ensures { buf.new ≡ put_in buf.old at (text_bytes s.now) }
{
    let n = s.len() / 2;
    if n == 255 {
        put_behind(buf, at, 3, 0x00_FFFF, s);
        return;
    }
    put_behind(buf, at, 1, n as u64, s);
}
