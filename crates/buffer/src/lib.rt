// Bytes put into a lent buffer; nothing is done where they would leave it.
#![tactic(auto)]

ghost use Rattle.std.specs.Prelude.{◌≡◌, ◌≤◌, length};
ghost use Rattle.format.specs.ReadWrite.{spelt, bit};
ghost use Rattle.buffer.specs.Laid.{put, put_in};

// By a loop, since the archive is to need nothing that moves memory from elsewhere.
fn copy(p: &mut [u8], src: &[u8])
    requires { length src.now ≤ length p.old }
    ensures { p.new ≡ put p.old 0 src.now }
{
    for i in 0..src.len() {
        p[i] = src[i];
    }
}

// src at a place.
pub fn put_bytes(buf: &mut [u8], at: usize, src: &[u8])
    ensures { buf.new ≡ put_in buf.old at src.now }
{
    if buf.len() < at {
        return;
    }
    if buf.len() - at < src.len() {
        return;
    }
    copy(&mut buf[at..], src);
}

fn spell(p: &mut [u8], n: u64)
    ensures { p.new ≡ spelt (length p.old) n }
{
    let mut rest = n;
    for byte in p.iter_mut() {
        *byte = (rest % 256) as u8;
        rest /= 256;
    }
}

// k bytes of a number at a place, the lowest first.
pub fn put_number(buf: &mut [u8], at: usize, k: usize, n: u64)
    ensures { buf.new ≡ put_in buf.old at (spelt k n) }
{
    if buf.len() < at {
        return;
    }
    if buf.len() - at < k {
        return;
    }
    spell(&mut buf[at..at + k], n);
}

// A yes or no at a place: 4 bytes, 0 or 1.
#[tactic(auto, using(crate::specs::Laws::Laid::bit_from))]
pub fn put_flag(buf: &mut [u8], at: usize, yes: bool)
    ensures { buf.new ≡ put_in buf.old at (spelt 4 (bit yes)) }
{
    put_number(buf, at, 4, u64::from(yes));
}
