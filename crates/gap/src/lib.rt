// Bytes of a lent buffer moved within it, and a gap opened in a deck; nothing is done where they would leave it.
#![tactic(auto)]

ghost use Rattle.std.specs.Prelude.{◌≡◌, ◌+◌, ◌-◌, ◌≤◌, length};
ghost use Rattle.buffer.specs.Laws.Laid.{down, up, pulled, moved, opened};

// The bytes from by on move to the start; what they leave is 0.
pub fn pull(p: &mut [u8], by: usize)
    ensures { p.new ≡ pulled by p.old }
{
    if p.len() < by {
        shift::zero(p);
        return;
    }
    shift::shift_down(p, by);
    let end = p.len() - by;
    shift::zero(&mut p[end..]);
}

// The bytes from a to e are shifted down, or up.
pub fn move_down(buf: &mut [u8], a: usize, e: usize, by: usize)
    ensures { buf.new ≡ moved (down by) a e buf.old }
{
    if e < a {
        return;
    }
    if buf.len() < e {
        return;
    }
    shift::shift_down(&mut buf[a..e], by);
}

pub fn move_up(buf: &mut [u8], a: usize, e: usize, by: usize)
    ensures { buf.new ≡ moved (up by) a e buf.old }
{
    if e < a {
        return;
    }
    if buf.len() < e {
        return;
    }
    shift::shift_up(&mut buf[a..e], by);
}

fn make_room(buf: &mut [u8], n: usize, a: usize, b: usize, len: usize)
    requires { (a ≤ b) × (b ≤ n) × (n ≤ length buf.old) × (n - (b - a) + len ≤ length buf.old) }
    ensures { buf.new ≡ opened buf.old n a b len }
{
    let old = b - a;
    if len <= old {
        let rest = a + len;
        pull(&mut buf[rest..n], old - len);
    } else {
        let end = n - old + len;
        shift::shift_up(&mut buf[b..end], len - old);
    }
}

// Of a deck in the first n bytes, those from a to b give way to a gap of len bytes, in which nothing is written.
pub fn open(buf: &mut [u8], n: usize, a: usize, b: usize, len: usize)
    ensures { buf.new ≡ opened buf.old n a b len }
{
    if b < a {
        return;
    }
    if n < b {
        return;
    }
    if buf.len() < n {
        return;
    }
    if buf.len() - (n - (b - a)) < len {
        return;
    }
    make_room(buf, n, a, b, len);
}
