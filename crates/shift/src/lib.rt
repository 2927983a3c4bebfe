// Bytes zeroed, and shifted down or up.
#![tactic(auto)]

ghost use Rattle.std.specs.Prelude.{◌≡◌, ◌-◌, length};
ghost use Rattle.buffer.specs.Laid.{zeros};
ghost use Rattle.buffer.specs.Laws.Laid.{down, up};

// Every byte is 0.
pub fn zero(p: &mut [u8])
    ensures { p.new ≡ zeros (length p.old) }
{
    for byte in p.iter_mut() {
        *byte = 0;
    }
}

// The bytes from by on move to the start; the last by bytes stay.
pub fn shift_down(p: &mut [u8], by: usize)
    ensures { p.new ≡ down by p.old }
{
    for from in by..p.len() {
        p[from - by] = p[from];
    }
}

// The bytes before the last by move to the end; the first by bytes stay.
pub fn shift_up(p: &mut [u8], by: usize)
    ensures { p.new ≡ up by p.old }
{
    for to in (by..p.len()).rev() {
        p[to] = p[to - by];
    }
}
