// The head of a rule, put into a buffer.
#![tactic(auto)]

ghost use Rattle.std.specs.Prelude.{◌≡◌, ◌≤◌, length};
ghost use Rattle.rule.specs.Laws.Parts.{head_bytes};
ghost use Rattle.buffer.specs.Laid.{put_in};

// How many bytes the head of rule i has.
pub fn head_size(i: u64) -> usize
    ensures { (result ≡ length (head_bytes i)) × (result ≤ 18) }
{
    if 0 < i {
        return 2;
    }
    18
}

// The head of rule i at a place.
pub fn put_head(buf: &mut [u8], at: usize, i: u64)
    ensures { buf.new ≡ put_in buf.old at (head_bytes i) }
{
    if i == 0 {
        let head = [
            0xFFu8, 0xFF, 0x00, 0x00, 0x0C, 0x00, 0x43, 0x52, 0x75, 0x6C, 0x65, 0x45, 0x6C, 0x65,
            0x6D, 0x65, 0x6E, 0x74,
        ];
        buffer::put_bytes(buf, at, &head);
        return;
    }
    buffer::put_number(buf, at, 2, 0x8001);
}
