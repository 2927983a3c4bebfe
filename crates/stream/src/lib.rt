// Reading bytes that come in pieces.
#![tactic(auto)]

ghost use Rattle.std.specs.Prelude.{◌≡◌, ◌+◌, ◌<◌, ◌≤◌, IfOk, drop, length, take};
ghost use Rattle.std.specs.Io.KnownBytes.{Consumes, IsAtEnd};

use std::io::{Read, Result};

// One read, to a place of buf: how many bytes it gave.
fn read_part<R: Read>(input: &mut R, buf: &mut [u8], at: usize) -> Result<usize>
    requires { at ≤ length buf.old }
    ensures fits { IfOk result (λ n. at + n ≤ length buf.new) }
    ensures front { take at buf.new ≡ take at buf.old }
    ensures part { IfOk result (λ n. Consumes (R.remaining input.old) (R.remaining input.new) (take n (drop at buf.new))) }
    ensures end { IfOk result (λ n. n ≡ 0 → at < length buf.new → IsAtEnd (R.remaining input.new)) }
{
    input.read(&mut buf[at..])
}

// Reads until buf is full or the input ends: how many bytes stand at the start of buf.
pub fn read_full<R: Read>(input: &mut R, buf: &mut [u8]) -> Result<usize>
    ensures fits { IfOk result (λ n. n ≤ length buf.new) }
    ensures bytes { IfOk result (λ n. Consumes (R.remaining input.old) (R.remaining input.new) (take n buf.new)) }
    ensures end { IfOk result (λ n. n < length buf.new → IsAtEnd (R.remaining input.new)) }
{
    let mut done = 0;
    while done < buf.len() {
        let n = read_part(input, buf, done)?;
        if n == 0 {
            return Ok(done);
        }
        done += n;
    }
    Ok(done)
}
