// Runs the vectors on standard input over the library and says which do not agree: vectors/README.md has their form.
#![tactic(auto)]

ghost use Rattle.std.specs.Prelude.{◌<◌, length, IfSome};

mod calls;
mod library;
mod packing;
mod reader;

use calls::Call;
use library::{Answer, Vector};
use packing::{MOST, Text};
use reader::Reader;
use std::io;

// How a vector came out; where it differs, with its call and what was answered.
#[derive(Clone, Copy)]
enum Verdict {
    Agrees,
    Differs(Call, Answer),
}

// Runs a vector, from behind its length on, and sets the base for those after it; None where it is malformed.
fn judge(bytes: &[u8], base: &mut Text) -> Option<Verdict> {
    let mut reader = Reader { rest: bytes };
    let call = Call::try_from(reader.byte()?).ok()?;
    let mut table = [0; 255];
    let numbers = reader.numbers(&mut table)?;
    let count = usize::from(reader.byte()?);
    if count != call.strings() {
        return None;
    }
    let mut strings = [Text::new(); 3];
    for string in strings.iter_mut().take(count) {
        packing::unpack(&mut reader, base.as_slice(), b"", string)?;
    }
    let [first, second, third] = &strings;
    let wanted = Answer::packed(reader.eight()?);
    let mut effect = Text::new();
    packing::unpack(&mut reader, base.as_slice(), first.as_slice(), &mut effect)?;
    if !reader.rest.is_empty() {
        return None;
    }
    let vector = Vector {
        call,
        numbers,
        first,
        second: second.as_slice(),
        third: third.as_slice(),
    };
    let (answer, alike) = vector.run(effect.as_slice())?;
    if call == Call::Base {
        *base = *first;
    }
    if answer == wanted && alike {
        return Some(Verdict::Agrees);
    }
    Some(Verdict::Differs(call, answer))
}

// The same for the vector that is next in a file.
fn judge_next(file: &mut Reader, base: &mut Text) -> Option<Verdict>
    ensures { IfSome result (λ _. length file.new.rest.now < length file.old.rest.now) }
{
    let count = file.two()?;
    let vector = file.bytes(count)?;
    judge(vector, base)
}

fn malformed(rt: &impl Print, place: usize) -> io::Result<()> {
    println!(rt; "MALFORMED {place}")
}

fn run_all(rt: &impl Print, bytes: &[u8]) -> io::Result<()> {
    let mut file = Reader { rest: bytes };
    let mut base = Text::new();
    let mut count = 0u64;
    let mut agreed = 0u64;
    while !file.rest.is_empty() {
        let place = bytes.len() - file.rest.len();
        let Some(verdict) = judge_next(&mut file, &mut base) else {
            return malformed(rt, place);
        };
        match verdict {
            Verdict::Agrees => agreed += 1,
            Verdict::Differs(call, answer) => {
                let call = call as u8;
                println!(rt; "DIFFERS {count} {call} {answer}")?;
            }
        }
        count += 1;
    }
    println!(rt; "VECTORS {count} AGREED {agreed}")
}

fn main(rt: HostRuntime) -> io::Result<()> {
    let mut input = rt.stdin();
    let mut space = [0; MOST];
    let count = stream::read_full(&mut input, &mut space)?;
    if 0 < stream::read_full(&mut input, &mut [0])? {
        return malformed(&rt, MOST);
    }
    run_all(&rt, &space[..count])
}
