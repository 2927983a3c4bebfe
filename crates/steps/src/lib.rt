// From rule to rule of a sound deck: a rule is stepped over by its Data Size; in version 2 its offset says where it starts.
#![tactic(auto)]

ghost use Rattle.std.specs.Prelude.{◌≡◌, IfErr};
ghost use Rattle.format.specs.Laws.Fault.{Own};
ghost use Rattle.steps.specs.Laws.Steps.{name_read, Follows, Reached};
ghost use Rattle.steps.specs.Laws.Starts.{Starts};

use format::{Fault, Read, Refusal};

// The name of the rule that starts at a place.
pub fn name_end(s: &[u8], at: usize) -> Read
    ensures { result ≡ name_read s.now at }
{
    let g = wire::u32_at(s, at);
    let Ok((p, _)) = g else {
        return g;
    };
    text::string_end(s, p)
}

// Where the rule that starts at a place of a sound deck ends. Behind its name stand six numbers, Enabled the first and Data Size the last.
pub fn end_of(s: &[u8], at: usize) -> Read
    ensures { Follows s.now at result × IfErr result Own }
{
    let t = name_end(s, at);
    let Ok((e, _)) = t else {
        return t;
    };
    let f = wire::numbers_at(s, e, 6);
    let Ok((_, _)) = f else {
        return f;
    };
    let z = wire::u32_at(s, e + 20);
    let Ok((p, size)) = z else {
        return z;
    };
    let end = p + size as usize;
    if s.len() < end {
        return Err(Refusal::At(Fault::Size, p));
    }
    Ok((end, 0))
}

// Where rule k of a sound deck starts, whose rules start at a place: the rules before it are stepped over.
fn start_of(s: &[u8], base: usize, k: u64) -> Read
    ensures { Reached s.now base k k result × IfErr result Own }
{
    each::each_at(|p, _| end_of(s, p), base, k)
}

// Where rule k of a sound deck of a version starts, whose rules start at a place; no deck has 257 rules.
pub fn rule_start(s: &[u8], version: u64, base: usize, k: u64) -> Read
    ensures { Starts s.now version base k result × IfErr result Own }
{
    if version != 2 {
        return start_of(s, base, k);
    }
    if 256 <= k {
        return Err(Refusal::At(Fault::Cut, 7));
    }
    let o = wire::u32_at(s, 7 + 4 * (k as usize));
    let Ok((_, at)) = o else {
        return o;
    };
    Ok((at as usize, 0))
}
