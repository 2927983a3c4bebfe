// Strings and words.
#![tactic(auto)]

ghost use Rattle.std.specs.Prelude.{◌≡◌};
ghost use Rattle.format.specs.Laws.Seen.{seen, itself, none};
ghost use Rattle.text.specs.Length.{long_length};
ghost use Rattle.text.specs.Text.{length_of, string_length, string, word};
ghost use Rattle.text.specs.Laws.Seen.{text_seen, in_form, end_read, refused_at};
ghost use Rattle.text.specs.Laws.Written.{length_size};

use format::{Fault, Read, Refusal};

// The forms of a String: its length is one byte, or FF and two.
#[derive(Clone, Copy)]
pub enum Form {
    Short,
    Long,
}

// What the reader of a String answers: the place past it, its form and the number of its units; or its refusal.
pub type StringRead = Result<(usize, Form, u64), Refusal>;

// What was read of a String, with nothing told of it but its end.
pub fn end_of(r: StringRead) -> Read
    ensures { result ≡ end_read r }
{
    let (e, _, _) = r?;
    Ok((e, 0))
}

// How many bytes the length of a String takes.
pub fn length_size(form: Form) -> usize
    ensures { result ≡ length_size form }
{
    match form {
        Form::Short => 1,
        Form::Long => 3,
    }
}

// A number that was read, as the length of a String of a form; a refusal is handed on.
fn in_form(form: Form, r: Read) -> StringRead
    ensures { result ≡ in_form form r }
{
    let (p, n) = r?;
    Ok((p, form, n))
}

// The two bytes of a long length.
fn long_at(s: &[u8], at: usize) -> Read
    ensures { result ≡ seen itself long_length s.now at }
{
    let r = wire::u16_at(s, at);
    let Ok((_, n)) = r else {
        return r;
    };
    if 255 < n {
        return Err(Refusal::At(Fault::Form, at));
    }
    r
}

// The length of a String.
fn length_at(s: &[u8], at: usize) -> StringRead
    ensures { result ≡ text_seen (λ l. l) string_length s.now at }
{
    let b = wire::u8_at(s, at);
    let Ok((p, n)) = b else {
        return in_form(Form::Short, b);
    };
    if n != 255 {
        return Ok((p, Form::Short, n));
    }
    in_form(Form::Long, long_at(s, p))
}

// A String's refusal stands at its start.
fn refused_at(r: StringRead, at: usize) -> StringRead
    ensures { result ≡ refused_at at r }
{
    match r {
        Err(Refusal::At(c, _)) => Err(Refusal::At(c, at)),
        _ => r,
    }
}

// A String.
pub fn string_at(s: &[u8], at: usize) -> StringRead
    ensures { result ≡ text_seen length_of string s.now at }
{
    let l = length_at(s, at);
    let Ok((p, form, n)) = l else {
        return refused_at(l, at);
    };
    let end = p + 2 * (n as usize);
    if s.len() < end {
        return Err(Refusal::At(Fault::Cut, at));
    }
    Ok((end, form, n))
}

// A word, by its String.
pub fn word_at(s: &[u8], at: usize) -> StringRead
    ensures { result ≡ text_seen length_of word s.now at }
{
    let z = field::fixed32_at(s, at, 0);
    let Ok((p, _)) = z else {
        return in_form(Form::Short, z);
    };
    string_at(s, p)
}

// Where a String ends, and where a word does.
pub fn string_end(s: &[u8], at: usize) -> Read
    ensures { result ≡ seen none string s.now at }
{
    end_of(string_at(s, at))
}

pub fn word_end(s: &[u8], at: usize) -> Read
    ensures { result ≡ seen none word s.now at }
{
    end_of(word_at(s, at))
}
