// Answers: a value or a fault, and their numbers.
#![tactic(auto)]

ghost use Rattle.std.specs.Prelude.{◌≡◌};
ghost use Rattle.format.specs.Fault.{number_of, in_given};
ghost use Rattle.format.specs.Laws.Fault.{further};
ghost use Rattle.format.specs.Laws.Seen.{told_nothing};

// The rows of document 01's table "Numbers a refusal gives", and their numbers.
#[derive(Clone, Copy)]
pub enum Fault {
    Edition = 1,
    Long = 2,
    Cut = 3,
    Mark = 4,
    Version = 5,
    Count = 6,
    Form = 7,
    Field = 8,
    Unknown = 9,
    Foreign = 10,
    Date = 11,
    Size = 12,
    Over = 13,
    Table = 14,
    Stated = 15,
    Absent = 16,
    Text = 17,
    Rules = 18,
    Large = 19,
    Room = 20,
    Full = 21,
    Last = 22,
    Offset = 29,
}

// Why a call is refused: a fault and its place; or the same fault in a second deck or in given element data.
#[derive(Clone, Copy)]
pub enum Refusal {
    At(Fault, usize),
    Given(Fault, usize),
}

// What a reader answers: the place past a value, and the value; or its refusal.
pub type Read = Result<(usize, u64), Refusal>;

// What a call answers: a place or a number, as document 01 says; or its refusal.
pub type Outcome = Result<usize, Refusal>;

// The number of a fault.
pub fn number_of(fault: Fault) -> u64
    ensures { result ≡ number_of fault }
{
    fault as u64
}

// What was read, with nothing told of it but its end.
pub fn untold(r: Read) -> Read
    ensures { result ≡ told_nothing r }
{
    let (n, _) = r?;
    Ok((n, 0))
}

// The same refusal as that of a second deck or of given element data.
pub fn in_given<T: Copy>(r: Result<T, Refusal>) -> Result<T, Refusal>
    ensures { result ≡ in_given r }
{
    match r {
        Err(Refusal::At(c, p)) => Err(Refusal::Given(c, p)),
        _ => r,
    }
}

// The refusal of a part that starts at a place, by its place in the whole.
pub fn further(why: Refusal, by: usize) -> Refusal
    ensures { result ≡ further by why }
{
    match why {
        Refusal::At(c, p) => Refusal::At(c, by.wrapping_add(p)),
        Refusal::Given(c, p) => Refusal::Given(c, p),
    }
}
