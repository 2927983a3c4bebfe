// The calls that a vector can make.

ghost use Rattle.std.specs.Prelude.{◌≤◌};

#[derive(Clone, Copy, PartialEq, Eq)]
pub enum Call {
    Base,
    Kind,
    Value,
    PutValue,
    Moment,
    Check,
    Read,
    Name,
    Word,
    Fields,
    Start,
    Switch,
    Rename,
    Remove,
    Insert,
    AddRule,
    AddElement,
    AddWord,
    NamePart,
    WordPart,
    ToVersion2,
    ToVersion1,
}

// By its number in vectors/README.md, which `as u8` gives back.
impl TryFrom<u8> for Call {
    type Error = ();

    fn try_from(number: u8) -> Result<Call, ()> {
        Ok(match number {
            0 => Call::Base,
            1 => Call::Kind,
            2 => Call::Value,
            3 => Call::PutValue,
            4 => Call::Moment,
            5 => Call::Check,
            6 => Call::Read,
            7 => Call::Name,
            8 => Call::Word,
            9 => Call::Fields,
            10 => Call::Start,
            11 => Call::Switch,
            12 => Call::Rename,
            13 => Call::Remove,
            14 => Call::Insert,
            15 => Call::AddRule,
            16 => Call::AddElement,
            17 => Call::AddWord,
            18 => Call::NamePart,
            19 => Call::WordPart,
            20 => Call::ToVersion2,
            21 => Call::ToVersion1,
            _ => return Err(()),
        })
    }
}

impl Call {
    // How many strings it takes.
    pub fn strings(self) -> usize
        ensures { result ≤ 3 }
    {
        match self {
            Call::Kind | Call::Moment => 0,
            Call::Rename
            | Call::Insert
            | Call::AddElement
            | Call::AddWord
            | Call::ToVersion2
            | Call::ToVersion1 => 2,
            Call::AddRule => 3,
            _ => 1,
        }
    }
}
