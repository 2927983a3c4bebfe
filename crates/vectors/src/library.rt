// A vector's call, made of the library.

ghost use Rattle.std.specs.Prelude.{◌≡◌, ◌+◌, ◌*◌, ◌≤◌, ◌<◌, IfSome};

use crate::calls::Call;
use crate::packing::Text;
use format::{Outcome, Refusal};
use rule::Fields;
use std::fmt;

// The most numbers of a lent table, and what stands in it before the call.
const MOST_ROOM: usize = 2048;

const UNSET: u32 = 0xA5A5_A5A5;

const WIDE_UNSET: u64 = 0xA5A5_A5A5_A5A5_A5A5;

// What is answered: a code, which tells a fault in what was given from one in the deck, and a place.
#[derive(Clone, Copy, PartialEq, Eq)]
pub struct Answer {
    code: u64,
    place: u64,
}

impl Answer {
    // As it stands in a vector, in one number.
    pub fn packed(number: u64) -> Answer
        ensures { (result.code < 256) × (result.code + 256 * result.place ≡ number) }
    {
        Answer {
            code: number % 256,
            place: number / 256,
        }
    }
}

impl From<Outcome> for Answer {
    fn from(outcome: Outcome) -> Answer {
        let (code, place) = match outcome {
            Ok(place) => (0, place),
            Err(Refusal::At(fault, place)) => (format::number_of(fault), place),
            Err(Refusal::Given(fault, place)) => (format::number_of(fault) + 32, place),
        };
        Answer {
            code,
            place: place as u64,
        }
    }
}

impl fmt::Display for Answer {
    fn fmt<W: fmt::Write>(&self, f: &mut fmt::Formatter<W>) -> fmt::Result {
        let code = self.code;
        let place = self.place;
        write!(f, "{code} {place}")
    }
}

fn room(n: u64) -> Option<usize>
    ensures { IfSome result (λ room. room ≤ 2048) }
{
    let room = usize::try_from(n).ok()?;
    if MOST_ROOM < room { None } else { Some(room) }
}

fn flag(n: u64) -> Option<bool> {
    match n {
        0 => Some(false),
        1 => Some(true),
        _ => None,
    }
}

fn narrow(n: u64) -> Option<u32> {
    u32::try_from(n).ok()
}

// A call with its numbers and its strings; those that it does not take are empty.
#[derive(Clone, Copy)]
pub struct Vector<'a> {
    pub call: Call,
    pub numbers: &'a [u64],
    pub first: &'a Text,
    pub second: &'a [u8],
    pub third: &'a [u8],
}

// None where the numbers are not what the call can be given.
impl Vector<'_> {
    fn fill_table(self, table: &mut [u32]) -> Option<Outcome> {
        let deck = self.first.as_slice();
        Some(match (self.call, self.numbers) {
            (Call::Kind, &[edition, identifier, _]) => {
                lent_kind::kind(edition, narrow(identifier)?, table)
            }
            (Call::Moment, &[date, _]) => lent_moment::moment(date, table),
            (Call::Fields, &[edition, k, _]) => lent_fields::fields(edition, deck, k, table),
            (Call::NamePart, &[edition, k, _]) => lent_part::name_part(edition, deck, k, table),
            (Call::WordPart, &[edition, k, element, word, _]) => {
                lent_part::word_part(edition, deck, k, element, word, table)
            }
            _ => return None,
        })
    }

    // The calls that fill one table of numbers of 32 bits, of which the last number says how many it has.
    fn fill(self, effect: &mut Text) -> Option<Outcome> {
        let room = room(*self.numbers.last()?)?;
        let mut space = [UNSET; MOST_ROOM];
        let table = &mut space[..room];
        let outcome = self.fill_table(table)?;
        for n in table.iter() {
            effect.push(&n.to_le_bytes())?;
        }
        Some(outcome)
    }

    fn value(self, effect: &mut Text) -> Option<Outcome> {
        let &[edition, identifier, stated] = self.numbers else {
            return None;
        };
        let room = room(stated)?;
        let mut space = [WIDE_UNSET; MOST_ROOM];
        let table = &mut space[..room];
        let data = self.first.as_slice();
        let outcome = value_table::value(edition, narrow(identifier)?, data, table);
        for n in table.iter() {
            effect.push(&n.to_le_bytes())?;
        }
        Some(outcome)
    }

    fn read(self, effect: &mut Text) -> Option<Outcome> {
        let &[edition, rules, elements] = self.numbers else {
            return None;
        };
        let rules = room(rules)?;
        let elements = room(elements)?;
        let mut rule_space = [UNSET; MOST_ROOM];
        let mut element_space = [UNSET; MOST_ROOM];
        let rules = &mut rule_space[..rules];
        let elements = &mut element_space[..elements];
        let outcome = tables::read(edition, self.first.as_slice(), rules, elements);
        for n in rules.iter().chain(elements.iter()) {
            effect.push(&n.to_le_bytes())?;
        }
        Some(outcome)
    }

    // The calls that leave nothing, or bytes of the deck.
    fn look(self, effect: &mut Text) -> Option<Outcome> {
        let deck = self.first.as_slice();
        Some(match (self.call, self.numbers) {
            (Call::Base, []) => Ok(0),
            (Call::Check, &[edition]) => deck::check(edition, deck),
            (Call::Name, &[edition, k]) => {
                effect.push(name_view::name(edition, deck, k))?;
                name_view::name_place(edition, deck, k)
            }
            (Call::Word, &[edition, k, element, word]) => {
                effect.push(word_view::word(edition, deck, k, element, word))?;
                word_view::word_place(edition, deck, k, element, word)
            }
            _ => return None,
        })
    }

    // The edits that make a deck longer.
    fn grow(self, buffer: &mut [u8]) -> Option<Outcome> {
        let second = self.second;
        Some(match (self.call, self.numbers) {
            (
                Call::AddRule,
                &[
                    edition,
                    n,
                    signature,
                    on,
                    unknown2,
                    unknown3,
                    unknown4,
                    unknown5,
                    identifier,
                ],
            ) => {
                let fields = Fields {
                    signature: narrow(signature)?,
                    on: flag(on)?,
                    unknown2: narrow(unknown2)?,
                    unknown3: narrow(unknown3)?,
                    unknown4: narrow(unknown4)?,
                    unknown5: narrow(unknown5)?,
                };
                let identifier = narrow(identifier)?;
                let n = n as usize;
                add_rule::add_rule(edition, buffer, n, second, fields, identifier, self.third)
            }
            (Call::AddElement, &[edition, n, identifier]) => {
                add_element::add_element(edition, buffer, n as usize, narrow(identifier)?, second)
            }
            (Call::AddWord, &[edition, n]) => word::add_word(edition, buffer, n as usize, second),
            _ => return None,
        })
    }

    // The other edits of a buffer.
    fn change(self, buffer: &mut [u8]) -> Option<Outcome> {
        let second = self.second;
        Some(match (self.call, self.numbers) {
            (Call::PutValue, [edition, identifier, table @ ..]) => {
                put_table::put_value(*edition, narrow(*identifier)?, table, buffer)
            }
            (Call::Start, []) => start::start(buffer),
            (Call::Switch, &[edition, n, k, on]) => {
                switch::switch(edition, buffer, n as usize, k, flag(on)?)
            }
            (Call::Rename, &[edition, n, k]) => {
                rename::rename(edition, buffer, n as usize, k, second)
            }
            (Call::Remove, &[edition, n, k]) => remove::remove(edition, buffer, n as usize, k),
            (Call::Insert, &[edition, n, k, j]) => {
                insert::insert(edition, buffer, n as usize, k, second, j)
            }
            (Call::ToVersion2, &[edition]) => convert::to_2(edition, second, buffer),
            (Call::ToVersion1, &[edition]) => convert::to_1(edition, second, buffer),
            _ => return self.grow(buffer),
        })
    }

    // Makes the call: what is answered, and whether its effect is the one that is wanted. An edit leaves a buffer, which was the first string.
    pub fn run(self, wanted: &[u8]) -> Option<(Answer, bool)> {
        let mut effect = Text::new();
        let outcome = match self.call {
            Call::Kind | Call::Moment | Call::Fields | Call::NamePart | Call::WordPart => {
                self.fill(&mut effect)?
            }
            Call::Value => self.value(&mut effect)?,
            Call::Read => self.read(&mut effect)?,
            Call::Base | Call::Check | Call::Name | Call::Word => self.look(&mut effect)?,
            _ => {
                effect.push(self.first.as_slice())?;
                let count = effect.count;
                self.change(&mut effect.bytes[..count])?
            }
        };
        Some((outcome.into(), effect.as_slice() == wanted))
    }
}
