// Editions, and the kinds of elements.
#![tactic(auto)]

ghost use Rattle.std.specs.Prelude.{◌≡◌};
ghost use Rattle.kind.specs.Kinds.{edition_of};

use format::Refusal;

#[derive(Debug, Clone, Copy, PartialEq, Eq)]
pub enum Product {
    Desk,
    Studio,
}

#[derive(Debug, Clone, Copy, PartialEq, Eq)]
pub enum Role {
    Condition,
    Action,
    Exception,
}

#[derive(Debug, Clone, Copy, PartialEq, Eq)]
pub enum Kind {
    Marker,
    Simple(Role),
    WordList,
    Size(Role),
    Dates(Role),
}

// What the number of an edition answers: its product, if it is an edition's.
pub type Edition = Option<Product>;

// What an identifier answers: its row of the kinds, or a refusal.
pub type Row = Result<Kind, Refusal>;

// The product of an edition's number.
#[tactic(auto, unfolding(crate::specs::Kinds::edition_of, format::specs::Format::pick))]
pub fn edition_of(edition: u64) -> Edition
    ensures { result ≡ edition_of edition }
{
    match edition {
        1 => Some(Product::Desk),
        2 => Some(Product::Studio),
        _ => None,
    }
}
