// The row of an identifier among the kinds, in a product or in an edition.
#![tactic(auto)]

ghost use Rattle.std.specs.Prelude.{◌≡◌};
ghost use Rattle.kind.specs.Kinds.{row_in, kinds, row_of, kind_says, kind_of};
ghost use Rattle.row.specs.Laws.Lines.{row_at, digit_of, line_of, lacks_at};

use format::{Fault, Refusal};
use kind::{Kind, Product, Role, Row};

// The rows of the sixteen identifiers from 16 n on, a digit of four bits each, the lowest first: by `row_at`.
#[tactic(auto, using(crate::specs::Laws::Lines::lines, crate::specs::Laws::Lines::off_line), unfolding(crate::specs::Laws::Lines::Off, crate::specs::Laws::Lines::AllOff))]
fn line_of(n: u64) -> u64
    ensures { result ≡ line_of n }
{
    match n {
        0x06 => 0x0000_0000_0001_0000,
        0x0C => 0x0000_0222_0000_0000,
        0x0D => 0x0200_0000_0000_0000,
        0x0E => 0x0000_0000_0000_2286,
        0x0F => 0x0000_0000_0020_0000,
        0x12 => 0x0030_0000_0000_0000,
        0x13 => 0x0000_3300_0000_0300,
        0x14 => 0x3003_0300_0000_0300,
        0x15 => 0x0000_0000_0000_0300,
        0x1F => 0x0000_0000_0444_0000,
        0x20 => 0x4497_0404_0000_0000,
        0x21 => 0x0000_4450_0400_5550,
        _ => 0,
    }
}

#[tactic(auto, unfolding(crate::specs::Laws::Lines::row_at, format::specs::Format::pick))]
fn row_at(digit: u64) -> Row
    ensures { result ≡ row_at digit }
{
    match digit {
        1 => Ok(Kind::Marker),
        2 => Ok(Kind::Simple(Role::Condition)),
        3 => Ok(Kind::Simple(Role::Action)),
        4 => Ok(Kind::Simple(Role::Exception)),
        5 => Ok(Kind::WordList),
        6 => Ok(Kind::Size(Role::Condition)),
        7 => Ok(Kind::Size(Role::Exception)),
        8 => Ok(Kind::Dates(Role::Condition)),
        9 => Ok(Kind::Dates(Role::Exception)),
        _ => Err(Refusal::At(Fault::Unknown, 0)),
    }
}

// The digit of an identifier; 0 where it is not among the 35.
#[tactic(auto, using(crate::specs::Laws::Lines::digit_is))]
fn digit_of(identifier: u64) -> u64
    ensures { result ≡ digit_of (row_in kinds identifier) }
{
    let line = line_of(identifier / 16);
    (line >> (4 * (identifier % 16))) % 16
}

// Whether a product lacks the row of a digit: Desk has the first three.
#[tactic(auto, unfolding(crate::specs::Laws::Lines::lacks_at))]
fn lacks(product: Product, digit: u64) -> bool
    ensures { result ≡ lacks_at product digit }
{
    match product {
        Product::Desk => 3 < digit,
        Product::Studio => false,
    }
}

// The row of an identifier in a product.
#[tactic(auto, using(crate::specs::Laws::Lines::row_foreign, crate::specs::Laws::Lines::row_has))]
pub fn row_for(product: Product, identifier: u64) -> Row
    ensures { result ≡ row_of product identifier }
{
    let digit = digit_of(identifier);
    if lacks(product, digit) {
        return Err(Refusal::At(Fault::Foreign, 0));
    }
    row_at(digit)
}

// The row of an identifier in an edition.
#[tactic(auto, using(kind::specs::Laws::Kinds::kind_none, kind::specs::Laws::Kinds::kind_in))]
pub fn kind_of(edition: u64, identifier: u32) -> Row
    ensures { kind_says result ≡ kind_of edition identifier }
{
    let Some(product) = kind::edition_of(edition) else {
        return Err(Refusal::At(Fault::Edition, 0));
    };
    row_for(product, identifier as u64)
}
