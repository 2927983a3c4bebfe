// The kind and the role of an identifier, in a lent table.
#![tactic(auto)]

ghost use Rattle.std.specs.Prelude.{◌≡◌, Ok};
ghost use Rattle.kind.specs.Kinds.{role_number, kind_values, kind_of};
ghost use Rattle.lent.specs.Lent.{kind_width, Lends};

use format::Outcome;
use kind::{Kind, Role};

fn role_number(role: Role) -> u32
    ensures { result ≡ role_number role }
{
    role as u32 + 1
}

fn put_kind(t: &mut [u32], kind: Kind) -> Outcome
    ensures { Lends kind_width t.old (Ok 0, kind_values kind) result t.new }
{
    match kind {
        Kind::Marker => lent::put_row(t, &[0, 0]),
        Kind::Simple(role) => lent::put_row(t, &[role_number(role), role_number(role)]),
        Kind::WordList => lent::put_row(t, &[4, 3]),
        Kind::Size(role) => lent::put_row(t, &[5, role_number(role)]),
        Kind::Dates(role) => lent::put_row(t, &[6, role_number(role)]),
    }
}

// The row of an identifier among the kinds, and its role.
#[tactic(auto, unfolding(lent::specs::Lent::lent_says, lent::specs::Lent::lent_leaves))]
pub fn kind(edition: u64, identifier: u32, t: &mut [u32]) -> Outcome
    ensures { Lends kind_width t.old (kind_of edition identifier) result t.new }
{
    let kind = row::kind_of(edition, identifier)?;
    put_kind(t, kind)
}
