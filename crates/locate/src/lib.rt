// Where a rule of a deck stands: the deck is judged by one pass, then its start is found.
#![tactic(auto)]

ghost use Rattle.std.specs.Prelude.{◌≡◌};
ghost use Rattle.deck.specs.Deck.{read_deck};
ghost use Rattle.locate.specs.Laws.Located.{located, last_of};
ghost use Rattle.locate.specs.Laws.Spots.{Spots};

use spot::{Site, Spot};

// Where rule k of a sound deck of n rules stands, which start at base.
fn spot_of(s: &[u8], version: u64, base: usize, n: u64, k: u64) -> Spot
    ensures { Spots s.now version base n k result }
{
    if n <= k {
        return Ok(Site {
            bytes: s.len(),
            version,
            rules: n,
            base,
            start: s.len(),
            end: s.len(),
        });
    }
    let (start, _) = steps::rule_start(s, version, base, k)?;
    let (end, _) = steps::end_of(s, start)?;
    Ok(Site {
        bytes: s.len(),
        version,
        rules: n,
        base,
        start,
        end,
    })
}

// Where rule k of a deck stands.
#[tactic(auto, using(crate::specs::Laws::Spots::located_no))]
pub fn locate(edition: u64, s: &[u8], k: u64) -> Spot
    ensures { result ≡ located (λ rs. k) (read_deck edition s.now) }
{
    let (version, base, n, _) = deck::pass(edition, s)?;
    spot_of(s, version, base, n, k)
}

// Where the last rule of a deck stands.
pub fn last(edition: u64, s: &[u8]) -> Spot
    ensures { result ≡ located last_of (read_deck edition s.now) }
{
    let (version, base, rules, _) = deck::pass(edition, s)?;
    if rules == 0 {
        return spot_of(s, version, base, 0, 0);
    }
    spot_of(s, version, base, rules, rules - 1)
}
