// What a pass over a deck tells, and what that says as an outcome.
#![tactic(auto)]

ghost use Rattle.std.specs.Prelude.{◌≡◌};
ghost use Rattle.scan.specs.Scan.{scan_says};

use format::{Outcome, Refusal};

// What a pass over a deck tells: its version, where the rules start, their number and that of their elements; or its refusal.
pub type Scan = Result<(u64, usize, u64, u64), Refusal>;

// What a pass says: the number of rules, or a refusal.
pub fn scan_says(c: Scan) -> Outcome
    ensures { result ≡ scan_says c }
{
    let (_, _, n, _) = c?;
    Ok(n as usize)
}
