// Where a rule stands in a deck.
#![tactic(auto)]

use format::Refusal;

// What was found of a deck: its bytes, its version, the number of its rules, where the first of them starts, where the rule that was
// asked for starts and where it ends; past the last rule both are the end of the deck.
#[derive(Clone, Copy)]
pub struct Site {
    pub bytes: usize,
    pub version: u64,
    pub rules: u64,
    pub base: usize,
    pub start: usize,
    pub end: usize,
}

// What is answered of where a rule stands, or a refusal.
pub type Spot = Result<Site, Refusal>;
