// Runs of edits: see specs/. There is no code here.
#![tactic(auto)]
