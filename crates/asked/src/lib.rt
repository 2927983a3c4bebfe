// What is asked of a rule of a deck: the read's refusal, then 16; see specs/. There is no code here.
#![tactic(auto)]
