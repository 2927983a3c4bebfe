// No code: theorems about the definitions, in specs/.
#![tactic(auto)]
