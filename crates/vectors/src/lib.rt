// Link histories with their expected values, as a proved table over the definitions, and a worked hearing: no function is here.
#![tactic(auto)]
