// Two hubs that take the same link calls in different arrangements: statement and proof, specs/ and proofs/ alone.
#![tactic(auto)]
