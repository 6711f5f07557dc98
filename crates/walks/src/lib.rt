// The walk of a link going up: its theory, specs/ and proofs/ alone. The code is in crate links.
#![tactic(auto)]
