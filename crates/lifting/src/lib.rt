// One link that lifts a radio: the theory of its search, specs/ and proofs/ alone. The code is in crate lift.
#![tactic(auto)]
