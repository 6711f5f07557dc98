// A links table and a heard table row by row, their theory: specs/ and proofs/ alone. The code is in crates soundness and hearing.
#![tactic(auto)]
