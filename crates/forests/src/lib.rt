// Spanning forests and the staircase tree: their theory, specs/ and proofs/ alone. The definitions are in crate mesh, specs/Staircase.antt.
#![tactic(auto)]
