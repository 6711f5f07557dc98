// Words for lists, their laws, and invariants of loops: specs/ and proofs/ alone, over the kit.
#![tactic(auto)]
