// The promises of the engine: one statement, specs/Statement.antt, and its proof, proofs/Promises.antt.
#![tactic(auto)]
