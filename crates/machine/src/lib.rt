#![tactic(auto)]

// Calls at the machine: memory, cells, arguments and results of a call, with nothing of the program logic: statement and proof, specs/ and proofs/ alone.
