#![tactic(auto)]

// Calls as a host makes them, in cells of the machine's memory: the exported calls, and lists of them: statement and proof, specs/ and proofs/ alone.
