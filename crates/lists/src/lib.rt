// Definitions and laws that every other crate shares. They are in specs/ and proofs/; there is no code.
#![tactic(auto)]
