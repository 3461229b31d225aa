// What the bytes of a record say: a network, a sheet, a route list. It is all in specs/ and proofs/; there is no code.
#![tactic(auto)]
