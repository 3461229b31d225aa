// Open networks, judging and cutting, with no byte in sight. The definitions are in specs/, the theorems in proofs/; there is no code.
#![tactic(auto)]
