// What the suite promises, in one place. It is all in specs/; there is no code.
#![tactic(auto)]
