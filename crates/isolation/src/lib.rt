// What isolation means: demand 3. Definitions in specs/, theorems in proofs/; no code.
#![tactic(auto)]
