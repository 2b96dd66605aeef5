// Runs in stretches: where a run stands, and how it is carried on. Definitions in specs/, theorems in proofs/; no code.
#![tactic(auto)]
