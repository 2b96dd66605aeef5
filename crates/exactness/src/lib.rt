// The rules of the calculus step by step, and that runs follow them. Definitions in specs/, theorems in proofs/; no code.
#![tactic(auto)]
