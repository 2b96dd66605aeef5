// What blocks do, and what a whole run answers and leaves. Definitions in specs/, laws in proofs/; no code.
#![tactic(auto)]
