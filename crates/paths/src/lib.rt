// Paths: between the rows of a block and the pause sheets that lead to them, over the block's code. For the runner: it has made sure of what a
// part `requires`. Definitions in specs/, laws in proofs/.
#![tactic(auto)]

pub mod checkpoint;
pub mod trail;
pub mod walking;
