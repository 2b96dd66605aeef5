// The machine: what a rule set judges of a guard or an assignment, from their operands; and runs from any row and any block, over the compiled
// tables alone. For the runner: it has made sure of what a part `requires`. Definitions in specs/, laws in proofs/.
#![tactic(auto)]

pub mod blocks;
mod expressions;
pub mod rows;
pub mod rules;
pub mod slots;
pub mod steps;
