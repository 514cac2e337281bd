// The run of a format: the runner of a sequence and the runners of blocks, which call each other. What one directive
// does is the crate `actions`, and a step that opens no block the crate `stepping`.
#![tactic(auto)]

pub mod formatting;
pub mod runners;
