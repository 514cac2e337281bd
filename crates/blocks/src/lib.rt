// Blocks as a run meets them, before anything is written: which clause a conditional wants and where it stands, by
// landmarks in a long text, the passes of an iteration, and what ends a sequence.
#![tactic(auto)]

pub mod clauses;
pub mod ends;
pub mod landmarks;
pub mod passes;
pub mod wanting;
