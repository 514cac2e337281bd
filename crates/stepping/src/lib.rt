// The steps of a run that open no block: literal bytes, directives that act alone, and short directives one after
// another. They know nothing of the runners of blocks.
#![tactic(auto)]

pub mod items;
pub mod short;
