// The open blocks of a run that can be stopped and gone on with, as numbers: a block is opened, its sequence ends, or an
// escape leaves it. Nothing is written here.
#![tactic(auto)]

pub mod inputs;
pub mod moves;
pub mod nests;
