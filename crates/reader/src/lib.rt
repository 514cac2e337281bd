// The reader of format texts: one directive, read into its parts or, if it is short or a mark, into a few words.
#![tactic(auto)]

pub mod codes;
pub mod directive;
pub mod marks;
pub mod short;
pub mod spans;
