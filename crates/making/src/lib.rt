// What a directive writes, as a piece: made from its worked-out parameters and its argument.
#![tactic(auto)]

pub mod words; // short texts
pub mod numerals; // numbers
pub mod padding; // parameters, and the padding that they ask for
pub mod making; // a piece from a directive and its argument
