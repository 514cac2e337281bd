// The check of a whole format text, and where its clauses and blocks end.
#![tactic(auto)]

mod meeting; // what an item does where it is met
pub mod text; // the first fault of a whole text
pub mod ends; // the ends of clauses and blocks
