// What each directive is, and whether one is written as it may be.
#![tactic(auto)]

pub mod places; // which parameters and modifiers it takes
pub mod rows; // what it is, by its code
