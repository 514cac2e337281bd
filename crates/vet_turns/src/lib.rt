// What one directive does to a vet: the argument that it takes, and the most bytes that it writes or, of a conditional, the
// argument from which its clauses run.
#![tactic(auto)]

pub mod lengths;
pub mod question;
pub mod starts;
pub mod turns;
