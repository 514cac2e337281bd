// The parameters of a directive, worked out: `v` from the next argument, `#` from the arguments that remain.
#![tactic(auto)]

pub mod arguments; // the arguments in hand
pub mod places; // one parameter in its place
pub mod settling; // the parameters of a directive

pub use arguments::{Hand, argument_at};
pub use settling::{SettledOut, settle_directive};
