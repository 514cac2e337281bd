// A line through windows of any size: a call writes as much as the window has room for, and its state goes on from
// there.
#![tactic(auto)]

pub mod resuming; // a call
pub mod state; // where a line stands between two calls
