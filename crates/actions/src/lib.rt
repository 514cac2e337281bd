// What one directive does: its argument, its piece, a jump.
#![tactic(auto)]

pub mod acting;
pub mod direct;
pub mod planning;
pub mod state;
