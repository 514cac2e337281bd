// A line through windows for callers in C. Nothing is asked of a caller: every byte and every number is answered. It is a
// crate of its own, since parts that two calls of one archive share are no longer made one with either, and
// `tilde_format` would be slower by up to a quarter.
#![tactic(auto)]

ghost use Rattle.windows.specs.Calls.{Resumes};

use windows::resuming::resume;
use windows::state::{Resumed, State};

// Writes as much of a text as the window has room for, from a state on: a fresh one, all zeros, or the answer of the
// call before, with the same format and table. Answers 01's code or, where a byte had no room, 256, and with it the
// position, the steps done, the bytes written and the state.
#[unsafe(no_mangle)]
pub extern "C" fn tilde_resume(
    format: &[u8],
    table: &[u8],
    window: &mut [u8],
    state: State,
) -> Resumed
    ensures { Resumes format.now table.now state window.old window.new result }
{
    resume(format, table, window, state)
}
