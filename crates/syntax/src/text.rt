// The check of a whole text: its first fault.
ghost use Rattle.std.specs.Prelude.{◌≡◌};
ghost use Rattle.rules.specs.Text.{text_verdict};
ghost use Rattle.rules.specs.Verdict.{verdict_as};
ghost use Rattle.syntax.specs.Checks.{Checks};

use crate::meeting::{Around, Met, Scope, meet};
use reader::short::skip_short;
use rules::limits::{DEEPEST, LONGEST_FORMAT};
use rules::refusal::{Fault, Refusal};

// The inside of the block that is opened at opened, or the whole text, read from start on, where room more blocks may
// be open. Answers where the text goes on after the block that is closed, or that the text ends.
fn check_from(
    text: &[u8],
    start: usize,
    room: usize,
    around: Around,
    opened: usize,
) -> Result<Option<usize>, Fault>
    ensures { Checks text.now start room around opened result }
{
    let mut p = start;
    let mut separators: usize = 0;
    let mut fallback = false;
    // no `for`: how long an item is shows only when it is read
    loop {
        p = skip_short(text, p);
        let s = Scope {
            around,
            opened,
            start,
            separators,
            fallback,
            room,
        };
        match meet(text, p, s)? {
            Met::Ends => return Ok(None),
            Met::Stays { after } => p = after,
            Met::Parts { colon, after } => {
                separators += 1;
                fallback = colon;
                p = after;
            }
            Met::Leaves { after } => return Ok(Some(after)),
            Met::Enters { block, after } => match check_from(text, after, room - 1, block, p)? {
                Some(q) => p = q,
                None => return Ok(None),
            },
        }
    }
}

// The first fault of a text, if it has one.
pub fn check_text(text: &[u8]) -> Result<(), Fault>
    ensures { verdict_as result ≡ text_verdict text.now }
{
    if LONGEST_FORMAT < text.len() {
        return Err(Fault {
            refusal: Refusal::LongFormat,
            position: LONGEST_FORMAT,
        });
    }
    check_from(text, 0, DEEPEST, Around::Top, 0)?;
    Ok(())
}
