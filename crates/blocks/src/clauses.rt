// Where the clause stands that a conditional runs.
ghost use Rattle.std.specs.Prelude.{◌≡◌, false, ℕ, ◌≤◌, length};
ghost use Rattle.rules.specs.Text.{Sequence, as_clauses, levels_at};
ghost use Rattle.syntax.specs.Ends.{AfterBlock};
ghost use Rattle.parameters.specs.Settling.{InHand};
ghost use Rattle.blocks.specs.Clauses.{wanted_of, InsideAt, Finds, Seeking, fallen_back, Chooses};
ghost use Rattle.blocks.specs.Landmarks.{Sound, Landmarks};

use crate::landmarks::{Landmark, nearest};
use crate::wanting::{Sought, Wanted, want_clause};
use parameters::Hand;
use rules::refusal::Refusal;
use rules::{ArgumentPosition, Directive, Settings};
use syntax::ends::{ClauseEnd, after_block, next_clause};

// The clause that a conditional runs; or none, and a place in the block from which its end is looked for; each with the
// next argument then.
#[derive(Clone, Copy, Debug, PartialEq, Eq)]
pub enum Chosen {
    At {
        place: usize,
        next: ArgumentPosition,
    },
    Nothing {
        inside: usize,
        next: ArgumentPosition,
    },
}

// A search for a clause answers the place of its first byte, or as an Err that of the last clause where there is none such.

// The clause at z, the last of its block: it runs as the fallback, or no clause does.
fn fall_back(z: usize, fallback: bool, colon: bool) -> Result<usize, usize>
    ensures { result ≡ fallen_back z fallback colon }
{
    if fallback && colon { Ok(z) } else { Err(z) }
}

// From the clause at start on, which stands after a ~:; or not, the one that is sought, by its number from there.
fn seek_clause(text: &[u8], start: usize, colon: bool, sought: Sought) -> Result<usize, usize>
    requires { start ≤ length text.now }
    ensures { (inside : ℕ) (wanted : Sequence) → Seeking text.now inside wanted sought start colon → Finds text.now inside wanted result }
{
    let mut z = start;
    let mut marked = colon;
    let mut left = sought;
    // no `for`: where the next clause begins shows only when this one is gone over
    loop {
        if left.number == Some(0) {
            return Ok(z);
        }
        match next_clause(text, z) {
            ClauseEnd::Last { .. } => return fall_back(z, left.fallback, marked),
            ClauseEnd::Another { colon, after, .. } => {
                z = after;
                marked = colon;
                left = left.counted_from(1);
            }
        }
    }
}

// The same from a landmark on, which may be the last clause.
fn seek_from(text: &[u8], l: Landmark, sought: Sought) -> Result<usize, usize>
    requires { Sound text.now l }
    ensures { (inside : ℕ) (wanted : Sequence) → Seeking text.now inside wanted sought l.place l.colon → Finds text.now inside wanted result }
{
    let place = usize::from(l.place);
    if sought.number == Some(0) {
        return Ok(place);
    }
    if l.end().is_some() {
        return fall_back(place, sought.fallback, l.colon);
    }
    seek_clause(text, place, l.colon, sought)
}

// The clause that is sought of the block whose inside is at start.
fn find_clause(
    text: &[u8],
    marks: &[Landmark],
    start: usize,
    sought: Sought,
) -> Result<usize, usize>
    requires landmarks { Landmarks text.now marks.now }
    requires start_in_bounds { start ≤ length text.now }
    ensures { Finds text.now start (wanted_of sought.number sought.fallback (as_clauses false (levels_at text.now start))) result }
{
    match nearest(marks, start, sought.number) {
        Some(l) => seek_from(text, l, sought.counted_from(usize::from(l.number))),
        None => seek_clause(text, start, false, sought),
    }
}

// The place after the block whose inside is at start, where known is that place or one of a clause of it, or behind one. It
// stays a call, so that what calls it is small enough to be put in place: a pass of an iteration copies less (measured).
#[inline(never)]
pub fn block_end(text: &[u8], marks: &[Landmark], start: usize, known: usize) -> usize
    requires landmarks { Landmarks text.now marks.now }
    requires inside_at { InsideAt text.now start known }
    ensures { AfterBlock text.now start result }
{
    let Some(l) = nearest(marks, start, None) else {
        return after_block(text, known);
    };
    match l.end() {
        Some(after) => after,
        None => after_block(text, known.max(usize::from(l.place))),
    }
}

// The clause that the conditional d runs once its parameters are worked out, where i is the next argument.
pub fn choose_clause(
    text: &[u8],
    marks: &[Landmark],
    table: &[u8],
    hand: Hand,
    d: Directive,
    settings: Settings,
    i: ArgumentPosition,
) -> Result<Chosen, Refusal>
    requires landmarks { Landmarks text.now marks.now }
    requires in_hand { InHand table.now hand }
    requires i_le_count { i.0 ≤ hand.count }
    requires after_in_bounds { d.after ≤ length text.now }
    ensures { Chooses text.now table.now hand d settings i.0 result }
{
    let start = d.after;
    let Wanted { clause, next } = want_clause(table, hand, d, settings, i)?;
    let found = match clause {
        Some(sought) => find_clause(text, marks, start, sought),
        None => Err(start),
    };
    Ok(match found {
        Ok(place) => Chosen::At { place, next },
        Err(inside) => Chosen::Nothing { inside, next },
    })
}
