// Where the clauses and blocks of a text end.
ghost use Rattle.std.specs.Prelude.{◌≡◌, ◌≤◌, length};
ghost use Rattle.rules.specs.Directive.{item_at};
ghost use Rattle.reader.specs.Marks.{mark_code, mark_colon};
ghost use Rattle.syntax.specs.Ends.{shape_of_code, shape_of, AfterBlock, EndsClause};

use reader::directive::item_at;
use reader::marks::{Mark, after_mark, mark_at};
use reader::short::skip_short;
use rules::{Code, Item};

// What an item is to the blocks, with the position after it. Nothing is read on behind a fault or the end.
#[derive(Clone, Copy)]
pub enum Shape {
    Stops,
    Passes(usize),
    Begins(usize),
    Splits { colon: bool, after: usize },
    Finishes(usize),
}

fn shape_of(code: Code, colon: bool, after: usize) -> Shape
    ensures { result ≡ shape_of_code code colon after }
{
    match code {
        Code::Writes(_) | Code::Jump | Code::Escape => Shape::Passes(after),
        Code::Opens(_) => Shape::Begins(after),
        Code::Separator => Shape::Splits { colon, after },
        Code::Closes(_) => Shape::Finishes(after),
        Code::Unknown => Shape::Stops,
    }
}

// The shape of a mark, after which the text goes on at after.
fn shape_of_mark(mark: Mark, after: usize) -> Shape
    ensures { result ≡ shape_of_code (mark_code mark) (mark_colon mark) after }
{
    match mark {
        Mark::Separator => Shape::Splits {
            colon: false,
            after,
        },
        Mark::EndConditional | Mark::EndIteration => Shape::Finishes(after),
        _ => Shape::Begins(after),
    }
}

// The shape of the item at p. Put in place where it is called, as next_clause is.
#[inline(always)]
pub fn shape_at(text: &[u8], p: usize) -> Shape
    ensures { result ≡ shape_of p (item_at text.now p) }
{
    if let Some(mark) = mark_at(text, p) {
        return shape_of_mark(mark, after_mark(mark, p));
    }
    match item_at(text, p) {
        Item::End | Item::BadNumber | Item::Unfinished => Shape::Stops,
        Item::Literal(_) => Shape::Passes(p + 1),
        Item::Written(d) => shape_of(d.code, d.colon, d.after),
    }
}

// How a clause ends: at a closer, or at a ~; after which another clause begins at next.
#[derive(Clone, Copy)]
pub enum ClauseEnd {
    Last {
        position: usize,
        after: usize,
    },
    Another {
        position: usize,
        colon: bool,
        after: usize,
    },
}

// From a place inside a clause, its end. Blocks that begin on the way are gone over: depth of them are open. Put in place
// where it is called: as a call it would answer by memory (measured).
#[inline(always)]
pub fn next_clause(text: &[u8], start: usize) -> ClauseEnd
    requires { start ≤ length text.now }
    ensures { EndsClause text.now start result }
{
    let mut p = start;
    let mut depth: usize = 0;
    // no `for`: how long an item is shows only when it is read
    loop {
        p = skip_short(text, p);
        match shape_at(text, p) {
            Shape::Stops => return ClauseEnd::Last {
                position: p,
                after: p,
            },
            Shape::Passes(q) => p = q,
            Shape::Begins(q) => {
                depth += 1;
                p = q;
            }
            Shape::Splits { colon, after } => {
                if depth == 0 {
                    return ClauseEnd::Another {
                        position: p,
                        colon,
                        after,
                    };
                }
                p = after;
            }
            Shape::Finishes(q) => {
                if depth == 0 {
                    return ClauseEnd::Last {
                        position: p,
                        after: q,
                    };
                }
                depth -= 1;
                p = q;
            }
        }
    }
}

// From a place inside a block, the place after its closer.
pub fn after_block(text: &[u8], start: usize) -> usize
    requires { start ≤ length text.now }
    ensures { AfterBlock text.now start result }
{
    let mut p = start;
    // no `for`: where the next clause begins shows only when this one is gone over
    loop {
        match next_clause(text, p) {
            ClauseEnd::Last { after, .. } => return after,
            ClauseEnd::Another { after, .. } => p = after,
        }
    }
}
