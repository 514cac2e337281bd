// A string in quotes that the end of a window cuts. What is left of it is kept as a few numbers, so that the next
// window does not measure and search the string again.
ghost use Rattle.std.specs.Prelude.{◌≡◌, cond, List, ℕ, ◌≤◌, ◌<◌, length};
ghost use Rattle.pieces.specs.Rest.{RestIn, Pads, WritesRest, stage_of, number_of};

use super::copying::fill;
use super::quoting::{Spot, escape_some};
use super::window::reach;
use table::string_part;

// What is left of a piece, as rest_of in specs/Rest has it. But for the place of the string its numbers may be any: no
// sum is made of them. A state in C has it, so its stage is a number.
#[repr(C)]
#[derive(Clone, Copy, Debug, PartialEq, Eq)]
pub struct QuoteRest {
    pub stage: usize,
    pub before: usize,
    pub start: usize,
    pub end: usize,
    pub behind: usize,
    pub pad: u8,
}

// What is left now, and the place after what is written.
#[derive(Clone, Copy)]
pub struct RestWritten {
    pub rest: QuoteRest,
    pub at: usize,
}

// What is left, by how far the piece has come.
#[derive(Clone, Copy, Debug, PartialEq, Eq)]
enum Stage {
    // nothing
    Done,
    // all
    Whole,
    // from a byte of the string on, whose backslash is gone already or not
    Inside { gone: bool },
    // the padding on the right
    Padding,
}

impl From<usize> for Stage {
    ghost from_gives = { λ number stage. stage ≡ stage_of number };

    fn from(number: usize) -> Stage {
        match number {
            0 => Stage::Done,
            1 => Stage::Whole,
            2 => Stage::Inside { gone: false },
            3 => Stage::Inside { gone: true },
            _ => Stage::Padding,
        }
    }
}

impl From<Stage> for usize {
    ghost from_gives = { λ stage number. number ≡ number_of stage };

    fn from(stage: Stage) -> usize {
        match stage {
            Stage::Done => 0,
            Stage::Whole => 1,
            Stage::Inside { gone: false } => 2,
            Stage::Inside { gone: true } => 3,
            Stage::Padding => 4,
        }
    }
}

// A piece none of which is written, whose text is the string from start to end in quotes.
pub fn quote_rest(before: usize, behind: usize, pad: u8, start: usize, end: usize) -> QuoteRest
    ensures { result ≡ record { stage = 1; before = before; start = start; end = end; behind = behind; pad = pad } }
{
    QuoteRest {
        stage: Stage::Whole.into(),
        before,
        start,
        end,
        behind,
        pad,
    }
}

// How many bytes of padding are left, and the place after those written.
fn pad_some(count: usize, pad: u8, out: &mut [u8], from: usize) -> (usize, usize)
    requires { from ≤ length out.old }
    ensures { Pads count pad from out.old out.new result.0 result.1 }
{
    let n = reach(out.len(), from, count);
    fill(pad, &mut out[from..from + n]);
    (count - n, from + n)
}

// The padding on the right. What it promises holds for any table that has the string.
fn write_padding(q: QuoteRest, out: &mut [u8], from: usize) -> RestWritten
    requires lt_stage { 3 < q.stage }
    requires from_in_bounds { from ≤ length out.old }
    ensures { (t : List ℕ) → RestIn t q → WritesRest t q from out.old out.new result }
{
    let (behind, at) = pad_some(q.behind, q.pad, out, from);
    // a caller's state may have any number from that of the padding on: it stays
    let stage = if behind == 0 {
        Stage::Done.into()
    } else {
        q.stage
    };
    RestWritten {
        rest: QuoteRest { stage, behind, ..q },
        at,
    }
}

// From a byte of the string on, whose backslash is gone or not.
fn write_inside(q: QuoteRest, gone: bool, table: &[u8], out: &mut [u8], from: usize) -> RestWritten
    requires rest_in { RestIn table.now q }
    requires stage_value { q.stage ≡ cond gone 3 2 }
    requires from_in_bounds { from ≤ length out.old }
    ensures { WritesRest table.now q from out.old out.new result }
{
    let string = string_part(table, q.start, q.end);
    let (Spot { next, gone }, at) = escape_some(string, gone, out, from);
    if at < out.len() {
        out[at] = b'"';
        let rest = QuoteRest {
            stage: Stage::Padding.into(),
            ..q
        };
        return write_padding(rest, out, at + 1);
    }
    RestWritten {
        rest: QuoteRest {
            stage: Stage::Inside { gone }.into(),
            start: q.start + next,
            ..q
        },
        at,
    }
}

// From the padding on the left on.
fn write_from_left(q: QuoteRest, table: &[u8], out: &mut [u8], from: usize) -> RestWritten
    requires rest_in { RestIn table.now q }
    requires stage_value { q.stage ≡ 1 }
    requires from_in_bounds { from ≤ length out.old }
    ensures { WritesRest table.now q from out.old out.new result }
{
    let (before, at) = pad_some(q.before, q.pad, out, from);
    if at < out.len() {
        out[at] = b'"';
        let rest = QuoteRest {
            stage: Stage::Inside { gone: false }.into(),
            ..q
        };
        return write_inside(rest, false, table, out, at + 1);
    }
    RestWritten {
        rest: QuoteRest { before, ..q },
        at,
    }
}

// Writes of the rest as much as there is room for behind `from`.
pub fn write_rest(q: QuoteRest, table: &[u8], out: &mut [u8], from: usize) -> RestWritten
    requires rest_in { RestIn table.now q }
    requires from_in_bounds { from ≤ length out.old }
    ensures { WritesRest table.now q from out.old out.new result }
{
    match Stage::from(q.stage) {
        Stage::Done => RestWritten { rest: q, at: from },
        Stage::Whole => write_from_left(q, table, out, from),
        Stage::Inside { gone } => write_inside(q, gone, table, out, from),
        Stage::Padding => write_padding(q, out, from),
    }
}
