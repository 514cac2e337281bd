// Texts that are put straight into the buffer: a repeated byte, a string, a decimal number. Most directives write one of
// these, and need no piece for it.
ghost use Rattle.std.specs.Prelude.{◌≡◌, false, ◌++◌, ℕ, ◌-◌, ◌≤◌, length, replicate};
ghost use Rattle.rules.specs.Number.{digits_of, magnitude_of, sign_of, pad_left};
ghost use Rattle.rules.specs.Run.{put};
ghost use Rattle.pieces.specs.Bytes.{part};
ghost use Rattle.pieces.specs.Given.{StringIn};
ghost use Rattle.actions.specs.Acting.{Performed, Untouched};

use crate::state::{Ran, Spot};
use numbers::{count_decimal, fill_decimal, magnitude};
use pieces::copying::{copy_part, fill};
use rules::ArgumentPosition;
use rules::refusal::Refusal;

// A byte repeated n times, put whole or refused for want of room.
pub fn put_run(spot: Spot, byte: u8, n: usize, next: ArgumentPosition, out: &mut [u8]) -> Ran
    requires { spot.at ≤ length out.old }
    ensures puts { (count : ℕ) → next.0 ≤ count → Performed (λ on. put spot.position spot.left (replicate n byte) (on next.0)) count spot out.old out.new result }
    ensures untouched { Untouched spot next.0 out.old out.new result }
{
    let at = spot.at;
    if n <= out.len() - at {
        let end = at + n;
        fill(byte, &mut out[at..end]);
        return spot.go_on(next, end);
    }
    spot.refuse(Refusal::NoRoom, next)
}

// A string of the table, filled up with spaces to the width.
pub fn put_text(
    spot: Spot,
    width: usize,
    start: usize,
    end: usize,
    table: &[u8],
    before: ArgumentPosition,
    next: ArgumentPosition,
    out: &mut [u8],
) -> Ran
    requires string_in { StringIn table.now start end }
    requires at_in_bounds { spot.at ≤ length out.old }
    ensures puts { (count : ℕ) → before.0 ≤ count → next.0 ≤ count → Performed (λ on. put spot.position spot.left (part start (end - start) table.now ++ replicate (width - (end - start)) 32) (on next.0)) count spot out.old out.new result }
    ensures untouched { Untouched spot before.0 out.old out.new result }
{
    let at = spot.at;
    let size = end - start;
    let n = size.max(width);
    if n <= out.len() - at {
        let middle = at + size;
        let to = at + n;
        copy_part(&table[start..end], 0, &mut out[at..middle]);
        fill(b' ', &mut out[middle..to]);
        return spot.go_on(next, to);
    }
    spot.refuse(Refusal::NoRoom, before)
}

fn sign_size(x: i64) -> usize
    ensures size { result ≡ length (sign_of false x) }
    ensures within { result ≤ 1 }
{
    usize::from(x < 0)
}

// An integer in base ten, to the right of its padding.
pub fn put_decimal(
    spot: Spot,
    width: usize,
    pad: u8,
    x: i64,
    before: ArgumentPosition,
    next: ArgumentPosition,
    out: &mut [u8],
) -> Ran
    requires { spot.at ≤ length out.old }
    ensures puts { (count : ℕ) → before.0 ≤ count → next.0 ≤ count → Performed (λ on. put spot.position spot.left (pad_left width pad (sign_of false x ++ digits_of 10 (magnitude_of x))) (on next.0)) count spot out.old out.new result }
    ensures untouched { Untouched spot before.0 out.old out.new result }
{
    let at = spot.at;
    let m = magnitude(x);
    let count = count_decimal(m);
    let size = sign_size(x) + count;
    let n = size.max(width);
    if n <= out.len() - at {
        let to = at + n;
        let first = to - size;
        let digits = to - count;
        fill(pad, &mut out[at..first]);
        if first < digits {
            out[first] = b'-';
        }
        fill_decimal(m, &mut out[digits..to]);
        return spot.go_on(next, to);
    }
    spot.refuse(Refusal::NoRoom, before)
}
