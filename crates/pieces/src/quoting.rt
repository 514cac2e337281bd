// A string in quotes, with a backslash before each quote and backslash.
ghost use Rattle.std.specs.Prelude.{◌≡◌, ◌-◌, ◌≤◌, length, drop};
ghost use Rattle.rules.specs.Piece.{escaped};
ghost use Rattle.pieces.specs.Bytes.{part, is_marked, owed, quoted_of};
ghost use Rattle.pieces.specs.Rest.{Escapes};

use super::copying::fill;
use super::window::{Cuts, cut};

// Whether a backslash stands before the byte.
#[tactic(auto, unfolding(crate::specs::Bytes::is_marked))]
fn is_marked(byte: u8) -> bool
    ensures { result ≡ is_marked byte }
{
    matches!(byte, b'"' | b'\\')
}

// The length of a string in quotes. A sum has no branches, so the compiler looks at many bytes at once; `filter` and
// `count` go byte by byte.
pub fn quoted_size(src: &[u8]) -> usize
    requires { length src.now ≤ 65536 }
    ensures size { result ≡ length (quoted_of src.now) }
    ensures within { result ≤ 131074 }
{
    let mut marked: u32 = 0;
    for byte in src {
        marked += u32::from(is_marked(*byte));
    }
    2 + src.len() + marked as usize
}

// The whole string in quotes.
fn quote_whole(src: &[u8], out: &mut [u8])
    requires { length out.old ≡ length (quoted_of src.now) }
    ensures { out.new ≡ quoted_of src.now }
{
    out[0] = b'"';
    let mut to = 1;
    for byte in src {
        if is_marked(*byte) {
            out[to] = b'\\';
            to += 1;
        }
        out[to] = *byte;
        to += 1;
    }
    out[to] = b'"';
}

// Where a place of the escaped text falls: at a byte of the string, whose backslash is gone already or not.
#[derive(Clone, Copy, Debug, PartialEq, Eq)]
pub struct Spot {
    pub next: usize,
    pub gone: bool,
}

fn find_spot(src: &[u8], from: usize) -> Spot
    ensures spot { drop from (escaped src.now) ≡ owed result.gone (drop result.next src.now) }
    ensures inside { result.next ≤ length src.now }
{
    let mut skip = from;
    for (next, byte) in src.iter().enumerate() {
        let size = 1 + usize::from(is_marked(*byte));
        if skip < size {
            return Spot {
                next,
                gone: skip == 1,
            };
        }
        skip -= size;
    }
    Spot {
        next: src.len(),
        gone: false,
    }
}

// Escapes the bytes of src, the backslash of whose first may be gone, as far as there is room. It answers where what is
// left begins, and the place after what is written.
pub fn escape_some(src: &[u8], first_gone: bool, out: &mut [u8], from: usize) -> (Spot, usize)
    requires { from ≤ length out.old }
    ensures { Escapes src.now first_gone from out.old out.new result.0.next result.0.gone result.1 }
{
    let mut next = 0;
    let mut gone = first_gone;
    let mut to = from;
    // no `for`: a byte with a backslash takes two places, so the two positions move apart
    while to < out.len() && next < src.len() {
        let byte = src[next];
        gone = !gone && is_marked(byte);
        if gone {
            out[to] = b'\\';
        } else {
            out[to] = byte;
            next += 1;
        }
        to += 1;
    }
    (Spot { next, gone }, to)
}

// A part of the escaped text.
fn escape_part(src: &[u8], from: usize, out: &mut [u8])
    requires { length out.old ≤ length (escaped src.now) - from }
    ensures { out.new ≡ part from (length out.old) (escaped src.now) }
{
    let spot = find_spot(src, from);
    escape_some(&src[spot.next..], spot.gone, out, 0);
}

// A part of the string in quotes, whose length is size, or all of it.
pub fn quote_part(src: &[u8], size: usize, from: usize, out: &mut [u8])
    requires size_value { size ≡ length (quoted_of src.now) }
    requires size_bound { size ≤ 131074 }
    requires out_len_bound { length out.old ≤ size - from }
    ensures { out.new ≡ part from (length out.old) (quoted_of src.now) }
{
    if out.len() == size {
        quote_whole(src, out);
        return;
    }
    let n = out.len();
    let Cuts { a, b, start } = cut(1, size - 2, from, n);
    fill(b'"', &mut out[..a]);
    escape_part(src, start, &mut out[a..b]);
    fill(b'"', &mut out[b..]);
}
