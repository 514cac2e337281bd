// A piece: its length, and its writers, of the whole and of any part.
ghost use Rattle.std.specs.Prelude.{List, ◌≡◌, ℕ, ◌+◌, ◌-◌, ◌≤◌, length, take, drop};
ghost use Rattle.pieces.specs.Bytes.{part, body_of, bytes_of, GoodBody, Good};

use super::copying::{copy_part, fill};
use super::quoting::quote_part;
use super::window::{Cuts, cut};
use super::{Body, Content, Piece};
use table::string_part;

// Whatever table the piece is good for, this is its length.
#[tactic(auto, using(crate::proofs::Bodies::length_bytes))]
pub fn piece_length(piece: Piece) -> usize
    requires { (t : List ℕ) × Good t piece }
    ensures length { (t : List ℕ) → Good t piece → result ≡ length (bytes_of t piece) }
    ensures within { result ≤ 262144 }
{
    piece.before + (piece.body.size + piece.behind)
}

// A part of the text before padding, or all of it.
fn body_part(body: Body, table: &[u8], from: usize, out: &mut [u8])
    requires good_body { GoodBody table.now body }
    requires out_len_bound { length out.old ≤ body.size - from }
    ensures { out.new ≡ part from (length out.old) (body_of table.now body) }
{
    match body.content {
        Content::Run { byte, .. } => fill(byte, out),
        Content::Copied { start, end } => copy_part(string_part(table, start, end), from, out),
        Content::Quoted { start, end } => quote_part(
            string_part(table, start, end),
            body.size,
            from,
            out,
        ),
        Content::Figures(x) => x.write_part(body.size, from, out),
        Content::Word(n) => copy_part(&body.word[..n], from, out),
    }
}

// Fills out with the bytes of the piece from `from` on.
pub fn write_part(piece: Piece, table: &[u8], from: usize, out: &mut [u8])
    requires good { Good table.now piece }
    requires out_in_bounds { from + length out.old ≤ length (bytes_of table.now piece) }
    ensures { out.new ≡ take (length out.old) (drop from (bytes_of table.now piece)) }
{
    let n = out.len();
    let Cuts { a, b, start } = cut(piece.before, piece.body.size, from, n);
    fill(piece.pad, &mut out[..a]);
    body_part(piece.body, table, start, &mut out[a..b]);
    fill(piece.pad, &mut out[b..]);
}

// Fills out, which is as long as the piece, with all of it.
#[tactic(auto, using(crate::proofs::Bodies::length_bytes))]
pub fn write_whole(piece: Piece, table: &[u8], out: &mut [u8])
    requires good { Good table.now piece }
    requires out_len { length out.old ≡ length (bytes_of table.now piece) }
    ensures { out.new ≡ bytes_of table.now piece }
{
    let end = piece.before + piece.body.size;
    fill(piece.pad, &mut out[..piece.before]);
    body_part(piece.body, table, 0, &mut out[piece.before..end]);
    fill(piece.pad, &mut out[end..]);
}
