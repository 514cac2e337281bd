// A piece from a directive, its worked-out parameters and its argument.
ghost use Rattle.std.specs.Prelude.{List, ◌++◌, ◌≡◌, ℕ, ◌-◌};
ghost use Rattle.rules.specs.Number.{digits_of, magnitude_of, sign_of};
ghost use Rattle.rules.specs.Piece.{bare_of, object_of, digits_in, numeral_of, integer_in, code_in, is_one, text_of};
ghost use Rattle.rules.specs.Table.{string, meant};
ghost use Rattle.rules.specs.Working.{WellSet};
ghost use Rattle.pieces.specs.Bytes.{part, Makes, Gives};
ghost use Rattle.pieces.specs.Given.{StringIn, Reachable};

use super::numerals::figure_body;
use super::padding::{around, bare_piece, byte_or, padded_piece};
use super::words::{flag_body, fold_body, glyph_body, plural_body, run_body, written_body};
use pieces::quoting::quoted_size;
use pieces::{Body, Content, Piece};
use rules::{Argument, Form, Settings};
use table::string_part;

// A string of the table, as it is or in quotes.
fn string_body(quoted: bool, start: usize, end: usize, table: &[u8]) -> Body
    requires { StringIn table.now start end }
    ensures { Makes table.now result (bare_of quoted (string (part start (end - start) table.now))) }
{
    let word = [0; 12];
    if quoted {
        Body {
            size: quoted_size(string_part(table, start, end)),
            word,
            content: Content::Quoted { start, end },
        }
    } else {
        Body {
            size: end - start,
            word,
            content: Content::Copied { start, end },
        }
    }
}

// The text of an argument for ~a, or for ~s, before padding.
fn bare_body(quoted: bool, argument: Argument, table: &[u8]) -> Body
    requires { Reachable table.now argument }
    ensures { Makes table.now result (bare_of quoted (meant table.now argument)) }
{
    match argument {
        Argument::Boolean(flag) => flag_body(flag),
        Argument::Integer(x) => figure_body(10, false, 0, b',', x),
        Argument::Character(code) if quoted => written_body(code),
        Argument::Character(code) => run_body(code, 1),
        Argument::Text { start, end } => string_body(quoted, start, end, table),
        Argument::Entries { .. } => run_body(b' ', 0),
    }
}

// ~d, ~x, ~o and ~b: digits in groups with `:`, and padding left of the sign.
fn make_numeral(base: u64, colon: bool, atsign: bool, settings: Settings, x: i64) -> Piece
    requires { WellSet (Form.Numeral base) settings }
    ensures { (t : List ℕ) → Gives t result (numeral_of base colon atsign settings x) }
{
    let group = if colon {
        settings.fourth.unwrap_or(3)
    } else {
        0
    };
    let comma = byte_or(settings.third, b',');
    let body = figure_body(base, atsign, group, comma, x);
    let missing = settings.first.unwrap_or(0).saturating_sub(body.size);
    padded_piece(body, missing, 0, byte_or(settings.second, b' '))
}

fn integer_of(argument: Argument) -> i64
    ensures { (t : List ℕ) → result ≡ integer_in (meant t argument) }
{
    match argument {
        Argument::Integer(x) => x,
        _ => 0,
    }
}

fn code_of(argument: Argument) -> u8
    ensures { (t : List ℕ) → result ≡ code_in (meant t argument) }
{
    match argument {
        Argument::Character(code) => code,
        _ => 0,
    }
}

fn is_one(argument: Argument) -> bool
    ensures { (t : List ℕ) → result ≡ is_one (meant t argument) }
{
    matches!(argument, Argument::Integer(1))
}

// What a directive writes.
pub fn make_piece(
    form: Form,
    colon: bool,
    atsign: bool,
    settings: Settings,
    argument: Argument,
    table: &[u8],
) -> Piece
    requires well_set { WellSet form settings }
    requires reachable { Reachable table.now argument }
    ensures { Gives table.now result (text_of form colon atsign settings (meant table.now argument)) }
{
    match form {
        Form::Object(quoted) => around(atsign, settings, bare_body(quoted, argument, table)),
        Form::Numeral(base) => make_numeral(base, colon, atsign, settings, integer_of(argument)),
        Form::Glyph => bare_piece(glyph_body(colon, atsign, code_of(argument))),
        Form::Plural => bare_piece(plural_body(atsign, is_one(argument))),
        Form::Repeat(byte) => bare_piece(run_body(byte, settings.first.unwrap_or(1))),
        Form::Fold => bare_piece(fold_body(atsign)),
    }
}
