// The short texts: a character and its written form, a truth value, an ending.
ghost use Rattle.std.specs.Prelude.{cond, List, [], ◌∷◌, ◌≡◌, ℕ, ◌≤◌, ◌<◌, length, replicate};
ghost use Rattle.rules.specs.Letters.{letter};
ghost use Rattle.rules.specs.Number.{digits_of};
ghost use Rattle.rules.specs.Piece.{written_of, glyph_of, plural_of};
ghost use Rattle.pieces.specs.Bytes.{Makes};
ghost use Rattle.making.specs.Texts.{unnamed_of};

use numbers::digit_byte;
use pieces::{Body, Content};

// A text of a few bytes, which the body holds itself.
#[inline]
fn word_body(text: &[u8]) -> Body
    requires { length text.now ≤ 12 }
    ensures { (t : List ℕ) → Makes t result text.now }
{
    let size = text.len();
    let mut word = [0; 12];
    word[..size].copy_from_slice(text);
    Body {
        size,
        word,
        content: Content::Word(size),
    }
}

// A byte so many times.
pub fn run_body(byte: u8, count: usize) -> Body
    requires { count ≤ 4096 }
    ensures { (t : List ℕ) → Makes t result (replicate count byte) }
{
    Body {
        size: count,
        word: [0; 12],
        content: Content::Run { byte, count },
    }
}

// The written form of a code below 32 that has no name, with no leading zero.
fn hex_body(code: u8) -> Body
    requires { code < 32 }
    ensures { (t : List ℕ) → Makes t result (letter "#" ∷ letter "\\" ∷ letter "x" ∷ digits_of 16 code) }
{
    let high = code / 16;
    let low = digit_byte(code % 16);
    if high == 0 {
        word_body(&[b'#', b'\\', b'x', low])
    } else {
        word_body(&[b'#', b'\\', b'x', b'0' + high, low])
    }
}

// The written form of a character that has no name.
fn unnamed_body(code: u8) -> Body
    ensures { (t : List ℕ) → Makes t result (unnamed_of code) }
{
    if code < 32 {
        hex_body(code)
    } else {
        word_body(&[b'#', b'\\', code])
    }
}

// The written form of a character.
pub fn written_body(code: u8) -> Body
    ensures { (t : List ℕ) → Makes t result (written_of code) }
{
    match code {
        0 => word_body(b"#\\null"),
        7 => word_body(b"#\\alarm"),
        8 => word_body(b"#\\backspace"),
        9 => word_body(b"#\\tab"),
        10 => word_body(b"#\\newline"),
        13 => word_body(b"#\\return"),
        27 => word_body(b"#\\escape"),
        32 => word_body(b"#\\space"),
        127 => word_body(b"#\\delete"),
        _ => unnamed_body(code),
    }
}

// ~c
pub fn glyph_body(colon: bool, atsign: bool, code: u8) -> Body
    ensures { (t : List ℕ) → Makes t result (glyph_of colon atsign code) }
{
    if atsign {
        written_body(code)
    } else if colon && code < 32 {
        word_body(&[b'^', code + 64])
    } else {
        run_body(code, 1)
    }
}

// ~p
pub fn plural_body(atsign: bool, one: bool) -> Body
    ensures { (t : List ℕ) → Makes t result (plural_of atsign one) }
{
    match (one, atsign) {
        (true, true) => run_body(b'y', 1),
        (true, false) => run_body(b'y', 0),
        (false, true) => word_body(b"ies"),
        (false, false) => run_body(b's', 1),
    }
}

// A truth value.
pub fn flag_body(flag: bool) -> Body
    ensures { (t : List ℕ) → Makes t result (letter "#" ∷ cond flag (letter "t") (letter "f") ∷ []) }
{
    if flag {
        word_body(b"#t")
    } else {
        word_body(b"#f")
    }
}

// Tilde-newline.
pub fn fold_body(atsign: bool) -> Body
    ensures { (t : List ℕ) → Makes t result (cond atsign (10 ∷ []) []) }
{
    run_body(b'\n', usize::from(atsign))
}
