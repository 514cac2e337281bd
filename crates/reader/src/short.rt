// Short directives: no modifier, at most a number and a character as parameters, and a code that repeats a byte or writes
// an argument. The number begins with at most one zero. Most directives are short. They are read here into a few words,
// which is much faster than a `Directive`.
ghost use Rattle.std.specs.Prelude.{◌≡◌, ◌+◌, ◌≤◌, ◌<◌, length};
ghost use Rattle.rules.specs.Letters.{letter};
ghost use Rattle.reader.specs.Shorts.{short_form, LeadRead, CharacterIn, second_at, after_second, short_kind, short_detail, fits_in, coded_at};
ghost use Rattle.reader.specs.Shorts.{ShortRead, SkipsShort};

use crate::codes::lower_case;
use crate::directive::{byte_at, digit_at, read_number, zeros_at};
use rules::{Form, Setting};

#[derive(Clone, Copy, Debug, PartialEq, Eq)]
pub enum Kind {
    // ~a ~s
    Object,
    // ~d ~x ~o ~b
    Numeral,
    // ~~ ~% ~_ ~| ~/
    Repeat,
}

// A short directive, after which the text goes on at after. The detail is 1 for ~s, the base, or the byte repeated.
#[derive(Clone, Copy, Debug, PartialEq, Eq)]
pub struct Short {
    pub kind: Kind,
    pub detail: u8,
    pub number: Setting,
    pub byte: Option<u8>,
    pub after: usize,
}

// A number that may be left out, and the position after it.
#[derive(Clone, Copy, Debug, PartialEq, Eq)]
struct Leading {
    number: Setting,
    after: usize,
}

// The number that begins at start, if one does. One that begins with two zeros is refused too: thousands of them would be
// read here, and again where the directive turns out not to be short.
fn leading_number(text: &[u8], start: usize) -> Option<Leading>
    requires { start ≤ length text.now }
    ensures { LeadRead text.now start result }
{
    if !digit_at(text, start) {
        return Some(Leading {
            number: None,
            after: start,
        });
    }
    if zeros_at(text, start) {
        return None;
    }
    let r = read_number(text, start, false)?;
    Some(Leading {
        number: Some(r.value),
        after: r.after,
    })
}

// The character of a second parameter, whose comma stands at i, if there is one.
fn second_character(text: &[u8], i: usize) -> Option<u8>
    ensures { (result ≡ second_at text.now i) × CharacterIn result }
{
    if byte_at(text, i) == b',' && byte_at(text, i + 1) == b'\'' {
        Some(byte_at(text, i + 2))
    } else {
        None
    }
}

// Where the text goes on after the second parameter, whose comma would stand at i.
fn after_character(i: usize, byte: Option<u8>) -> usize
    requires { i + 3 ≤ 18446744073709551615 }
    ensures { (result ≡ after_second i byte) × (result ≤ i + 3) }
{
    match byte {
        None => i,
        Some(_) => i + 3,
    }
}

#[tactic(auto, unfolding(crate::specs::Shorts::short_kind))]
fn sign_kind(b: u8) -> Option<Kind>
    requires { b < letter "a" }
    ensures { result ≡ short_kind b }
{
    match b {
        b'%' | b'_' | b'/' => Some(Kind::Repeat),
        _ => None,
    }
}

#[tactic(auto, unfolding(crate::specs::Shorts::short_kind))]
fn letter_kind(b: u8) -> Option<Kind>
    requires { letter "a" ≤ b }
    ensures { result ≡ short_kind b }
{
    match b {
        b'a' | b's' => Some(Kind::Object),
        b'd' | b'x' | b'o' | b'b' => Some(Kind::Numeral),
        b'~' | b'|' => Some(Kind::Repeat),
        _ => None,
    }
}

// The kind of the short directive that a code stands for. Two small tables are put in place, where a call of one large
// table stays a call.
fn kind_of(b: u8) -> Option<Kind>
    ensures { result ≡ short_kind b }
{
    if b < b'a' {
        sign_kind(b)
    } else {
        letter_kind(b)
    }
}

#[tactic(auto, unfolding(crate::specs::Shorts::short_detail))]
fn detail_of(b: u8) -> u8
    ensures { result ≡ short_detail b }
{
    match b {
        b'a' => 0,
        b's' => 1,
        b'd' => 10,
        b'x' => 16,
        b'o' => 8,
        b'b' => 2,
        b'~' => b'~',
        b'|' => 12,
        b'%' => b'\n',
        b'_' => b' ',
        b'/' => b'\t',
        _ => 0,
    }
}

impl Short {
    // What it writes.
    pub fn form(self) -> Form
        ensures { result ≡ short_form self.kind self.detail }
    {
        match self.kind {
            Kind::Object => Form::Object(self.detail == 1),
            Kind::Numeral => Form::Numeral(u64::from(self.detail)),
            Kind::Repeat => Form::Repeat(self.detail),
        }
    }
}

// Whether a directive of the kind is short with this character, or none.
fn fits(kind: Kind, byte: Option<u8>) -> bool
    ensures { result ≡ fits_in kind byte }
{
    kind == Kind::Numeral || byte.is_none()
}

// The short directive whose parameters are read, and whose code stands at i. It and read_short are put in place where they
// are called: as calls they would answer by memory, with a fifth more instructions of a line (measured).
#[inline(always)]
#[tactic(auto, unfolding(crate::specs::Shorts::coded_at))]
fn short_of(text: &[u8], i: usize, number: Setting, byte: Option<u8>) -> Option<Short>
    requires { i + 1 ≤ 18446744073709551615 }
    ensures { result ≡ coded_at text.now number byte i }
{
    let b = lower_case(byte_at(text, i));
    let kind = kind_of(b)?;
    if !fits(kind, byte) {
        return None;
    }
    Some(Short {
        kind,
        detail: detail_of(b),
        number,
        byte,
        after: i + 1,
    })
}

// The short directive at p, if one stands there.
#[inline(always)]
pub fn read_short(text: &[u8], p: usize) -> Option<Short>
    ensures { ShortRead text.now p result }
{
    if byte_at(text, p) != b'~' {
        return None;
    }
    let first = leading_number(text, p + 1)?;
    let byte = second_character(text, first.after);
    short_of(text, after_character(first.after, byte), first.number, byte)
}

// The position after the literal bytes and the short directives that stand from start on.
#[inline(always)]
pub fn skip_short(text: &[u8], start: usize) -> usize
    ensures { SkipsShort text.now start result }
{
    let mut p = start;
    // no `for`: how long a directive is shows only when it is read
    while p < text.len() {
        if text[p] == b'~' {
            let Some(short) = read_short(text, p) else {
                return p;
            };
            p = short.after;
        } else {
            p += 1;
        }
    }
    p
}
