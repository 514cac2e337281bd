// One directive, read from left to right: parameters, modifiers, code.
ghost use Rattle.std.specs.Prelude.{◌≡◌, ◌+◌, ◌≤◌, ◌<◌, length, get_or, drop, take_while};
ghost use Rattle.rules.specs.Directive.{with_parameter, no_parameters, is_blank, blanks, blank, having, closed};
ghost use Rattle.rules.specs.Directive.{scan, start as starting, modifiers, skipped, item_at};
ghost use Rattle.reader.specs.Scans.{digit_at, comma_at, zeros_at, greatest_of, Few, Numbers, number_parameter, Parametrises};
ghost use Rattle.reader.specs.Scans.{reading, item_read};
ghost use Rattle.reader.specs.Spans.{is_zero, span_of, Along};

use crate::codes::code_of;
use crate::spans::{STRIDE, after_strides};
use rules::{Directive, Item, Parameter, Parameters};

// A number, and the position after it.
#[derive(Clone, Copy, Debug, PartialEq, Eq)]
pub struct NumberRead {
    pub value: usize,
    pub after: usize,
}

// A parameter, if one is written, and the position after it.
#[derive(Clone, Copy, Debug, PartialEq, Eq)]
struct ParameterRead {
    parameter: Option<Parameter>,
    after: usize,
}

// Why a directive has no end.
#[derive(Clone, Copy, Debug, PartialEq, Eq)]
enum Misread {
    BadNumber,
    Unfinished,
}

fn no_parameters() -> Parameters
    ensures { result ≡ no_parameters }
{
    Parameters {
        count: 0,
        first: Parameter::Default,
        second: Parameter::Default,
        third: Parameter::Default,
        fourth: Parameter::Default,
        fifth: Parameter::Default,
    }
}

// One parameter more; from the sixth on they are only counted.
fn with_parameter(ps: Parameters, x: Parameter) -> Parameters
    requires { ps.count < 18446744073709551615 }
    ensures { result ≡ with_parameter ps x }
{
    let count = ps.count + 1;
    match ps.count {
        0 => Parameters {
            count,
            first: x,
            ..ps
        },
        1 => Parameters {
            count,
            second: x,
            ..ps
        },
        2 => Parameters {
            count,
            third: x,
            ..ps
        },
        3 => Parameters {
            count,
            fourth: x,
            ..ps
        },
        4 => Parameters {
            count,
            fifth: x,
            ..ps
        },
        _ => Parameters { count, ..ps },
    }
}

pub fn digit_at(text: &[u8], i: usize) -> bool
    ensures { result ≡ digit_at text.now i }
{
    i < text.len() && text[i].is_ascii_digit()
}

// The byte at i; past the end of the text 0, which is no code.
pub fn byte_at(text: &[u8], i: usize) -> u8
    ensures { result ≡ get_or text.now i 0 }
{
    if i < text.len() { text[i] } else { 0 }
}

// The greatest number that may be written, after a `-` or not.
fn greatest(minus: bool) -> usize
    ensures { (result ≡ greatest_of minus) × (result ≤ 4096) }
{
    if minus { 0 } else { 4096 }
}

// Whether two zeros stand at i.
pub fn zeros_at(text: &[u8], i: usize) -> bool
    ensures { result ≡ zeros_at text.now i }
{
    byte_at(text, i) == b'0' && byte_at(text, i + 1) == b'0'
}

// A position among the zeros that a number at start begins with: after the strides of them, if two zeros stand there.
fn after_zeros(text: &[u8], start: usize) -> usize
    ensures { (start ≤ result) × (result ≤ start + span_of is_zero (drop start text.now)) }
{
    if zeros_at(text, start) {
        after_strides(text, start, |b| b == b'0')
    } else {
        start
    }
}

// The number whose digits begin at start, after a sign or none. It is refused as soon as it leaves the range, and where
// there is no digit.
pub fn read_number(text: &[u8], start: usize, minus: bool) -> Option<NumberRead>
    ensures { Numbers text.now start minus result }
{
    let most = greatest(minus);
    let mut n = 0;
    let mut i = after_zeros(text, start);
    // No `for`: where the loop ends is a part of the answer, and it may begin past the end of the text.
    while digit_at(text, i) {
        n = n * 10 + usize::from(text[i] - b'0');
        if most < n {
            return None;
        }
        i += 1;
    }
    if i == start {
        return None;
    }
    Some(NumberRead { value: n, after: i })
}

// A parameter that is written, up to after.
fn written(x: Parameter, after: usize) -> Result<ParameterRead, Misread>
    ensures { result ≡ Ok (record { parameter = Some x; after = after }) }
{
    Ok(ParameterRead {
        parameter: Some(x),
        after,
    })
}

// A number as a parameter.
fn number_parameter(r: Option<NumberRead>) -> Result<ParameterRead, Misread>
    requires { Few r }
    ensures { result ≡ number_parameter r }
{
    let number = r.ok_or(Misread::BadNumber)?;
    written(Parameter::Number(number.value as u16), number.after)
}

// The parameter that begins at i, if one does.
fn read_parameter(text: &[u8], i: usize) -> Result<ParameterRead, Misread>
    ensures { Parametrises text.now i result }
{
    if text.len() <= i {
        return Err(Misread::Unfinished);
    }
    let after = i + 1;
    match text[i] {
        b'0'..=b'9' => number_parameter(read_number(text, i, false)),
        b'+' => number_parameter(read_number(text, after, false)),
        b'-' => number_parameter(read_number(text, after, true)),
        b'\'' => {
            if after < text.len() {
                written(Parameter::Character(text[after]), after + 1)
            } else {
                Err(Misread::Unfinished)
            }
        }
        b'v' | b'V' => written(Parameter::Next, after),
        b'#' => written(Parameter::Remaining, after),
        _ => Ok(ParameterRead {
            parameter: None,
            after: i,
        }),
    }
}

fn is_blank(b: u8) -> bool
    ensures { result ≡ is_blank b }
{
    b == b' ' || (9 <= b && b <= 13)
}

// A position among the blanks from start on: after the strides of them, if there may be any. Two bytes of the first stride
// tell nearly always that there is none.
fn after_blank_strides(text: &[u8], start: usize) -> usize
    requires { start ≤ length text.now }
    ensures { Along is_blank text.now start result }
{
    if STRIDE <= text.len() - start && is_blank(text[start]) && is_blank(text[start + 15]) {
        after_strides(text, start, is_blank)
    } else {
        start
    }
}

// How many blanks the bytes begin with.
fn count_blanks(bs: &[u8]) -> usize
    ensures { result ≡ length (take_while is_blank bs.now) }
{
    bs.iter().take_while(|b| is_blank(**b)).count()
}

// The position after the blanks from start on.
fn after_blanks(text: &[u8], start: usize) -> usize
    requires { start ≤ length text.now }
    ensures { (result ≡ start + blanks (drop start text.now)) × (result ≤ length text.now) }
{
    let i = after_blank_strides(text, start);
    i + count_blanks(&text[i..])
}

// Where the text goes on after the code b, which ends at i.
fn after_code(text: &[u8], b: u8, colon: bool, i: usize) -> usize
    requires { i ≤ length text.now }
    ensures { (result ≡ i + skipped b colon (drop i text.now)) × (result ≤ length text.now) }
{
    if b == b'\n' && !colon {
        after_blanks(text, i)
    } else {
        i
    }
}

// The modifiers and the code, from start on.
fn read_code(text: &[u8], start: usize, ps: Parameters) -> Result<Directive, Misread>
    requires { start ≤ length text.now }
    ensures { item_read result ≡ scan modifiers (having blank ps) (drop start text.now) start }
{
    let mut colon = false;
    let mut atsign = false;
    for i in start..text.len() {
        match text[i] {
            b':' if !colon => colon = true,
            b'@' if !atsign => atsign = true,
            b => {
                return Ok(Directive {
                    code: code_of(b),
                    colon,
                    atsign,
                    parameters: ps,
                    after: after_code(text, b, colon, i + 1),
                });
            }
        }
    }
    Err(Misread::Unfinished)
}

// The parameters where the modifiers or the code begin, with the last one, if it is written or stands after a comma. It
// is added in one place: with two, the compiler moves them through memory, an eighth more instructions for a directive.
fn close_parameters(ps: Parameters, last: Option<Parameter>) -> Parameters
    requires { ps.count < 18446744073709551615 }
    ensures { result ≡ closed (reading last) ps }
{
    if last.is_none() && ps.count == 0 {
        return ps;
    }
    with_parameter(ps, last.unwrap_or(Parameter::Default))
}

fn comma_at(text: &[u8], i: usize) -> bool
    ensures { result ≡ comma_at text.now i }
{
    i < text.len() && text[i] == b','
}

// The directive whose tilde stands before start.
fn read_directive(text: &[u8], start: usize) -> Result<Directive, Misread>
    requires { start ≤ length text.now }
    ensures { item_read result ≡ scan starting blank (drop start text.now) start }
{
    let mut ps = no_parameters();
    let mut i = start;
    // no `for`: how long a parameter is shows only when it is read
    loop {
        let ParameterRead { parameter, after } = read_parameter(text, i)?;
        if !comma_at(text, after) {
            return read_code(text, after, close_parameters(ps, parameter));
        }
        ps = with_parameter(ps, parameter.unwrap_or(Parameter::Default));
        i = after + 1;
    }
}

// What stands at p.
pub fn item_at(text: &[u8], p: usize) -> Item
    ensures { result ≡ item_at text.now p }
{
    if text.len() <= p {
        return Item::End;
    }
    if text[p] != b'~' {
        return Item::Literal(text[p]);
    }
    match read_directive(text, p + 1) {
        Ok(d) => Item::Written(d),
        Err(Misread::BadNumber) => Item::BadNumber,
        Err(Misread::Unfinished) => Item::Unfinished,
    }
}
