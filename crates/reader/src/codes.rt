// The code of a directive, by its letter.
ghost use Rattle.std.specs.Prelude.{◌≡◌};
ghost use Rattle.rules.specs.Directive.{lower_case, code_named, code_of};

use rules::{Bracket, Code, Form};

pub fn lower_case(b: u8) -> u8
    ensures { result ≡ lower_case b }
{
    b.to_ascii_lowercase()
}

#[tactic(auto, unfolding(rules::specs::Directive::code_named))]
fn code_named(b: u8) -> Code
    ensures { result ≡ code_named b }
{
    match b {
        b'a' => Code::Writes(Form::Object(false)),
        b's' => Code::Writes(Form::Object(true)),
        b'd' => Code::Writes(Form::Numeral(10)),
        b'x' => Code::Writes(Form::Numeral(16)),
        b'o' => Code::Writes(Form::Numeral(8)),
        b'b' => Code::Writes(Form::Numeral(2)),
        b'c' => Code::Writes(Form::Glyph),
        b'p' => Code::Writes(Form::Plural),
        b'*' => Code::Jump,
        b'~' => Code::Writes(Form::Repeat(b'~')),
        b'%' => Code::Writes(Form::Repeat(b'\n')),
        b'_' => Code::Writes(Form::Repeat(b' ')),
        b'|' => Code::Writes(Form::Repeat(12)),
        b'/' => Code::Writes(Form::Repeat(b'\t')),
        b'\n' => Code::Writes(Form::Fold),
        b'[' => Code::Opens(Bracket::Conditional),
        b';' => Code::Separator,
        b']' => Code::Closes(Bracket::Conditional),
        b'{' => Code::Opens(Bracket::Iteration),
        b'}' => Code::Closes(Bracket::Iteration),
        b'^' => Code::Escape,
        _ => Code::Unknown,
    }
}

// The code that a byte stands for, letters in either case.
pub fn code_of(b: u8) -> Code
    ensures { result ≡ code_of b }
{
    code_named(lower_case(b))
}
