// A number with its sign, before padding.
ghost use Rattle.std.specs.Prelude.{◌≡◌, List, ℕ, ◌≤◌};
ghost use Rattle.rules.specs.Number.{sign_of};
ghost use Rattle.pieces.specs.Bytes.{signed, Makes};
ghost use Rattle.making.specs.Texts.{number_of};

use numbers::{is_negative, magnitude};
use pieces::{Body, Content, Figure};

// The sign that is written, as a byte; 0 is none.
fn sign_byte(plus: bool, x: i64) -> u8
    ensures { signed result ≡ sign_of plus x }
{
    if is_negative(x) {
        b'-'
    } else if plus && x != 0 {
        b'+'
    } else {
        0
    }
}

// A number, with + before a positive one or not, in groups of a width that is not 0.
pub fn figure_body(base: u64, plus: bool, width: usize, comma: u8, x: i64) -> Body
    requires le_base { (2 ≤ base) × (base ≤ 36) }
    requires width_bound { width ≤ 4096 }
    ensures { (t : List ℕ) → Makes t result (number_of base plus width comma x) }
{
    let figure = Figure {
        base,
        magnitude: magnitude(x),
        sign: sign_byte(plus, x),
        width,
        comma,
    };
    Body {
        size: figure.size(),
        word: [0; 12],
        content: Content::Figures(figure),
    }
}
