// Worked-out parameters, and the padding that they ask for.
ghost use Rattle.std.specs.Prelude.{List, ◌≡◌, ℕ, ◌+◌, ◌-◌, ◌≤◌};
ghost use Rattle.rules.specs.declared.Place.TheVariants.{Character as CharacterPlace};
ghost use Rattle.rules.specs.Piece.{or_else, padding_of, around as around_of};
ghost use Rattle.rules.specs.Rows.{padding_places};
ghost use Rattle.pieces.specs.Bytes.{beside, Makes, Gives};
ghost use Rattle.rules.specs.Working.{InPlace, InPlaces};

use pieces::{Body, Piece};
use rules::{Setting, Settings};

pub fn byte_or(setting: Setting, default: u8) -> u8
    requires { InPlace CharacterPlace setting }
    ensures { result ≡ or_else setting default }
{
    setting.map_or(default, |n| n as u8)
}

// The padding of ~a and ~s: minpad, and the least multiple of padinc that brings the total to minwidth. A text that is
// wide enough, as most are, divides nothing.
fn padding(minwidth: usize, padinc: usize, minpad: usize, size: usize) -> usize
    requires minwidth_bound { (minwidth ≤ 4096) × (minpad ≤ 4096) }
    requires le_padinc { (1 ≤ padinc) × (padinc ≤ 4096) }
    requires size_bound { size ≤ 131074 }
    ensures padding { result ≡ padding_of minwidth padinc minpad size }
    ensures within { result ≤ 16384 }
{
    let least = size + minpad;
    if minwidth <= least {
        return minpad;
    }
    let shortfall = minwidth - least;
    let times = (shortfall + (padinc - 1)) / padinc;
    minpad + times * padinc
}

// A text with no padding.
pub fn bare_piece(body: Body) -> Piece
    ensures gives { (t text : List ℕ) → Makes t body text → Gives t result text }
    ensures same_body { result.body ≡ body }
{
    padded_piece(body, 0, 0, b' ')
}

// A text with padding on its two sides.
pub fn padded_piece(body: Body, before: usize, behind: usize, pad: u8) -> Piece
    requires { before + behind ≤ 16384 }
    ensures gives { (t text : List ℕ) → Makes t body text → Gives t result (beside before behind pad text) }
    ensures same_body { result.body ≡ body }
{
    Piece {
        before,
        behind,
        pad,
        body,
    }
}

// A text padded by minwidth, padinc, minpad and padchar.
pub fn around(atsign: bool, settings: Settings, body: Body) -> Piece
    requires in_places { InPlaces padding_places settings }
    requires size_bound { body.size ≤ 131074 }
    ensures gives { (t text : List ℕ) → Makes t body text → Gives t result (around_of atsign settings text) }
    ensures same_body { result.body ≡ body }
{
    let minwidth = settings.first.unwrap_or(0);
    let padinc = settings.second.unwrap_or(1);
    let minpad = settings.third.unwrap_or(0);
    let pad = byte_or(settings.fourth, b' ');
    let count = padding(minwidth, padinc, minpad, body.size);
    if atsign {
        padded_piece(body, count, 0, pad)
    } else {
        padded_piece(body, 0, count, pad)
    }
}

#[cfg(test)]
mod tests {
    use super::*;
    use pieces::{Content, Figure};

    // A body keeps its number and its size, even one that says the wrong size of itself.
    #[test]
    fn padding_keeps_the_body(rt: HostRuntime) {
        let body = Body {
            size: 9,
            word: *b"abcdefghijkl",
            content: Content::Figures(Figure {
                base: 16,
                magnitude: 255,
                sign: b'-',
                width: 2,
                comma: b'.',
            }),
        };
        let settings = Settings {
            first: Some(20),
            second: None,
            third: None,
            fourth: None,
            fifth: None,
        };
        for (piece, before, behind) in [
            (bare_piece(body), 0, 0),
            (padded_piece(body, 3, 4, b'*'), 3, 4),
            (around(true, settings, body), 11, 0),
            (around(false, settings, body), 0, 11),
        ] {
            assert_eq!(rt; (piece.before, piece.behind), (before, behind));
            assert_eq!(rt; piece.body.size, 9);
            assert_eq!(rt; piece.body.word, *b"abcdefghijkl");
            assert!(rt;
                matches!(
                    piece.body.content,
                    Content::Figures(Figure {
                        base: 16,
                        magnitude: 255,
                        sign: b'-',
                        width: 2,
                        comma: b'.',
                    })
                )
            );
        }
    }
}
