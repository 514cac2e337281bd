// The greatest length of one piece, without a loop over lengths.
ghost use Rattle.std.specs.Prelude.{◌≡◌, Bool, ◌≤◌, length};
ghost use Rattle.rules.specs.Piece.{or_else, name_of, glyph_of};
ghost use Rattle.rules.specs.Rows.{form_places};
ghost use Rattle.rules.specs.Working.{InPlaces, WellSet};
ghost use Rattle.rules.specs.declared.Form.TheVariants.{Object, Numeral};
ghost use Rattle.vet_rules.specs.Worst.{round_up, top_of, greatest as greatest_of, greatest_over, spans_of, worst};
ghost use Rattle.vet_turns.specs.Kinds.{tag_of_kind};
ghost use Rattle.vet_turns.specs.Parts.{Sizing, numeral_most};

use crate::question::Kind;
use numbers::digit_count;
use rules::{Form, Settings};

// The magnitude of the least integer.
const LEAST_MAGNITUDE: u64 = 9223372036854775808;

// What pads ~a and ~s, each number in its range.
#[derive(Clone, Copy)]
struct Padding {
    minwidth: usize,
    padinc: usize,
    minpad: usize,
    ghost sizing: { Sizing minwidth padinc minpad },
}

impl Padding {
    fn of(settings: Settings) -> Padding
        requires { (quoted : Bool) → InPlaces (form_places (Object quoted)) settings }
        ensures { (result.minwidth ≡ or_else settings.first 0) × (result.padinc ≡ or_else settings.second 1) × (result.minpad ≡ or_else settings.third 0) }
    {
        Padding {
            minwidth: settings.first.unwrap_or(0),
            padinc: settings.second.unwrap_or(1),
            minpad: settings.third.unwrap_or(0),
        }
    }

    // The least multiple of padinc that is x or more.
    #[tactic(auto, using(vet_rules::proofs::Padding::next_is, vet_rules::proofs::Padding::up_near))]
    fn round_up(&self, x: usize) -> usize
        requires { x ≤ 4096 }
        ensures is { result ≡ round_up self.now.padinc x }
        ensures within { result ≤ 8192 }
    {
        x.next_multiple_of(self.padinc)
    }

    // The most that padding brings a text to, where one of least to most bytes comes to it.
    #[tactic(auto, unfolding(vet_rules::specs::Worst::top_of))]
    fn top(&self, least: usize, most: usize) -> usize
        requires { (least ≤ 8194) × (most ≤ 8194) }
        ensures { result ≡ top_of self.now.minwidth self.now.padinc self.now.minpad least most }
    {
        let short = self
            .minwidth
            .saturating_sub(1)
            .saturating_sub(most + self.minpad);
        if self.round_up(short) < self.minwidth.saturating_sub(least + self.minpad) {
            self.minwidth + self.padinc - 1
        } else {
            0
        }
    }

    // The greatest padded length of the texts of least to most bytes.
    #[tactic(auto, using(vet_rules::proofs::Padding::larger_max), unfolding(vet_rules::specs::Worst::greatest))]
    fn greatest(&self, least: usize, most: usize) -> usize
        requires { (least ≤ 8194) × (most ≤ 8194) }
        ensures { result ≡ greatest_of self.now.minwidth self.now.padinc self.now.minpad least most }
    {
        let short = self.minwidth.saturating_sub(most + self.minpad);
        let longest = most + (self.minpad + self.round_up(short));
        longest.max(self.top(least, most))
    }

    // ~a, and ~s with true, of a value of a kind.
    #[tactic(auto, using(vet_rules::proofs::Padding::larger_max, vet_rules::proofs::WorstLaws::larger_zero), unfolding(vet_rules::specs::Worst::spans_of))]
    fn worst(&self, quoted: bool, kind: Kind, longest: usize) -> usize
        requires { longest ≤ 4096 }
        ensures { result ≡ greatest_over self.now.minwidth self.now.padinc self.now.minpad (spans_of longest quoted (tag_of_kind kind)) }
    {
        match (kind, quoted) {
            (Kind::Boolean, _) => self.greatest(2, 2),
            (Kind::Integer, _) => self.greatest(1, 20),
            (Kind::Character, false) => self.greatest(1, 1),
            // no name has eight bytes
            (Kind::Character, true) => self.greatest(3, 9).max(self.greatest(11, 11)),
            (Kind::Text, false) => self.greatest(0, longest),
            (Kind::Text, true) => self.greatest(2, 2 * longest + 2),
            (Kind::Entries, _) => 0,
        }
    }
}

// ~d ~x ~o ~b: the least integer, in groups with `:`.
#[tactic(auto, using(vet_rules::proofs::Padding::larger_max))]
pub fn worst_numeral(base: u64, colon: bool, width: usize, group: usize) -> usize
    requires le_base { (2 ≤ base) × (base ≤ 36) }
    requires le_group { 1 ≤ group }
    ensures { result ≡ numeral_most base colon width group }
{
    let digits = digit_count(base, LEAST_MAGNITUDE);
    let grouped = if colon {
        digits + (digits - 1) / group
    } else {
        digits
    };
    width.max(grouped + 1)
}

// The greatest length of the piece of a form, over the values of a kind.
#[tactic(auto, using(crate::proofs::WorstBy::default_is, crate::proofs::WorstBy::numeral_worst), unfolding(vet_rules::specs::Worst::worst))]
pub fn worst_of(
    form: Form,
    colon: bool,
    atsign: bool,
    settings: Settings,
    kind: Kind,
    longest: usize,
) -> usize
    requires well_set { WellSet form settings }
    requires longest_bound { longest ≤ 4096 }
    ensures { result ≡ worst longest form colon atsign settings (tag_of_kind kind) }
{
    match form {
        Form::Object(quoted) => Padding::of(settings).worst(quoted, kind, longest),
        Form::Numeral(base) => worst_numeral(
            base,
            colon,
            settings.first.unwrap_or(0),
            settings.fourth.unwrap_or(3),
        ),
        Form::Glyph if atsign => 11,
        Form::Glyph => if colon { 2 } else { 1 },
        Form::Plural => if atsign { 3 } else { 1 },
        Form::Repeat(_) => settings.first.unwrap_or(1),
        Form::Fold => usize::from(atsign),
    }
}

// A character's name.
#[tactic(auto, using(crate::proofs::Names::one_digit, crate::proofs::Names::two_digits), unfolding(rules::specs::Piece::name_of))]
fn name_size(code: usize) -> usize
    ensures is { result ≡ length (name_of code) }
    ensures within { result ≤ 9 }
{
    match code {
        9 => 3,
        0 => 4,
        7 | 32 => 5,
        13 | 27 | 127 => 6,
        10 => 7,
        8 => 9,
        // `x` and one or two hexadecimal digits
        1..=15 => 2,
        16..=31 => 3,
        _ => 1,
    }
}

// ~c of a character that is given.
pub fn glyph_size(colon: bool, atsign: bool, code: usize) -> usize
    ensures { result ≡ length (glyph_of colon atsign code) }
{
    if atsign {
        name_size(code) + 2
    } else if colon && code < 32 {
        2
    } else {
        1
    }
}
