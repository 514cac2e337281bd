// Landmarks of a long text. A loop may run a block thousands of times, and each time the clause that it wants and its
// end would be looked for through all that lies before them. So where clauses stand that are far from the one before,
// and where long blocks end, is written down once. Landmarks are sound and no more: what has none is looked for in the
// text, so they cost or save time and decide nothing.
ghost use Rattle.std.specs.Prelude.{◌≡◌, List, ℕ, ◌≤◌, length, IfSome};
ghost use Rattle.blocks.specs.Landmarks.{Sound, Landmarks, end_of, Marks, Lays};

use reader::short::skip_short;
use rules::limits::LONGEST_FORMAT;
use syntax::ends::{ClauseEnd, Shape, next_clause, shape_at};

// How many landmarks there are room for: one for each FAR bytes of the longest text at each of eight levels.
pub const MOST_LANDMARKS: usize = 410;

// How far a clause, or the end of a block, stands from the landmark before it if it gets one of its own.
const FAR: usize = 80;

// How long a text is at most that is run without landmarks in any case.
const LONG: usize = 208;

// What an array holds before landmarks are laid: zeros, which are the quickest to fill it with. In any text they are sound,
// and of no block, since the inside of one has an opener before it.
pub const EMPTY: Landmark = Landmark {
    inside: 0,
    number: 0,
    place: 0,
    colon: false,
    after: 0,
};

// A clause, by the place of its block's inside, its number and its own place, whether a ~:; stands before it, and, if it
// is the last, the place after its block; else 0, since with an Option an array of them would take 820 bytes more of stack.
#[derive(Clone, Copy, Debug, PartialEq, Eq)]
pub struct Landmark {
    pub inside: u16,
    pub number: u16,
    pub place: u16,
    pub colon: bool,
    pub after: u16,
}

impl Landmark {
    // The place after its block, if it is the last clause.
    pub fn end(self) -> Option<usize>
        ensures { result ≡ end_of self }
    {
        if self.after == 0 {
            return None;
        }
        Some(usize::from(self.after))
    }

    // Whether it stands behind clause n of the block whose inside is at start, or in a later block. Place 0, where none has
    // its inside, counts as the last, so that EMPTY stands behind them all; an if would take longer.
    fn is_behind(self, start: usize, n: usize) -> bool {
        let inside = usize::from(self.inside.wrapping_sub(1)) + 1;
        (start, n) < (inside, usize::from(self.number))
    }
}

// The landmark nearest before clause n of the block whose inside is at start, or at that clause; or else, where no clause
// is counted, nearest before the end of the block.
pub fn nearest(marks: &[Landmark], start: usize, number: Option<usize>) -> Option<Landmark>
    ensures { (t : List ℕ) → Landmarks t marks.now → start ≤ length t → IfSome result (λ l. (l.inside ≡ start) × IfSome number (λ n. l.number ≤ n) × Sound t l) }
{
    let n = number.unwrap_or(usize::from(u16::MAX));
    let k = marks
        .partition_point(|l| !l.is_behind(start, n))
        .checked_sub(1)?;
    let l = marks[k];
    (usize::from(l.inside) == start && usize::from(l.number) <= n).then_some(l)
}

// Whether a clause at place is far enough from the landmark at from to get one of its own.
fn is_far(from: usize, place: usize) -> bool {
    FAR <= place.saturating_sub(from)
}

// Lays landmark k if place is far from the landmark before it, and there is room. Answers which one is to be laid next.
fn lay_far(marks: &mut [Landmark], k: usize, from: usize, place: usize, l: Landmark) -> usize
    ensures { Lays l marks.old marks.new }
{
    if !is_far(from, place) || marks.len() <= k {
        return k;
    }
    marks[k] = l;
    k + 1
}

// The landmarks of the block whose inside is at start, from landmark first on. Answers which one is to be laid next.
fn mark_block(text: &[u8], start: usize, marks: &mut [Landmark], first: usize) -> usize
    requires start_in_bounds { start ≤ length text.now }
    requires text_len_bound { length text.now ≤ 4096 }
    requires landmarks { Landmarks text.now marks.old }
    ensures { Marks text.now marks.old marks.new }
{
    let mut k = first;
    let mut from = start;
    let mut l = Landmark {
        inside: start as u16,
        place: start as u16,
        ..EMPTY
    };
    // no `for`: where the next clause begins shows only when this one is gone over
    loop {
        match next_clause(text, usize::from(l.place)) {
            ClauseEnd::Last { after, .. } => {
                let last = Landmark {
                    after: after as u16,
                    ..l
                };
                return lay_far(marks, k, from, after, last);
            }
            ClauseEnd::Another { colon, after, .. } => {
                l = Landmark {
                    inside: l.inside,
                    number: l.number + 1,
                    place: after as u16,
                    colon,
                    after: 0,
                };
                k = lay_far(marks, k, from, after, l);
                if is_far(from, after) {
                    from = after;
                }
            }
        }
    }
}

// Lays the landmarks of a text.
pub fn mark_text(text: &[u8], marks: &mut [Landmark])
    requires { Landmarks text.now marks.old }
    ensures { Marks text.now marks.old marks.new }
{
    if LONGEST_FORMAT < text.len() {
        return;
    }
    let mut p: usize = 0;
    let mut k: usize = 0;
    // no `for`: how long an item is shows only when it is read
    loop {
        p = skip_short(text, p);
        p = match shape_at(text, p) {
            Shape::Stops => return,
            Shape::Passes(q) | Shape::Finishes(q) | Shape::Splits { after: q, .. } => q,
            Shape::Begins(q) => {
                k = mark_block(text, q, marks, k);
                q
            }
        };
    }
}

// Whether landmarks may save more than they cost: in a long text with a brace, which a loop opens with. Without a loop a
// block is met once. What is answered decides nothing but the time of a call.
pub fn is_worth_landmarks(text: &[u8]) -> bool {
    LONG < text.len() && text.contains(&b'{')
}
