// Where a line stands between two windows.
ghost use Rattle.std.specs.Prelude.{◌≡◌, ◌≤◌, length};
ghost use Rattle.nesting.specs.Nest.{hand_lies, block_lies, all_lie};
ghost use Rattle.windows.specs.States.{here_of, rest_lies, is_sound};

use nesting::moves::Here;
use nesting::nests::{Block, Nest};
use parameters::Hand;
use pieces::resuming::QuoteRest;
use rules::limits::{DEEPEST, LONGEST_FORMAT, MOST_STEPS};
use rules::{ArgumentPosition, EntryIndex};
use table::entry_count;

// No piece has more padding on one side.
const MOST_PADDING: usize = 65536;

// All numbers 0 is a fresh state. What the numbers of any state mean is `remains` in specs/States.
#[repr(C)]
#[derive(Clone, Copy)]
pub struct State {
    // 0 fresh, 1 begun, any other ended
    pub stage: usize,
    // the answer, once the end is answered
    pub code: u32,
    pub position: usize,
    pub steps: usize,
    // the steps that are left, and the place of the text where it goes on
    pub left: usize,
    pub place: usize,
    // the bytes of what comes from there that are given already
    pub given: usize,
    // the arguments in hand: the entry of the first, how many there are, and the next
    pub first: usize,
    pub count: usize,
    pub next: usize,
    // the open blocks
    pub nest: Nest,
    // what is left of a string in quotes, which comes before all else
    pub rest: QuoteRest,
}

// The answer of a call: 01's code, or MORE, and with it the position, the steps done and the bytes written.
#[repr(C)]
#[derive(Clone, Copy)]
pub struct Resumed {
    pub code: u32,
    pub position: usize,
    pub steps: usize,
    pub written: usize,
    pub state: State,
}

// Where the run goes on.
pub fn here_of(s: State) -> Here
    ensures { result ≡ here_of s }
{
    Here {
        place: s.place,
        left: s.left,
        hand: Hand {
            first: EntryIndex(s.first),
            count: s.count,
        },
        next: ArgumentPosition(s.next),
    }
}

// Whether arguments are entries of the table, and the next is one of them or their end. The numbers of a state may be
// any, so no sum is made of them.
fn hand_lies(table: &[u8], hand: Hand, next: ArgumentPosition) -> bool
    requires { 8 ≤ length table.now }
    ensures { result ≡ hand_lies table.now hand next.0 }
{
    let n = entry_count(table);
    hand.first.0 <= n && hand.count <= n - hand.first.0 && next.0 <= hand.count
}

// Whether the numbers of an open block are in range, in a text of so many bytes.
fn block_lies(size: usize, table: &[u8], block: Block) -> bool
    requires { 8 ≤ length table.now }
    ensures { result ≡ block_lies size table.now block }
{
    block.inside <= size && hand_lies(table, block.hand, block.next)
}

// Whether those of all the open blocks are.
fn all_lie(size: usize, table: &[u8], nest: Nest) -> bool
    requires in_bounds { 8 ≤ length table.now }
    requires depth_bound { nest.depth ≤ 8 }
    ensures { result ≡ all_lie size table.now nest nest.depth }
{
    for i in (0..nest.depth).rev() {
        if !block_lies(size, table, nest.block_at(i)) {
            return false;
        }
    }
    true
}

// Whether what is left of a string lies in the table, with padding as a piece may have.
fn rest_lies(table: &[u8], rest: QuoteRest) -> bool
    ensures { result ≡ rest_lies table.now rest }
{
    rest.start <= rest.end
        && rest.end <= table.len()
        && rest.before <= MOST_PADDING
        && rest.behind <= MOST_PADDING
}

// Whether all numbers of a state that is begun are in range.
pub fn is_sound(format: &[u8], table: &[u8], s: State) -> bool
    requires { 8 ≤ length table.now }
    ensures { result ≡ is_sound format.now table.now s }
{
    let here = here_of(s);
    format.len() <= LONGEST_FORMAT
        && s.nest.depth <= DEEPEST
        && s.left <= MOST_STEPS
        && s.place <= format.len()
        && hand_lies(table, here.hand, here.next)
        && all_lie(format.len(), table, s.nest)
        && rest_lies(table, s.rest)
}
