// The open blocks, the outermost first.
ghost use Rattle.std.specs.Prelude.{◌≡◌, ◌<◌, set};
ghost use Rattle.nesting.specs.Nest.{kind_by, number_of_kind, block_at, with_passes, cut, passes_of, Fits, FitsPasses, Pushes};

use parameters::Hand;
use rules::{ArgumentPosition, EntryIndex, Setting};

// What a block is: a conditional, an iteration over a list, or one over the arguments in hand.
#[derive(Clone, Copy, Debug, PartialEq, Eq)]
pub enum Kind {
    Conditional,
    OverList,
    OverArguments,
}

// What stands for the passes left where they are not limited: the state that C keeps has a number for them.
const UNLIMITED: u16 = 65535;

// An open block: what it is, the place of its opener and that of its inside, the passes left, and the arguments in hand
// outside it.
#[derive(Clone, Copy)]
pub struct Block {
    pub kind: Kind,
    pub place: usize,
    pub inside: usize,
    pub passes: Setting,
    pub hand: Hand,
    pub next: ArgumentPosition,
}

// The open blocks: the first `depth` of each array. Sixteen bits hold every place of a text, entry and limit of 01. It is
// a part of `tilde_state` in include/tilde.h, so it stays arrays of numbers side by side.
#[repr(C)]
#[derive(Clone, Copy)]
pub struct Nest {
    pub depth: usize,
    pub kinds: [u16; 8],
    pub places: [u16; 8],
    pub insides: [u16; 8],
    pub passes: [u16; 8],
    pub starts: [u16; 8],
    pub counts: [u16; 8],
    pub positions: [u16; 8],
}

impl Kind {
    // A state may have any number, so each has a meaning.
    fn by(n: u16) -> Kind
        ensures { result ≡ kind_by n }
    {
        match n {
            0 => Kind::Conditional,
            1 => Kind::OverList,
            _ => Kind::OverArguments,
        }
    }

    fn number(self) -> u16
        ensures { result ≡ number_of_kind self }
    {
        self as u16
    }
}

fn passes_of(n: u16) -> Setting
    ensures is { result ≡ passes_of n }
    ensures fits { FitsPasses result }
{
    if n == UNLIMITED {
        None
    } else {
        Some(usize::from(n))
    }
}

fn number_of(passes: Setting) -> u16
    requires { FitsPasses passes }
    ensures { passes_of result ≡ passes }
{
    match passes {
        None => UNLIMITED,
        Some(n) => n as u16,
    }
}

impl Nest {
    // No block is open.
    pub const EMPTY: Nest = Nest {
        depth: 0,
        kinds: [0; 8],
        places: [0; 8],
        insides: [0; 8],
        passes: [0; 8],
        starts: [0; 8],
        counts: [0; 8],
        positions: [0; 8],
    };

    // Block i of the open ones.
    pub fn block_at(self, i: usize) -> Block
        requires { i < 8 }
        ensures is { result ≡ block_at self i }
        ensures fits { Fits result }
    {
        Block {
            kind: Kind::by(self.kinds[i]),
            place: usize::from(self.places[i]),
            inside: usize::from(self.insides[i]),
            passes: passes_of(self.passes[i]),
            hand: Hand {
                first: EntryIndex(usize::from(self.starts[i])),
                count: usize::from(self.counts[i]),
            },
            next: ArgumentPosition(usize::from(self.positions[i])),
        }
    }

    // One block more, inside the open ones.
    pub fn pushed(mut self, block: Block) -> Nest
        requires depth_bound { self.depth < 8 }
        requires fits { Fits block }
        ensures pushes { Pushes self block result }
        ensures kinds { result.kinds ≡ set self.kinds self.depth (number_of_kind block.kind) }
    {
        let i = self.depth;
        self.kinds[i] = block.kind.number();
        self.places[i] = block.place as u16;
        self.insides[i] = block.inside as u16;
        self.passes[i] = number_of(block.passes);
        self.starts[i] = block.hand.first.0 as u16;
        self.counts[i] = block.hand.count as u16;
        self.positions[i] = block.next.0 as u16;
        self.depth = i + 1;
        self
    }

    // The block behind the open ones is open again, with so many passes left. Its other numbers stay, the kind's too, for
    // which a caller's state may have any.
    pub fn reopened(mut self, passes: Setting) -> Nest
        requires depth_bound { self.depth < 8 }
        requires fits { FitsPasses passes }
        ensures pushes { Pushes self (with_passes (block_at self self.depth) passes) result }
        ensures kinds { result.kinds ≡ self.kinds }
    {
        let i = self.depth;
        self.passes[i] = number_of(passes);
        self.depth = i + 1;
        self
    }

    // The outermost blocks, so many of them.
    pub fn cut(self, depth: usize) -> Nest
        ensures { result ≡ cut self depth }
    {
        Nest { depth, ..self }
    }
}
