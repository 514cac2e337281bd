// Where a window falls in a text of three segments.
ghost use Rattle.std.specs.Prelude.{◌≡◌, ◌+◌, ◌-◌, ◌<◌, min};
ghost use Rattle.pieces.specs.Bytes.{Window};

// How many of the n places from `from` on lie in the first len.
pub fn reach(len: usize, from: usize, n: usize) -> usize
    ensures { result ≡ min n (len - from) }
{
    n.min(len.saturating_sub(from))
}

// The places of a window below a fall in the first segment, those below b in the second, from its place start on.
#[derive(Clone, Copy)]
pub struct Cuts {
    pub a: usize,
    pub b: usize,
    pub start: usize,
}

// Where a window of n places from `from` on falls in x places, y places and the rest.
pub fn cut(x: usize, y: usize, from: usize, n: usize) -> Cuts
    requires { x + y < 4294967296 }
    ensures { Window x y from n result.a result.b result.start }
{
    Cuts {
        a: reach(x, from, n),
        b: reach(x + y, from, n),
        start: from.saturating_sub(x),
    }
}
