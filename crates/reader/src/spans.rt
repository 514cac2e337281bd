// Spans: bytes of one class that stand one after another. A directive may have thousands of zeros in a number, or be
// followed by as many blanks, and each pass of a loop reads them anew.
ghost use Rattle.std.specs.Prelude.{◌≡◌, ℕ, Bool, ◌+◌, ◌≤◌, length};
ghost use Rattle.reader.specs.Spans.{Decides, count_of, Strides};

// How many bytes a stride has.
pub const STRIDE: usize = 16;

// How many bytes of the stride at i are of the class. A sum has no branches, so the compiler looks at all the bytes at
// once; `filter` and `all` go byte by byte.
fn count_stride<F: Fn(u8) -> bool>(text: &[u8], i: usize, is_in: &F) -> usize
    requires within { i + 16 ≤ length text.now }
    requires callable { F.IsAlwaysCallable is_in.now }
    ensures { (f : ℕ → Bool) → Decides (F.post is_in.now) f → result ≡ count_of f text.now i 16 }
{
    let mut n = 0;
    for b in &text[i..i + STRIDE] {
        n += usize::from(is_in(*b));
    }
    n
}

// The position after the strides from start on that are of the class whole. Ask a byte or two first, since most spans are
// short: this stays a call, so that its caller is small enough to be put in place.
#[inline(never)]
pub fn after_strides<F: Fn(u8) -> bool>(text: &[u8], start: usize, is_in: F) -> usize
    requires within { start ≤ length text.now }
    requires callable { F.IsAlwaysCallable is_in }
    ensures { (f : ℕ → Bool) → Decides (F.post is_in) f → Strides f text.now start result }
{
    let mut i = start;
    // No `chunks_exact`: the position is the answer, and a `while` states it as it goes.
    while STRIDE <= text.len() - i {
        if count_stride(text, i, &is_in) != STRIDE {
            return i;
        }
        i += STRIDE;
    }
    i
}
