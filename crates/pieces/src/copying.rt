// Fills and copies: they write most of the bytes.
ghost use Rattle.std.specs.Prelude.{◌≡◌, ◌-◌, ◌≤◌, length, replicate};
ghost use Rattle.pieces.specs.Bytes.{part};

pub fn fill(byte: u8, out: &mut [u8])
    ensures { out.new ≡ replicate (length out.old) byte }
{
    out.fill(byte);
}

// Fills out with the bytes of src from `from` on. No `copy_from_slice`: it calls `memmove`, which the archives for C would
// ask for.
pub fn copy_part(src: &[u8], from: usize, out: &mut [u8])
    requires { length out.old ≤ length src.now - from }
    ensures { out.new ≡ part from (length out.old) src.now }
{
    for i in 0..out.len() {
        out[i] = src[from + i];
    }
}
