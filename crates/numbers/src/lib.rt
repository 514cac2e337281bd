// The text of an integer: its sign and magnitude, its digits in a base, and digits in groups.
#![tactic(auto)]

pub mod bases; // digits in any base
pub mod decimal; // digits in base ten

ghost use Rattle.std.specs.Prelude.{◌≡◌, List, ℕ, ◌*◌, ◌≤◌, ◌<◌, length};
ghost use Rattle.rules.specs.Number.{digits_of, is_negative, magnitude_of, splits, grouped};

pub use bases::digit_byte;
use bases::{count_by_bits, count_in, fill_in};
pub use decimal::{count_decimal, fill_decimal};

pub fn is_negative(x: i64) -> bool
    ensures { result ≡ is_negative x }
{
    x < 0
}

// The least integer has no negation in 64 bits, and its magnitude fits.
pub fn magnitude(x: i64) -> u64
    ensures { result ≡ magnitude_of x }
{
    x.unsigned_abs()
}

// How many digits n has. Each of the usual bases stands as a number of its own, so that the compiler knows it.
pub fn digit_count(base: u64, n: u64) -> usize
    requires { (2 ≤ base) × (base ≤ 36) }
    ensures count { result ≡ length (digits_of base n) }
    ensures within { (1 ≤ result) × (result ≤ 64) }
{
    match base {
        10 => count_decimal(n),
        16 => count_by_bits(4, n),
        8 => count_by_bits(3, n),
        2 => count_by_bits(1, n),
        _ => count_in(base, n),
    }
}

// Fills out with the digits of n.
pub fn fill_digits(base: u64, n: u64, out: &mut [u8])
    requires le_base { (2 ≤ base) × (base ≤ 36) }
    requires out_len { length out.old ≡ length (digits_of base n) }
    ensures { out.new ≡ digits_of base n }
{
    match base {
        10 => fill_decimal(n, out),
        16 => fill_in(16, n, out),
        8 => fill_in(8, n, out),
        2 => fill_in(2, n, out),
        _ => fill_in(base, n, out),
    }
}

// How long the text of so many digits in groups is.
pub fn grouped_size(count: usize, width: usize) -> usize
    requires le_count { (1 ≤ count) × (count ≤ 64) }
    requires le_width { (1 ≤ width) × (width ≤ 4096) }
    ensures size { (c : ℕ) (ds : List ℕ) → length ds ≡ count → result ≡ length (grouped width c ds) }
    ensures within { (count ≤ result) × (result < 2 * count) }
{
    count + (count - 1) / width
}

// Whether a separator stands before the last `left` digits.
fn is_split(width: usize, left: usize) -> bool
    requires { 0 < width }
    ensures { result ≡ splits width left }
{
    left != 0 && left % width == 0
}

// Fills out with the digits in groups, parted by the byte comma.
pub fn write_grouped(digits: &[u8], width: usize, comma: u8, out: &mut [u8])
    requires width_nonzero { 0 < width }
    requires out_len { length out.old ≡ length (grouped width comma digits.now) }
    ensures { out.new ≡ grouped width comma digits.now }
{
    let mut to = 0;
    for (i, digit) in digits.iter().enumerate() {
        out[to] = *digit;
        to += 1;
        let left = digits.len() - (i + 1);
        if is_split(width, left) {
            out[to] = comma;
            to += 1;
        }
    }
}
