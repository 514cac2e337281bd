// Digits in any base, one at a time; where a digit has a whole number of bits their count is read off the top set bit.
ghost use Rattle.std.specs.Prelude.{◌≡◌, ◌≤◌, ◌<◌, ◌^◌, length};
ghost use Rattle.rules.specs.Number.{digit_byte, digits_of};
ghost use Rattle.numbers.specs.Counts.{top_count};

// The byte of a digit.
pub fn digit_byte(digit: u8) -> u8
    requires { digit < 36 }
    ensures { result ≡ digit_byte digit }
{
    match digit {
        0..=9 => b'0' + digit,
        _ => b'a' - 10 + digit,
    }
}

// How many digits n has.
pub fn count_in(base: u64, n: u64) -> usize
    requires { (2 ≤ base) × (base ≤ 36) }
    ensures { result ≡ length (digits_of base n) }
{
    match n.checked_ilog(base) {
        Some(power) => power as usize + 1,
        None => 1,
    }
}

// How many digits of so many bits n has. Zero has no set bit, and one digit.
pub fn count_by_bits(bits: u32, n: u64) -> usize
    requires { (1 ≤ bits) × (bits ≤ 5) }
    ensures read { result ≡ top_count bits n }
    ensures count { result ≡ length (digits_of (2 ^ bits) n) }
{
    if n == 0 {
        return 1;
    }
    let top = 63 - n.leading_zeros();
    (top / bits) as usize + 1
}

// Fills out with the digits of n, from the right.
#[tactic(auto, using(crate::proofs::Filling::turn_more))]
pub fn fill_in(base: u64, n: u64, out: &mut [u8])
    requires le_base { (2 ≤ base) × (base ≤ 36) }
    requires out_len { length out.old ≡ length (digits_of base n) }
    ensures { out.new ≡ digits_of base n }
{
    let mut rest = n;
    for i in (0..out.len()).rev() {
        out[i] = digit_byte((rest % base) as u8);
        rest /= base;
    }
}
