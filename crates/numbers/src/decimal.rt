// Digits in base ten, two pairs in a turn. How many digits a number has is what a processor guesses badly, so only the
// number of whole fours is asked by a branch, and the one to four digits before them are counted and written without.
ghost use Rattle.std.specs.Prelude.{◌≡◌, ◌++◌, ◌+◌, ◌-◌, ◌*◌, ◌/◌, ◌≤◌, ◌<◌, length, drop};
ghost use Rattle.rules.specs.Number.{digits_of};
ghost use Rattle.numbers.specs.Counts.{Counting};
ghost use Rattle.numbers.specs.Pairs.{pair_at};

// The count of a number that has `count` digits or up to three more. Each test is added as a number, without a branch.
fn count_last(n: u64, power: u64, count: usize) -> usize
    requires counting { Counting n power count }
    requires n_bound { n < power * 10000 }
    ensures { result ≡ length (digits_of 10 n) }
{
    count
        + usize::from(power * 10 <= n)
        + usize::from(power * 100 <= n)
        + usize::from(power * 1000 <= n)
}

// Short numbers, which most are, have a way of their own: there the powers are known before the call.
pub fn count_decimal(n: u64) -> usize
    ensures count { result ≡ length (digits_of 10 n) }
    ensures within { (1 ≤ result) × (result ≤ 20) }
{
    if n < 10000 {
        return count_last(n, 1, 1);
    }
    let mut power = 10000;
    let mut count = 5;
    // no `checked_ilog10`: the power itself is what the last digits are counted by
    while count < 17 && power * 10000 <= n {
        power *= 10000;
        count += 4;
    }
    count_last(n, power, count)
}

// The two quotients, each as a product and a shift: a division the compiler would put behind a branch.
fn tenth(x: u32) -> u32
    requires { x < 100 }
    ensures { result ≡ x / 10 }
{
    x * 103 / 1024
}

fn hundredth(x: u32) -> u32
    requires { x < 10000 }
    ensures { result ≡ x / 100 }
{
    x * 5243 / 524288
}

// The two digits of a pair, at i and i + 1. Both bytes are made as one number, 48 + tens + 256 * (48 + ones), and so
// go out by one store.
fn put_pair(pair: u32, i: usize, out: &mut [u8])
    requires pair_bound { pair < 100 }
    requires i_in_bounds { i + 1 < length out.old }
    ensures { out.new ≡ pair_at out.old i pair }
{
    let both = 12336 + 256 * pair - 2559 * tenth(pair);
    out[i + 1] = (both / 256) as u8;
    out[i] = (both % 256) as u8;
}

// The first digits, one to four, which end before `end`: four are written, from the right, and where there are fewer the
// first one again.
fn put_first(n: u32, end: usize, out: &mut [u8])
    requires n_bound { n < 10000 }
    requires n_len { length (digits_of 10 n) ≡ end }
    requires end_in_bounds { end ≤ length out.old }
    ensures { out.new ≡ digits_of 10 n ++ drop end out.old }
{
    let high = hundredth(n);
    let low = n - 100 * high;
    let thousands = tenth(high);
    let hundreds = high - 10 * thousands;
    let tens = tenth(low);
    let last = low - 10 * tens;
    let second = if 1 < end { tens } else { last };
    let third = if 2 < end { hundreds } else { second };
    let fourth = if 3 < end { thousands } else { third };
    out[end - 1] = b'0' + last as u8;
    out[end.saturating_sub(2)] = b'0' + second as u8;
    out[end.saturating_sub(3)] = b'0' + third as u8;
    out[0] = b'0' + fourth as u8;
}

// Fills out with the digits of n, from the right.
pub fn fill_decimal(n: u64, out: &mut [u8])
    requires { length out.old ≡ length (digits_of 10 n) }
    ensures { out.new ≡ digits_of 10 n }
{
    let mut end = out.len();
    let mut rest = n;
    // no `for`: the digits go out from the end, four in a turn, and what is left of the number moves with them
    while 4 < end {
        let four = (rest % 10000) as u32;
        put_pair(four % 100, end - 2, out);
        put_pair(four / 100, end - 4, out);
        rest /= 10000;
        end -= 4;
    }
    put_first(rest as u32, end, out);
}
