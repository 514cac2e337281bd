// The inner layers, exported so that tests and benchmarks can call them. No part of the product.
#![tactic(auto)]

ghost use Rattle.std.specs.Prelude.{◌≡◌, length};
ghost use Rattle.rules.specs.Table.{table_verdict};
ghost use Rattle.probe.specs.Probe.{code_of, position_of, count_written, buffer_after};

// The check of a table: code 0 or 1, and the position that goes with it.
#[unsafe(no_mangle)]
pub extern "C" fn probe_check_table(table: &[u8], position: &mut usize) -> u32
    ensures code { result ≡ code_of (table_verdict table.now) }
    ensures place { position.new ≡ position_of (table_verdict table.now) }
{
    let (code, place) = match table::check_table(table) {
        Ok(()) => (0, 0),
        Err(fault) => (fault.refusal.code(), fault.position),
    };
    *position = place;
    code
}

// The digits of n at the start of out, and how many they are; 0, and out as it was, where the base is not 2 to 36 or
// out is too short.
#[unsafe(no_mangle)]
pub extern "C" fn probe_digits(base: u64, n: u64, out: &mut [u8]) -> usize
    ensures count { result ≡ count_written base n (length out.old) }
    ensures bytes { out.new ≡ buffer_after base n out.old }
{
    if !(2..=36).contains(&base) {
        return 0;
    }
    let count = numbers::digit_count(base, n);
    if out.len() < count {
        return 0;
    }
    numbers::fill_digits(base, n, &mut out[..count]);
    count
}
