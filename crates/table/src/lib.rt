// The argument table: its check, and the reading of its entries.
#![tactic(auto)]

ghost use Rattle.std.specs.Prelude.{◌≡◌, ◌+◌, ◌-◌, ◌*◌, ◌≤◌, ◌<◌, length, take, drop};
ghost use Rattle.rules.specs.Table.{be16_at, be32_at, entry_count, argument_count, pool_length, entry_place, entry_at, right_for, is_right, first_bad, table_verdict, signed_of, Holds};
ghost use Rattle.rules.specs.Refusals.{code_of};
ghost use Rattle.rules.specs.Verdict.{Accepted, Refused, verdict_as};

use rules::limits::{MOST_ENTRIES, MOST_POOL};
use rules::refusal::{Fault, Refusal};
use rules::{Argument, ArgumentPosition, EntryIndex};

// How many bytes the header takes.
const HEADER: usize = 8;

// How many bytes an entry takes.
const ENTRY: usize = 12;

fn be16(t: &[u8], at: usize) -> u16
    requires { at + 2 ≤ length t.now }
    ensures { result ≡ be16_at t.now at }
{
    u16::from_be_bytes([t[at], t[at + 1]])
}

fn be32(t: &[u8], at: usize) -> u32
    requires { at + 4 ≤ length t.now }
    ensures { result ≡ be32_at t.now at }
{
    u32::from_be_bytes([t[at], t[at + 1], t[at + 2], t[at + 3]])
}

// The number of entries, n.
pub fn entry_count(table: &[u8]) -> usize
    requires { 8 ≤ length table.now }
    ensures { (result ≡ entry_count table.now) × (result < 65536) }
{
    usize::from(be16(table, 0))
}

// The number of arguments, m.
pub fn argument_count(table: &[u8]) -> usize
    requires { 8 ≤ length table.now }
    ensures { (result ≡ argument_count table.now) × (result < 65536) }
{
    usize::from(be16(table, 2))
}

// The length of the pool.
fn pool_length(table: &[u8]) -> usize
    requires { 8 ≤ length table.now }
    ensures { (result ≡ pool_length table.now) × (result < 4294967296) }
{
    be32(table, 4) as usize
}

// The one place where an argument position becomes an entry number.
pub fn entry_of(first: EntryIndex, position: ArgumentPosition) -> EntryIndex
    requires { first.0 + position.0 < 1025 }
    ensures { result.0 ≡ first.0 + position.0 }
{
    EntryIndex(first.0 + position.0)
}

// An entry as it stands: its tag, the three bytes after it as one number, and eight bytes as two halves.
#[derive(Clone, Copy)]
struct Entry {
    tag: u8,
    zeros: u32,
    high: u32,
    low: u32,
}

#[tactic(auto, unfolding(rules::specs::Table::entry_at))]
fn entry_at(table: &[u8], i: usize) -> Entry
    requires i_bound { i < 1024 }
    requires i_in_bounds { entry_place (i + 1) ≤ length table.now }
    ensures tag { result.tag ≡ (entry_at table.now i).tag }
    ensures zeros { result.zeros ≡ (entry_at table.now i).zeros }
    ensures high { result.high ≡ (entry_at table.now i).high }
    ensures low { result.low ≡ (entry_at table.now i).low }
{
    let at = HEADER + ENTRY * i;
    Entry {
        tag: table[at],
        // a sum, where from_be_bytes would read two of them at once: an entry would take half as long again (measured)
        zeros: u32::from(table[at + 1]) * 65536
            + u32::from(table[at + 2]) * 256
            + u32::from(table[at + 3]),
        high: be32(table, at + 4),
        low: be32(table, at + 8),
    }
}

// Whether the eight bytes are right for the tag of entry i of n, over a pool of so many bytes.
#[tactic(auto, unfolding(rules::specs::Table::right_for))]
fn right_for(entry: Entry, n: usize, pool: usize, i: usize) -> bool
    ensures { result ≡ right_for entry.tag n pool i entry.high entry.low }
{
    let high = entry.high as usize;
    let low = entry.low as usize;
    // by the tags of the table that C hands over
    match entry.tag {
        0 => high == 0 && low <= 1,
        1 => true,
        2 => high == 0 && low <= 127,
        3 => high + low <= pool,
        4 => i < high && high + low <= n,
        _ => false,
    }
}

// Whether entry i of n, over a pool of so many bytes, is right.
fn entry_right(table: &[u8], n: usize, pool: usize, i: usize) -> bool
    requires i_bound { i < 1024 }
    requires i_in_bounds { entry_place (i + 1) ≤ length table.now }
    ensures { result ≡ is_right n pool i (entry_at table.now i) }
{
    let entry = entry_at(table, i);
    entry.zeros == 0 && right_for(entry, n, pool, i)
}

// A bad table is one refusal, whatever is wrong with it.
fn bad_table(position: usize) -> Fault
    ensures { Refused (code_of result.refusal) result.position ≡ Refused 1 position }
{
    Fault {
        refusal: Refusal::BadTable,
        position,
    }
}

// The first bad entry, in one pass.
fn check_entries(table: &[u8], n: usize, pool: usize) -> Result<(), Fault>
    requires n_bound { n ≤ 1024 }
    requires n_in_bounds { entry_place n ≤ length table.now }
    ensures { verdict_as result ≡ first_bad table.now n pool n 0 }
{
    for i in 0..n {
        if !entry_right(table, n, pool, i) {
            return Err(bad_table(HEADER + ENTRY * i));
        }
    }
    Ok(())
}

// Checks any bytes: nothing is asked of them.
pub fn check_table(table: &[u8]) -> Result<(), Fault>
    ensures { verdict_as result ≡ table_verdict table.now }
{
    if table.len() < HEADER {
        return Err(bad_table(0));
    }
    let n = entry_count(table);
    if MOST_ENTRIES < n {
        return Err(bad_table(0));
    }
    if n < argument_count(table) {
        return Err(bad_table(2));
    }
    let pool = pool_length(table);
    if MOST_POOL < pool || table.len() != HEADER + ENTRY * n + pool {
        return Err(bad_table(4));
    }
    check_entries(table, n, pool)
}

// 64 bits, given as two halves, as a signed number.
fn signed(high: u32, low: u32) -> i64
    ensures { result ≡ signed_of (high * 4294967296 + low) }
{
    (u64::from(high) * 4294967296 + u64::from(low)).cast_signed()
}

// What an entry of an accepted table holds. A string is given by its place in the table.
pub fn read_argument(table: &[u8], entry: EntryIndex) -> Argument
    requires table_value { table_verdict table.now ≡ Accepted }
    requires bound { entry.0 < entry_count table.now }
    ensures { Holds table.now entry.0 result }
{
    let Entry { tag, high, low, .. } = entry_at(table, entry.0);
    match tag {
        0 => Argument::Boolean(low == 1),
        1 => Argument::Integer(signed(high, low)),
        2 => Argument::Character(low as u8),
        3 => {
            // the pool begins where entry n would
            let start = HEADER + ENTRY * entry_count(table) + high as usize;
            Argument::Text {
                start,
                end: start + low as usize,
            }
        }
        _ => Argument::Entries {
            first: EntryIndex(high as usize),
            count: low as usize,
        },
    }
}

// The part of the lent table from start to end: no byte is copied.
pub fn string_part(table: &[u8], start: usize, end: usize) -> &[u8]
    requires { (start ≤ end) × (end ≤ length table.now) }
    ensures { result.now ≡ take (end - start) (drop start table.now) }
{
    &table[start..end]
}
