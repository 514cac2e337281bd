// The parameters of a directive, worked out left to right in its places.
ghost use Rattle.std.specs.Prelude.{◌≡◌, true, ◌≤◌};
ghost use Rattle.rules.specs.Directive.{no_parameters};
ghost use Rattle.parameters.specs.Settling.{AllSupplied, all_written, Settles, SettlesDirective, SettlesWritten};

use crate::arguments::Hand;
use crate::places::{is_written, work_out, written};
use directives::places::is_bare;
use directives::rows::row_in;
use rules::refusal::Refusal;
use rules::{ArgumentPosition, Directive, Parameters, Places, Setting, Settings};

// The parameters of a directive, worked out, with the next argument after them.
#[derive(Clone, Copy, Debug, PartialEq, Eq)]
pub struct SettledOut {
    pub settings: Settings,
    pub next: ArgumentPosition,
}

const NO_SETTINGS: Settings = Settings {
    first: None,
    second: None,
    third: None,
    fourth: None,
    fifth: None,
};

// Whether all parameters are written out, as they nearly always are.
fn all_written(ps: Parameters) -> bool
    ensures { result ≡ all_written ps }
{
    is_written(ps.first)
        && is_written(ps.second)
        && is_written(ps.third)
        && is_written(ps.fourth)
        && is_written(ps.fifth)
}

// Parameters that are all written out, whatever their places.
fn settle_written(ps: Parameters, next: ArgumentPosition) -> Result<SettledOut, Refusal>
    requires { all_written ps ≡ true }
    ensures { SettlesWritten ps next result }
{
    Ok(SettledOut {
        settings: Settings {
            first: written(ps.first),
            second: written(ps.second),
            third: written(ps.third),
            fourth: written(ps.fourth),
            fifth: written(ps.fifth),
        },
        next,
    })
}

// Parameters in places, one after the other.
fn settle_each(
    table: &[u8],
    hand: Hand,
    places: Places,
    ps: Parameters,
    next: ArgumentPosition,
) -> Result<SettledOut, Refusal>
    requires all_supplied { AllSupplied table.now hand ps }
    requires next_le_count { next.0 ≤ hand.count }
    ensures { Settles table.now hand places ps next.0 result }
{
    let first = work_out(table, hand, places.first, ps.first, next)?;
    let second = work_out(table, hand, places.second, ps.second, first.next)?;
    let third = work_out(table, hand, places.third, ps.third, second.next)?;
    let fourth = work_out(table, hand, places.fourth, ps.fourth, third.next)?;
    let fifth = work_out(table, hand, places.fifth, ps.fifth, fourth.next)?;
    Ok(SettledOut {
        settings: Settings {
            first: first.setting,
            second: second.setting,
            third: third.setting,
            fourth: fourth.setting,
            fifth: fifth.setting,
        },
        next: fifth.next,
    })
}

// Parameters in places, one after the other or, if they are written out, all at once.
fn settle(
    table: &[u8],
    hand: Hand,
    places: Places,
    ps: Parameters,
    next: ArgumentPosition,
) -> Result<SettledOut, Refusal>
    requires all_supplied { AllSupplied table.now hand ps }
    requires next_le_count { next.0 ≤ hand.count }
    ensures { Settles table.now hand places ps next.0 result }
{
    if all_written(ps) {
        settle_written(ps, next)
    } else {
        settle_each(table, hand, places, ps, next)
    }
}

// No parameter.
fn settle_none(next: ArgumentPosition) -> Result<SettledOut, Refusal>
    ensures { SettlesWritten no_parameters next result }
{
    Ok(SettledOut {
        settings: NO_SETTINGS,
        next,
    })
}

// The parameters of a directive, in its own places. Only `v` reads the table: where there is none, nothing is asked of
// it. Most directives that are not short have no parameter: then no place is looked up, at half the cost. Run and vet
// call this one function: so the compiler makes one body of it and of all above, and the answer is not copied.
pub fn settle_directive(
    table: &[u8],
    hand: Hand,
    d: Directive,
    next: ArgumentPosition,
) -> Result<SettledOut, Refusal>
    requires all_supplied { AllSupplied table.now hand d.parameters }
    requires next_le_count { next.0 ≤ hand.count }
    ensures { SettlesDirective table.now hand d next.0 result }
{
    if is_bare(d.parameters) {
        return settle_none(next);
    }
    settle(table, hand, row_in(d).places, d.parameters, next)
}
