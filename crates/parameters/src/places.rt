// One parameter in its place: written out, `v` from the next argument, or `#` from the arguments that remain.
ghost use Rattle.std.specs.Prelude.{◌≡◌, true, List, ℕ, ◌-◌, ◌≤◌};
ghost use Rattle.rules.specs.Table.{meant};
ghost use Rattle.rules.specs.Working.{in_range, from_count, from_value};
ghost use Rattle.rules.specs.declared.Parameter.TheVariants.{Next};
ghost use Rattle.parameters.specs.Settling.{InHand, Supplied, Lies, worked_as, Works, is_written, WrittenAs};

use crate::arguments::{Hand, argument_at, following};
use rules::refusal::Refusal;
use rules::{Argument, ArgumentPosition, Parameter, Place, Setting};

// A parameter that is worked out, with the next argument after it.
#[derive(Clone, Copy, Debug, PartialEq, Eq)]
pub struct WorkedOut {
    pub setting: Setting,
    pub next: ArgumentPosition,
}

// A number for a place from least to most.
fn in_range(n: usize, least: u16, most: u16, next: ArgumentPosition) -> Result<WorkedOut, Refusal>
    ensures { worked_as result ≡ in_range least most n next.0 }
{
    if usize::from(least) <= n && n <= usize::from(most) {
        Ok(WorkedOut {
            setting: Some(n),
            next,
        })
    } else {
        Err(Refusal::OutOfRange)
    }
}

// An argument in a place.
fn value_in(place: Place, argument: Argument, next: ArgumentPosition) -> Result<WorkedOut, Refusal>
    ensures is { (t : List ℕ) → worked_as result ≡ from_value place (meant t argument) next.0 }
    ensures lies { Lies place (worked_as result) }
{
    match (place, argument) {
        (Place::Number { least, most }, Argument::Integer(z)) => match usize::try_from(z) {
            Ok(n) => in_range(n, least, most, next),
            Err(_) => Err(Refusal::OutOfRange),
        },
        (Place::Character, Argument::Character(b)) => Ok(WorkedOut {
            setting: Some(usize::from(b)),
            next,
        }),
        _ => Err(Refusal::WrongKind),
    }
}

// `v` in a place.
fn work_next(
    table: &[u8],
    hand: Hand,
    place: Place,
    next: ArgumentPosition,
) -> Result<WorkedOut, Refusal>
    requires in_hand { InHand table.now hand }
    requires next_le_count { next.0 ≤ hand.count }
    ensures { Works table.now hand place Next next.0 result }
{
    if hand.count <= next.0 {
        return Err(Refusal::NoArgument);
    }
    value_in(place, argument_at(table, hand, next), following(next))
}

// `#` in a place.
fn work_remaining(hand: Hand, place: Place, next: ArgumentPosition) -> Result<WorkedOut, Refusal>
    requires { next.0 ≤ hand.count }
    ensures { worked_as result ≡ from_count place (hand.count - next.0) next.0 }
{
    match place {
        Place::Number { least, most } => in_range(hand.remaining(next), least, most, next),
        Place::Empty | Place::Character => Err(Refusal::OutOfRange),
    }
}

// Whether a parameter is written out, and not `v` or `#`.
pub fn is_written(x: Parameter) -> bool
    ensures { result ≡ is_written x }
{
    !matches!(x, Parameter::Next | Parameter::Remaining)
}

// What a parameter that is written out is worked out to, in every place.
pub fn written(x: Parameter) -> Setting
    requires { is_written x ≡ true }
    ensures { WrittenAs x result }
{
    match x {
        Parameter::Default => None,
        Parameter::Number(n) => Some(usize::from(n)),
        Parameter::Character(b) => Some(usize::from(b)),
        Parameter::Next | Parameter::Remaining => unreachable!(),
    }
}

// A parameter in a place. Only `v` reads the table.
pub fn work_out(
    table: &[u8],
    hand: Hand,
    place: Place,
    x: Parameter,
    next: ArgumentPosition,
) -> Result<WorkedOut, Refusal>
    requires supplied { Supplied table.now hand x }
    requires next_le_count { next.0 ≤ hand.count }
    ensures { Works table.now hand place x next.0 result }
{
    match x {
        Parameter::Next => work_next(table, hand, place, next),
        Parameter::Remaining => work_remaining(hand, place, next),
        _ => Ok(WorkedOut {
            setting: written(x),
            next,
        }),
    }
}
