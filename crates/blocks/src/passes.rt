// The passes of an iteration: how many are left, and over which entries.
ghost use Rattle.std.specs.Prelude.{◌≡◌, cond, ◌+◌, ◌≤◌, ◌<◌};
ghost use Rattle.rules.specs.Choice.{either};
ghost use Rattle.rules.specs.Working.{none_remain};
ghost use Rattle.rules.specs.Run.{used_up, one_less};
ghost use Rattle.parameters.specs.Settling.{InHand, hand_at};
ghost use Rattle.blocks.specs.Parts.{GoesOver};

use crate::wanting::take_argument;
use parameters::Hand;
use rules::refusal::Refusal;
use rules::{Argument, ArgumentPosition, Setting};

fn used_up(passes: Setting) -> bool
    ensures { result ≡ used_up passes }
{
    passes == Some(0)
}

pub fn one_less(passes: Setting) -> Setting
    ensures { result ≡ one_less passes }
{
    passes.map(|n| n.saturating_sub(1))
}

// Whether an iteration ends before its next pass.
pub fn is_over(passes: Setting, next: ArgumentPosition, hand: Hand) -> bool
    ensures { result ≡ either (none_remain (hand_at hand next.0)) (used_up passes) }
{
    hand.count <= next.0 || used_up(passes)
}

// What an iteration goes over: entries in hand, from the first of these on.
#[derive(Clone, Copy)]
pub struct Over {
    pub hand: Hand,
    pub first: ArgumentPosition,
}

// With @ the arguments that remain, and else the entries of the list that the next argument is.
pub fn go_over(table: &[u8], hand: Hand, atsign: bool, i: ArgumentPosition) -> Result<Over, Refusal>
    requires in_hand { InHand table.now hand }
    requires i_le_count { i.0 ≤ hand.count }
    ensures { GoesOver table.now hand atsign i.0 result }
{
    if atsign {
        return Ok(Over { hand, first: i });
    }
    match take_argument(table, hand, i)? {
        Argument::Entries { first, count } => Ok(Over {
            hand: Hand { first, count },
            first: ArgumentPosition(0),
        }),
        _ => Err(Refusal::WrongKind),
    }
}

// The next argument after an iteration: with @ the one that its last pass left, and else the one after the list.
pub fn next_after(atsign: bool, last: ArgumentPosition, i: ArgumentPosition) -> ArgumentPosition
    requires { i.0 < 18446744073709551615 }
    ensures { result.0 ≡ cond atsign last.0 (i.0 + 1) }
{
    if atsign {
        last
    } else {
        ArgumentPosition(i.0 + 1)
    }
}
