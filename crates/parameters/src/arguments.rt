// The arguments in hand, and those that remain of them.
ghost use Rattle.std.specs.Prelude.{◌≡◌, ◌+◌, ◌-◌, ◌≤◌, ◌<◌};
ghost use Rattle.rules.specs.Table.{Holds, meant, view_of};
ghost use Rattle.rules.specs.Working.{argument_in};
ghost use Rattle.parameters.specs.Settling.{InHand, hand_at};

use rules::{Argument, ArgumentPosition, EntryIndex};
use table::{entry_of, read_argument};

// The arguments in hand: the entry of the first, and how many there are.
#[derive(Clone, Copy)]
pub struct Hand {
    pub first: EntryIndex,
    pub count: usize,
}

impl Hand {
    // How many arguments remain.
    pub fn remaining(self, next: ArgumentPosition) -> usize
        requires { next.0 ≤ self.count }
        ensures { result ≡ self.count - next.0 }
    {
        self.count - next.0
    }
}

// Argument i of those in hand.
pub fn argument_at(table: &[u8], hand: Hand, i: ArgumentPosition) -> Argument
    requires in_hand { InHand table.now hand }
    requires i_lt_count { i.0 < hand.count }
    ensures entry { Holds table.now (hand.first.0 + i.0) result }
    ensures value { meant table.now result ≡ argument_in (view_of table.now) (hand_at hand 0) i.0 }
{
    read_argument(table, entry_of(hand.first, i))
}

// The argument after this one.
pub fn following(next: ArgumentPosition) -> ArgumentPosition
    requires { next.0 < 1024 }
    ensures { result.0 ≡ next.0 + 1 }
{
    ArgumentPosition(next.0 + 1)
}
