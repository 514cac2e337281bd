// Which clause a conditional wants, by its parameter or its argument. The text is not looked at.
ghost use Rattle.std.specs.Prelude.{◌≡◌, cond, List, ℕ, ◌≤◌};
ghost use Rattle.rules.specs.Table.{meant, view_of};
ghost use Rattle.rules.specs.Run.{is_false, pick};
ghost use Rattle.parameters.specs.Settling.{InHand, hand_at};
ghost use Rattle.blocks.specs.Clauses.{counted_from, pick_two, pick_one, pick_own, Wants};
ghost use Rattle.blocks.specs.Parts.{Takes};

use parameters::{Hand, argument_at};
use rules::refusal::Refusal;
use rules::{Argument, ArgumentPosition, Directive, Settings};

// A clause that is looked for: by its number; or, where that is none or no clause has it, with a fallback, the one after
// a last ~:;.
#[derive(Clone, Copy, Debug, PartialEq, Eq)]
pub struct Sought {
    pub number: Option<usize>,
    pub fallback: bool,
}

impl Sought {
    // The same clause, where those before clause n are counted no longer.
    pub fn counted_from(self, n: usize) -> Sought
        ensures { result ≡ counted_from n self }
    {
        Sought {
            number: self.number.map(|m| m.saturating_sub(n)),
            fallback: self.fallback,
        }
    }
}

// What a conditional wants, a clause or none, and the next argument then.
#[derive(Clone, Copy, Debug, PartialEq, Eq)]
pub struct Wanted {
    pub clause: Option<Sought>,
    pub next: ArgumentPosition,
}

// The argument that a block takes.
pub fn take_argument(table: &[u8], hand: Hand, i: ArgumentPosition) -> Result<Argument, Refusal>
    requires { InHand table.now hand }
    ensures { Takes table.now hand i.0 result }
{
    if hand.count <= i.0 {
        return Err(Refusal::NoArgument);
    }
    Ok(argument_at(table, hand, i))
}

fn is_false(argument: Argument) -> bool
    ensures { (t : List ℕ) → result ≡ is_false (meant t argument) }
{
    matches!(argument, Argument::Boolean(false))
}

// ~:[: the first clause for #f, else the second.
fn want_two(table: &[u8], hand: Hand, i: ArgumentPosition) -> Result<Wanted, Refusal>
    requires in_hand { InHand table.now hand }
    requires i_le_count { i.0 ≤ hand.count }
    ensures { Wants hand.count (λ p m j cs on. pick_two (view_of table.now) p m cs (hand_at hand j) i.0 on) result }
{
    let argument = take_argument(table, hand, i)?;
    let number = if is_false(argument) { 0 } else { 1 };
    Ok(Wanted {
        clause: Some(Sought {
            number: Some(number),
            fallback: false,
        }),
        next: ArgumentPosition(i.0 + 1),
    })
}

// ~@[: #f is taken and runs nothing; another argument stays, and the clause runs.
fn want_one(table: &[u8], hand: Hand, i: ArgumentPosition) -> Result<Wanted, Refusal>
    requires in_hand { InHand table.now hand }
    requires i_le_count { i.0 ≤ hand.count }
    ensures { Wants hand.count (λ p m j cs on. pick_one (view_of table.now) p m cs (hand_at hand j) i.0 on) result }
{
    let argument = take_argument(table, hand, i)?;
    let after = ArgumentPosition(i.0 + 1);
    if is_false(argument) {
        return Ok(Wanted {
            clause: None,
            next: after,
        });
    }
    Ok(Wanted {
        clause: Some(Sought {
            number: Some(0),
            fallback: false,
        }),
        next: i,
    })
}

// ~[ with an integer argument, which picks a clause; a negative one has none but the fallback.
fn want_own(table: &[u8], hand: Hand, i: ArgumentPosition) -> Result<Wanted, Refusal>
    requires in_hand { InHand table.now hand }
    requires i_le_count { i.0 ≤ hand.count }
    ensures { Wants hand.count (λ p m j cs on. pick_own (view_of table.now) p m cs (hand_at hand j) i.0 on) result }
{
    let Argument::Integer(z) = take_argument(table, hand, i)? else {
        return Err(Refusal::WrongKind);
    };
    Ok(Wanted {
        clause: Some(Sought {
            number: usize::try_from(z).ok(),
            fallback: true,
        }),
        next: ArgumentPosition(i.0 + 1),
    })
}

// What the conditional d wants once its parameters are worked out, where i is the next argument.
pub fn want_clause(
    table: &[u8],
    hand: Hand,
    d: Directive,
    settings: Settings,
    i: ArgumentPosition,
) -> Result<Wanted, Refusal>
    requires in_hand { InHand table.now hand }
    requires i_le_count { i.0 ≤ hand.count }
    ensures { Wants hand.count (λ p m j cs on. pick (view_of table.now) p m d cs (hand_at hand j) settings i.0 on) result }
{
    if d.colon {
        return want_two(table, hand, i);
    }
    if d.atsign {
        return want_one(table, hand, i);
    }
    if settings.first.is_none() {
        return want_own(table, hand, i);
    }
    Ok(Wanted {
        clause: Some(Sought {
            number: settings.first,
            fallback: true,
        }),
        next: i,
    })
}
