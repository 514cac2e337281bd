// The argument from which the clauses of a conditional run.
ghost use Rattle.std.specs.Prelude.{◌≡◌, ℕ, ◌≤◌, length};
ghost use Rattle.vet_rules.specs.Plain.{Opener};
ghost use Rattle.vet_rules.specs.Turns.{turn_as};
ghost use Rattle.vet_rules.specs.Ways.{numbered_start, start_of};

use crate::question::{Kind, take_tag};
use crate::turns::settle_fixed;
use rules::refusal::Refusal;
use rules::{ArgumentPosition, Directive, Setting};
use vet_rules::Reach;

// ~[ picks a clause by its setting, which takes no argument, or by an integer.
fn start_numbered(kinds: &[u8], setting: Setting, next: ArgumentPosition) -> Result<Reach, Refusal>
    requires { next.0 ≤ length kinds.now }
    ensures { (longest : ℕ) → turn_as result ≡ numbered_start kinds.now longest next.0 setting }
{
    if setting.is_some() {
        return Ok(Reach { next, size: 0 });
    }
    match take_tag(kinds, next)? {
        (tag, after) if tag == Kind::Integer as u8 => Ok(Reach {
            next: after,
            size: 0,
        }),
        _ => Err(Refusal::WrongKind),
    }
}

// Of ~:[ one argument picks the clause; ~@[ leaves a boolean to its clause.
#[tactic(auto, unfolding(vet_rules::specs::Ways::start_of))]
pub fn start_of(kinds: &[u8], d: Directive, next: ArgumentPosition) -> Result<Reach, Refusal>
    requires opener { Opener d }
    requires next_in_bounds { next.0 ≤ length kinds.now }
    ensures { (longest : ℕ) → turn_as result ≡ start_of kinds.now longest d next.0 }
{
    if d.colon {
        let (_, after) = take_tag(kinds, next)?;
        return Ok(Reach {
            next: after,
            size: 0,
        });
    }
    if d.atsign {
        return match take_tag(kinds, next)? {
            (tag, _) if tag == Kind::Boolean as u8 => Ok(Reach { next, size: 0 }),
            _ => Err(Refusal::NotPlain),
        };
    }
    let settings = settle_fixed(kinds, d, next)?.settings;
    start_numbered(kinds, settings.first, next)
}
