// What a format without jumps and loops needs at the most, vetted over the kinds of its arguments.
#![tactic(auto)]

pub mod asking;
pub mod counting;
pub mod ends;
pub mod vettable;

ghost use Rattle.std.specs.Prelude.{◌≡◌};
ghost use Rattle.rules.specs.Verdict.{Accepted};
ghost use Rattle.vet_rules.specs.Demand.{Promised};
ghost use Rattle.vet_rules.specs.Vet.{vetted_as};

use asking::may_ask;
use counting::count_format;
use rules::refusal::{Fault, Refusal};
use syntax::text::check_text;
use vet_turns::question::Question;
use vettable::check_vettable;

// Vets a format over the kinds of its arguments, of which no string is longer than `longest`: the byte count, or why not.
pub fn vet_format(format: &[u8], kinds: &[u8], longest: usize) -> Result<usize, Fault>
    ensures { Promised format.now kinds.now longest (vetted_as result) }
{
    if !may_ask(kinds, longest) {
        return Err(Fault {
            refusal: Refusal::BadKinds,
            position: 0,
        });
    }
    check_text(format)?;
    check_vettable(format)?;
    count_format(format, &Question { kinds, longest })
}
