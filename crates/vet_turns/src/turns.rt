// What a directive that writes does to a vet.
ghost use Rattle.std.specs.Prelude.{◌≡◌, true, ◌≤◌, length};
ghost use Rattle.rules.specs.Act.{act_from};
ghost use Rattle.rules.specs.Rows.{in_order, places_in};
ghost use Rattle.rules.specs.Working.{WellSet, source_of};
ghost use Rattle.rules.specs.declared.Item.TheVariants.{Written};
ghost use Rattle.vet_rules.specs.Plain.{none_next};
ghost use Rattle.vet_rules.specs.Turns.{shown_turn, turn_as, turn_by, turn_of};
ghost use Rattle.vet_turns.specs.Kinds.{tag_of_kind};
ghost use Rattle.vet_turns.specs.Parts.{Writing, SettledOn};

use crate::lengths::{glyph_size, worst_of};
use crate::question::{Kind, Question};
use directives::rows::{form_row, takes_kind};
use parameters::{Hand, SettledOut, settle_directive};
use rules::refusal::Refusal;
use rules::{ArgumentPosition, Directive, EntryIndex, Form, Origin, Settings};
use vet_rules::Reach;

// The parameters of a directive without `v`: there is no table, and none is read.
pub fn settle_fixed(
    kinds: &[u8],
    d: Directive,
    next: ArgumentPosition,
) -> Result<SettledOut, Refusal>
    requires parameters_value { none_next (in_order d.parameters) ≡ true }
    requires next_in_bounds { next.0 ≤ length kinds.now }
    ensures { SettledOn (length kinds.now) (places_in d) d.parameters next.0 result }
{
    let hand = Hand {
        first: EntryIndex(0),
        count: kinds.len(),
    };
    settle_directive(&[], hand, d, next)
}

// An argument of a kind is shown, after which `after` is the next. Form, directive and settings go together from here to
// `worst_of` alone: a struct of them would be built for two calls.
fn turn_shown(
    form: Form,
    d: Directive,
    settings: Settings,
    kind: Kind,
    after: ArgumentPosition,
    longest: usize,
) -> Result<Reach, Refusal>
    requires well_set { WellSet form settings }
    requires longest_bound { longest ≤ 4096 }
    ensures { turn_as result ≡ shown_turn longest form d settings (tag_of_kind kind) after.0 }
{
    if !takes_kind(form, kind as usize) {
        return Err(Refusal::WrongKind);
    }
    Ok(Reach {
        next: after,
        size: worst_of(form, d.colon, d.atsign, settings, kind, longest),
    })
}

// A directive whose parameters are worked out.
fn turn_settled(
    question: &Question,
    form: Form,
    d: Directive,
    settings: Settings,
    next: ArgumentPosition,
) -> Result<Reach, Refusal>
    requires well_set { WellSet form settings }
    requires next_in_bounds { next.0 ≤ length question.now.kinds.now }
    ensures { turn_as result ≡ turn_by question.now.kinds.now question.now.longest (act_from (length question.now.kinds.now) form d settings next.0 (source_of form d.colon settings)) }
{
    let longest = question.longest;
    match (form_row(form).origin, settings.first) {
        // no kind counts
        (Origin::Nowhere, _) => Ok(Reach {
            next,
            size: worst_of(form, d.colon, d.atsign, settings, Kind::Boolean, longest),
        }),
        (Origin::NextOrNumber, Some(code)) => Ok(Reach {
            next,
            size: glyph_size(d.colon, d.atsign, code),
        }),
        (Origin::NextOrBack, _) if d.colon => {
            turn_shown(form, d, settings, question.back(next)?, next, longest)
        }
        _ => {
            let (kind, after) = question.take(next)?;
            turn_shown(form, d, settings, kind, after, longest)
        }
    }
}

// The turn of a directive of a form.
pub fn turn_form(
    question: &Question,
    d: Directive,
    form: Form,
    next: ArgumentPosition,
) -> Result<Reach, Refusal>
    requires writing { Writing form d }
    requires next_in_bounds { next.0 ≤ length question.now.kinds.now }
    ensures { turn_as result ≡ turn_of question.now.kinds.now question.now.longest (Written d) next.0 }
{
    let settings = settle_fixed(question.kinds, d, next)?.settings;
    turn_settled(question, form, d, settings, next)
}
