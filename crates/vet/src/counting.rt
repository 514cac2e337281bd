// The greatest count of a format, sequence by sequence: a conditional counts as its longest clause. The clauses are counted
// by the function that counts the sequence in which they stand, so that calls nest no deeper than blocks.
ghost use Rattle.std.specs.Prelude.{◌≡◌, ◌≤◌, length};
ghost use Rattle.rules.specs.Directive.{item_at};
ghost use Rattle.rules.specs.Text.{text_verdict};
ghost use Rattle.rules.specs.Verdict.{Accepted};
ghost use Rattle.rules.specs.declared.Item.TheVariants.{Written};
ghost use Rattle.vet_rules.specs.Plain.{Opener, vettable_verdict};
ghost use Rattle.vet_rules.specs.Vet.{run_answer, vetted_as};
ghost use Rattle.vet.specs.Counting.{VettableAt, ElementIs, SequenceIs, ClausesAre};

use crate::ends::{meet, with_none};
use reader::directive::item_at;
use rules::refusal::{Fault, Refusal};
use rules::{ArgumentPosition, Code, Directive, Item};
use syntax::ends::ClauseEnd;
use vet_rules::{Ends, Reach};
use vet_turns::question::Question;
use vet_turns::starts::start_of;
use vet_turns::turns::turn_form;

// One element of a sequence: it leads so far, and the text goes on at `place`; or the sequence ends here.
#[derive(Clone, Copy)]
pub enum Element {
    Leads { reach: Reach, place: usize },
    Ends(ClauseEnd),
}

// A whole sequence: it leads so far, and so it ends.
#[derive(Clone, Copy)]
pub struct Counted {
    pub reach: Reach,
    pub end: ClauseEnd,
}

// The clauses of a block: their ways end so, and the text goes on at `place` after it.
#[derive(Clone, Copy)]
pub struct Clauses {
    pub ends: Ends,
    pub place: usize,
}

// The clauses of the conditional d, each from the argument `start`.
#[cycle(counts)]
fn count_clauses(
    format: &[u8],
    question: &Question,
    d: Directive,
    start: ArgumentPosition,
) -> Result<Clauses, Fault>
    requires vettable_at { VettableAt format.now d.after }
    requires start_in_bounds { start.0 ≤ length question.now.kinds.now }
    ensures { ClausesAre format.now question.now.kinds.now question.now.longest d start.0 result }
{
    let mut z = d.after;
    let mut fallback = false;
    let mut ends = Ends::Nowhere;
    // no `for`: where the next clause begins shows only when this one is counted
    loop {
        let counted = count_sequence(format, question, z, start)?;
        ends = meet(ends, counted.reach);
        match counted.end {
            ClauseEnd::Another { colon, after, .. } => {
                fallback = colon;
                z = after;
            }
            ClauseEnd::Last { after, .. } => {
                return Ok(Clauses {
                    ends: with_none(d, fallback, start, ends),
                    place: after,
                });
            }
        }
    }
}

// The conditional d at p, where `next` is the next argument.
#[cycle(counts)]
fn count_block(
    format: &[u8],
    question: &Question,
    p: usize,
    d: Directive,
    next: ArgumentPosition,
) -> Result<Element, Fault>
    requires vettable_at { VettableAt format.now p }
    requires p_value { item_at format.now p ≡ Written d }
    requires opener { Opener d }
    requires next_in_bounds { next.0 ≤ length question.now.kinds.now }
    ensures { ElementIs format.now question.now.kinds.now question.now.longest p next.0 result }
{
    let start = match start_of(question.kinds, d, next) {
        Ok(reach) => reach.next,
        Err(refusal) => return Err(Fault {
            refusal,
            position: p,
        }),
    };
    let Clauses { ends, place } = count_clauses(format, question, d, start)?;
    match ends {
        Ends::Equal { next, size } => Ok(Element::Leads {
            reach: Reach { next, size },
            place,
        }),
        _ => Err(Fault {
            refusal: Refusal::NotPlain,
            position: p,
        }),
    }
}

// The item at p, where `next` is the next argument. The last arms are closers and the end of the text: a text that is
// accepted and vettable has nothing else there.
#[cycle(counts)]
fn count_element(
    format: &[u8],
    question: &Question,
    p: usize,
    next: ArgumentPosition,
) -> Result<Element, Fault>
    requires vettable_at { VettableAt format.now p }
    requires next_in_bounds { next.0 ≤ length question.now.kinds.now }
    ensures { ElementIs format.now question.now.kinds.now question.now.longest p next.0 result }
{
    match item_at(format, p) {
        Item::Literal(_) => Ok(Element::Leads {
            reach: Reach { next, size: 1 },
            place: p + 1,
        }),
        Item::Written(d) => match d.code {
            Code::Writes(form) => match turn_form(question, d, form, next) {
                Ok(reach) => Ok(Element::Leads {
                    reach,
                    place: d.after,
                }),
                Err(refusal) => Err(Fault {
                    refusal,
                    position: p,
                }),
            },
            Code::Opens(_) => count_block(format, question, p, d, next),
            Code::Separator => Ok(Element::Ends(ClauseEnd::Another {
                position: p,
                colon: d.colon,
                after: d.after,
            })),
            _ => Ok(Element::Ends(ClauseEnd::Last {
                position: p,
                after: d.after,
            })),
        },
        _ => Ok(Element::Ends(ClauseEnd::Last {
            position: p,
            after: p,
        })),
    }
}

// The sequence that is read at `start`, from the argument `first`.
#[cycle(counts)]
fn count_sequence(
    format: &[u8],
    question: &Question,
    start: usize,
    first: ArgumentPosition,
) -> Result<Counted, Fault>
    requires vettable_at { VettableAt format.now start }
    requires first_in_bounds { first.0 ≤ length question.now.kinds.now }
    ensures { SequenceIs format.now question.now.kinds.now question.now.longest start first.0 result }
{
    let mut p = start;
    let mut next = first;
    let mut sum: usize = 0;
    // no `for`: how long an element is shows only when it is counted
    loop {
        match count_element(format, question, p, next)? {
            Element::Leads { reach, place } => {
                next = reach.next;
                sum += reach.size;
                p = place;
            }
            Element::Ends(end) => {
                return Ok(Counted {
                    reach: Reach { next, size: sum },
                    end,
                });
            }
        }
    }
}

// The whole format, from the first argument on.
pub fn count_format(format: &[u8], question: &Question) -> Result<usize, Fault>
    requires format_value { text_verdict format.now ≡ Accepted }
    requires format_value_2 { vettable_verdict format.now ≡ Accepted }
    ensures { vetted_as result ≡ run_answer format.now question.now.kinds.now question.now.longest }
{
    let counted = count_sequence(format, question, 0, ArgumentPosition(0))?;
    Ok(counted.reach.size)
}
