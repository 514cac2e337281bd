// What an item does where it is met, while a whole text is read: it is refused, or opens, parts or closes a block.
ghost use Rattle.std.specs.Prelude.{◌≡◌};
ghost use Rattle.rules.specs.Directive.{item_at};
ghost use Rattle.rules.specs.Rows.{well_written};
ghost use Rattle.syntax.specs.Checks.{ensured, has_clauses, may_part, count_in, block_by, block_of_mark, met_opener, met_separator, met_end_conditional, met_end_iteration, met_by, met_end, met_item, met_mark};

use directives::places::is_well_written;
use reader::directive::item_at;
use reader::marks::{Mark, after_mark, mark_at};
use rules::refusal::{Fault, Refusal};
use rules::{Bracket, Code, Directive, Item};

// The innermost open block, by the kind of its opener: none, ~[, ~:[, ~@[, or one of ~{ and ~@{. The opener itself is not
// kept: a Directive travels by memory, which takes longer than to read a mark.
#[derive(Clone, Copy, PartialEq, Eq)]
pub enum Around {
    Top,
    Numbered,
    TwoClauses,
    OneClause,
    Repeated,
}

// Where a check stands: the innermost block, where it is opened and where its inside starts, how many ~; it has so far,
// whether the last is a ~:;, and how many blocks more may be open.
#[derive(Clone, Copy)]
pub struct Scope {
    pub around: Around,
    pub opened: usize,
    pub start: usize,
    pub separators: usize,
    pub fallback: bool,
    pub room: usize,
}

// What an item does where it is met, and where the text goes on after it.
#[derive(Clone, Copy)]
pub enum Met {
    Ends,
    Stays { after: usize },
    Enters { block: Around, after: usize },
    Parts { colon: bool, after: usize },
    Leaves { after: usize },
}

// A directive that is met: where it stands, where the text goes on after it, and whether it is well written.
#[derive(Clone, Copy)]
struct Seen {
    position: usize,
    after: usize,
    well: bool,
}

// Refuses what does not hold.
fn ensure(holds: bool, refusal: Refusal, position: usize) -> Result<(), Fault>
    ensures { result ≡ ensured holds refusal position }
{
    if holds {
        Ok(())
    } else {
        Err(Fault { refusal, position })
    }
}

impl Around {
    // The block that a directive opens, by its modifiers.
    fn opened_by(bracket: Bracket, colon: bool, atsign: bool) -> Around
        ensures { result ≡ block_by bracket colon atsign }
    {
        match (bracket, colon, atsign) {
            (Bracket::Iteration, _, _) => Around::Repeated,
            (Bracket::Conditional, true, _) => Around::TwoClauses,
            (Bracket::Conditional, false, true) => Around::OneClause,
            (Bracket::Conditional, false, false) => Around::Numbered,
        }
    }

    // The block that a mark opens.
    fn of_mark(mark: Mark) -> Around
        ensures { result ≡ block_of_mark mark }
    {
        match mark {
            Mark::Numbered => Around::Numbered,
            Mark::TwoClauses => Around::TwoClauses,
            Mark::OneClause => Around::OneClause,
            _ => Around::Repeated,
        }
    }

    fn has_clauses(self) -> bool
        ensures { result ≡ has_clauses self }
    {
        matches!(
            self,
            Around::Numbered | Around::TwoClauses | Around::OneClause
        )
    }
}

impl Scope {
    // Whether a ~;, or with colon a ~:;, may part the block.
    fn may_part(self, colon: bool) -> bool
        ensures { result ≡ may_part self.around self.fallback colon }
    {
        !self.fallback
            && match self.around {
                Around::Numbered => true,
                Around::TwoClauses | Around::OneClause => !colon,
                Around::Top | Around::Repeated => false,
            }
    }

    fn has_right_count(self) -> bool
        ensures { result ≡ count_in self.around self.separators }
    {
        match self.around {
            Around::TwoClauses => self.separators == 1,
            Around::OneClause => self.separators == 0,
            Around::Top | Around::Numbered | Around::Repeated => true,
        }
    }

    // A ~[ or ~{ is met.
    fn meet_opener(self, d: Seen, block: Around) -> Result<Met, Fault>
        ensures { result ≡ met_opener d.position d.after d.well block self.room }
    {
        ensure(0 < self.room, Refusal::BadBlock, d.position)?;
        ensure(d.well, Refusal::BadParameter, d.position)?;
        Ok(Met::Enters {
            block,
            after: d.after,
        })
    }

    // A ~; or ~:; is met.
    fn meet_separator(self, d: Seen, colon: bool) -> Result<Met, Fault>
        ensures { result ≡ met_separator d.position d.after d.well colon self.around self.fallback }
    {
        ensure(self.may_part(colon), Refusal::BadBlock, d.position)?;
        ensure(d.well, Refusal::BadParameter, d.position)?;
        Ok(Met::Parts {
            colon,
            after: d.after,
        })
    }

    // A ~] is met.
    fn meet_end_conditional(self, d: Seen) -> Result<Met, Fault>
        ensures { result ≡ met_end_conditional d.position d.after d.well self.around self.opened self.separators }
    {
        ensure(self.around.has_clauses(), Refusal::BadBlock, d.position)?;
        ensure(self.has_right_count(), Refusal::BadBlock, self.opened)?;
        ensure(d.well, Refusal::BadParameter, d.position)?;
        Ok(Met::Leaves { after: d.after })
    }

    // A ~} is met.
    fn meet_end_iteration(self, d: Seen) -> Result<Met, Fault>
        ensures { result ≡ met_end_iteration d.position d.after d.well self.around self.opened self.start }
    {
        ensure(
            self.around == Around::Repeated,
            Refusal::BadBlock,
            d.position,
        )?;
        ensure(self.start != d.position, Refusal::BadBlock, self.opened)?;
        ensure(d.well, Refusal::BadParameter, d.position)?;
        Ok(Met::Leaves { after: d.after })
    }

    // The text ends.
    fn meet_end(self) -> Result<Met, Fault>
        ensures { result ≡ met_end self.around self.opened }
    {
        ensure(self.around == Around::Top, Refusal::BadBlock, self.opened)?;
        Ok(Met::Ends)
    }
}

// What the directive d at p does.
#[tactic(auto, unfolding(crate::specs::Checks::met_by))]
fn meet_directive(p: usize, d: Directive, s: Scope) -> Result<Met, Fault>
    ensures { result ≡ met_by p d.after (well_written d) d.colon d.atsign d.code s }
{
    let seen = Seen {
        position: p,
        after: d.after,
        well: is_well_written(d),
    };
    match d.code {
        Code::Writes(_) | Code::Jump | Code::Escape => {
            ensure(seen.well, Refusal::BadParameter, p)?;
            Ok(Met::Stays { after: d.after })
        }
        Code::Opens(bracket) => s.meet_opener(seen, Around::opened_by(bracket, d.colon, d.atsign)),
        Code::Separator => s.meet_separator(seen, d.colon),
        Code::Closes(Bracket::Conditional) => s.meet_end_conditional(seen),
        Code::Closes(Bracket::Iteration) => s.meet_end_iteration(seen),
        Code::Unknown => Err(Fault {
            refusal: Refusal::UnknownCode,
            position: p,
        }),
    }
}

// What the item at p does.
fn meet_item(text: &[u8], p: usize, s: Scope) -> Result<Met, Fault>
    ensures { result ≡ met_item p (item_at text.now p) s }
{
    match item_at(text, p) {
        Item::End => s.meet_end(),
        Item::Literal(_) => Ok(Met::Stays { after: p + 1 }),
        Item::BadNumber => Err(Fault {
            refusal: Refusal::BadParameter,
            position: p,
        }),
        Item::Unfinished => Err(Fault {
            refusal: Refusal::UnknownCode,
            position: p,
        }),
        Item::Written(d) => meet_directive(p, d, s),
    }
}

// What a mark at p does, after which the text goes on at after. A mark is well written. It goes to its step at once: a
// code made of it, and handed to what goes by the code of a directive, would only be taken apart again.
#[tactic(auto, unfolding(crate::specs::Checks::met_by))]
fn meet_mark(mark: Mark, p: usize, after: usize, s: Scope) -> Result<Met, Fault>
    ensures { result ≡ met_mark p after mark s }
{
    let seen = Seen {
        position: p,
        after,
        well: true,
    };
    match mark {
        Mark::Separator => s.meet_separator(seen, false),
        Mark::EndConditional => s.meet_end_conditional(seen),
        Mark::EndIteration => s.meet_end_iteration(seen),
        _ => s.meet_opener(seen, Around::of_mark(mark)),
    }
}

// What the item at p does. A mark is asked for first: nearly all that opens, parts or closes a block is one, and no
// Directive is built for it.
pub fn meet(text: &[u8], p: usize, s: Scope) -> Result<Met, Fault>
    ensures { result ≡ met_item p (item_at text.now p) s }
{
    if let Some(mark) = mark_at(text, p) {
        return meet_mark(mark, p, after_mark(mark, p), s);
    }
    meet_item(text, p, s)
}
