// What a directive shows, planned before any buffer is known: where its argument comes from, which one it is, and
// whether its form takes that kind.
ghost use Rattle.std.specs.Prelude.{◌≡◌, List, ℕ, ◌≤◌};
ghost use Rattle.rules.specs.Directive.{FormRight};
ghost use Rattle.rules.specs.Table.{meant};
ghost use Rattle.rules.specs.Piece.{kind_of};
ghost use Rattle.rules.specs.Working.{WellSet, glyph_source, source_by, source_of as source_in};
ghost use Rattle.parameters.specs.Settling.{InHand};
ghost use Rattle.actions.specs.Planning.{source_as, SourceReachable, Takes, Coded, OriginRight, PlansSettled, Plans};

use directives::places::is_well_written;
use directives::rows::{form_row, takes_kind};
use parameters::{Hand, SettledOut, argument_at, settle_directive};
use rules::refusal::Refusal;
use rules::{Argument, ArgumentPosition, Code, Directive, Form, Origin, Setting, Settings};

// Where the argument of a directive comes from: the next one, the one before it, or none is taken and this stands in.
#[derive(Clone, Copy, PartialEq, Eq, Debug)]
enum Source {
    Own,
    Back,
    Given(Argument),
}

fn glyph_source(setting: Setting) -> Source
    requires { Coded setting }
    ensures means { (t : List ℕ) → source_as t result ≡ glyph_source setting }
    ensures reachable { (t : List ℕ) → SourceReachable t result }
{
    match setting {
        None => Source::Own,
        Some(n) => Source::Given(Argument::Character(n as u8)),
    }
}

fn source_by(origin: Origin, colon: bool, settings: Settings) -> Source
    requires { OriginRight origin settings }
    ensures means { (t : List ℕ) → source_as t result ≡ source_by origin colon settings }
    ensures reachable { (t : List ℕ) → SourceReachable t result }
{
    match origin {
        Origin::Nowhere => Source::Given(Argument::Boolean(false)),
        Origin::NextOrBack if colon => Source::Back,
        Origin::Next | Origin::NextOrBack => Source::Own,
        Origin::NextOrNumber => glyph_source(settings.first),
    }
}

fn source_of(form: Form, colon: bool, settings: Settings) -> Source
    requires { WellSet form settings }
    ensures means { (t : List ℕ) → source_as t result ≡ source_in form colon settings }
    ensures reachable { (t : List ℕ) → SourceReachable t result }
{
    source_by(form_row(form).origin, colon, settings)
}

// The argument that a directive takes, with the next one after it.
#[derive(Clone, Copy, PartialEq, Eq, Debug)]
struct Taken {
    argument: Argument,
    next: ArgumentPosition,
}

// None where 01 gives code 6.
fn take_argument(source: Source, table: &[u8], hand: Hand, i: ArgumentPosition) -> Option<Taken>
    requires in_hand { InHand table.now hand }
    requires source_reachable { SourceReachable table.now source }
    requires i_le_count { i.0 ≤ hand.count }
    ensures { Takes table.now hand source i.0 result }
{
    match source {
        Source::Own if i.0 < hand.count => Some(Taken {
            argument: argument_at(table, hand, i),
            next: ArgumentPosition(i.0 + 1),
        }),
        Source::Back if i.0 > 0 => Some(Taken {
            argument: argument_at(table, hand, ArgumentPosition(i.0 - 1)),
            next: i,
        }),
        Source::Own | Source::Back => None,
        Source::Given(argument) => Some(Taken { argument, next: i }),
    }
}

fn kind_of(argument: Argument) -> usize
    ensures { (t : List ℕ) → result ≡ kind_of (meant t argument) }
{
    match argument {
        Argument::Boolean(_) => 0,
        Argument::Integer(_) => 1,
        Argument::Character(_) => 2,
        Argument::Text { .. } => 3,
        Argument::Entries { .. } => 4,
    }
}

// What a directive shows: its settings, its argument and the next one after it.
#[derive(Clone, Copy, PartialEq, Eq, Debug)]
pub struct Plan {
    pub settings: Settings,
    pub argument: Argument,
    pub next: ArgumentPosition,
}

// The plan of a directive whose parameters are worked out.
pub fn plan_settled(
    form: Form,
    colon: bool,
    settings: Settings,
    table: &[u8],
    hand: Hand,
    i: ArgumentPosition,
) -> Result<Plan, Refusal>
    requires well_set { WellSet form settings }
    requires in_hand { InHand table.now hand }
    requires i_le_count { i.0 ≤ hand.count }
    ensures { PlansSettled table.now form colon settings hand i.0 result }
{
    let source = source_of(form, colon, settings);
    let Taken { argument, next } = take_argument(source, table, hand, i).ok_or(
        Refusal::NoArgument,
    )?;
    if !takes_kind(form, kind_of(argument)) {
        return Err(Refusal::WrongKind);
    }
    Ok(Plan {
        settings,
        argument,
        next,
    })
}

// The plan of a directive of a form.
pub fn plan_form(
    form: Form,
    d: Directive,
    table: &[u8],
    hand: Hand,
    next: ArgumentPosition,
) -> Result<Plan, Refusal>
    requires code_value { d.code ≡ Code.Writes form }
    requires form_right { FormRight form }
    requires in_hand { InHand table.now hand }
    requires next_le_count { next.0 ≤ hand.count }
    ensures { Plans table.now form d hand next.0 result }
{
    if !is_well_written(d) {
        return Err(Refusal::BadParameter);
    }
    let SettledOut { settings, next: i } = settle_directive(table, hand, d, next)?;
    plan_settled(form, d.colon, settings, table, hand, i)
}
