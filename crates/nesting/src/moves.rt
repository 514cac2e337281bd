// How a run moves from block to block: a block is opened, a sequence ends, an escape leaves. A move writes nothing, and
// says where the run goes on or how it is over.
ghost use Rattle.std.specs.Prelude.{◌≡◌, true, ℕ, ◌+◌, ◌≤◌, ◌<◌, length};
ghost use Rattle.rules.specs.Directive.{item_at};
ghost use Rattle.rules.specs.Table.{view_of};
ghost use Rattle.rules.specs.Text.{end, levels_at};
ghost use Rattle.rules.specs.declared.Item.TheVariants.{Written};
ghost use Rattle.parameters.specs.Settling.{hand_at};
ghost use Rattle.running.specs.Runs.{rest_at, leaving, picking, entering, opening};
ghost use Rattle.blocks.specs.Landmarks.{Landmarks};
ghost use Rattle.blocks.specs.Parts.{opens_block, iterates};
ghost use Rattle.nesting.specs.Nest.{block_at, frames_of, FitsPasses};
ghost use Rattle.nesting.specs.Moves.{kind_of, on_at, ended_at, refused_at, Sound, Ready, weight, Moves, MovesHere, Closes, Passing, ends_block, after_block};

use crate::inputs::Inputs;
use crate::nests::{Block, Kind, Nest};
use blocks::clauses::{Chosen, block_end, choose_clause};
use blocks::ends::is_iteration;
use blocks::passes::{Over, go_over, is_over, next_after, one_less};
use directives::places::is_well_written;
use parameters::{Hand, SettledOut, settle_directive};
use rules::limits::DEEPEST;
use rules::refusal::{Fault, Refusal};
use rules::{ArgumentPosition, Directive};

// Where a run stands: the place of the text where it goes on, the steps that are left, and the arguments in hand with
// the next of them.
#[derive(Clone, Copy)]
pub struct Here {
    pub place: usize,
    pub left: usize,
    pub hand: Hand,
    pub next: ArgumentPosition,
}

// Where a move leaves a run, which goes on from there or is over: at its end, or refused.
#[derive(Clone, Copy)]
pub struct Moved {
    pub over: Option<Result<(), Fault>>,
    pub here: Here,
    pub nest: Nest,
}

impl Moved {
    pub fn on(here: Here, nest: Nest) -> Moved
        ensures { result ≡ on_at here nest }
    {
        Moved {
            over: None,
            here,
            nest,
        }
    }

    fn ended(here: Here, nest: Nest) -> Moved
        ensures { result ≡ ended_at here nest }
    {
        Moved {
            over: Some(Ok(())),
            here,
            nest,
        }
    }

    pub fn refused(refusal: Refusal, position: usize, here: Here, nest: Nest) -> Moved
        ensures { result ≡ refused_at refusal position here nest }
    {
        Moved {
            over: Some(Err(Fault { refusal, position })),
            here,
            nest,
        }
    }
}

fn iteration_kind(atsign: bool) -> Kind
    ensures { result ≡ kind_of atsign }
{
    if atsign {
        Kind::OverArguments
    } else {
        Kind::OverList
    }
}

// The iteration that d opens, whose parameters are worked out: it stands before its first pass.
fn open_iteration(
    inputs: Inputs<'_>,
    here: Here,
    nest: Nest,
    d: Directive,
    settled: SettledOut,
) -> Moved
    requires ready { Ready inputs.text.now inputs.table.now here nest d }
    requires next_le_count { settled.next.0 ≤ here.hand.count }
    requires fits_passes { FitsPasses settled.settings.first }
    ensures { (j : ℕ) → Moves inputs.entry.text.now inputs.entry.table.now (entering (levels_at inputs.entry.text.now) (view_of inputs.entry.table.now) (hand_at here.hand) here.place d d.after j here.left settled.settings settled.next.0 (frames_of (levels_at inputs.entry.text.now) nest nest.depth)) here.left (weight here nest + 2) result }
{
    let i = settled.next;
    match go_over(inputs.table, here.hand, d.atsign, i) {
        Err(refusal) => Moved::refused(refusal, here.place, here, nest),
        Ok(Over { hand, first }) => {
            let block = Block {
                kind: iteration_kind(d.atsign),
                place: here.place,
                inside: d.after,
                passes: settled.settings.first,
                hand: here.hand,
                next: next_after(d.atsign, i, i),
            };
            let before = Here {
                place: inputs.text.len(),
                hand,
                next: first,
                ..here
            };
            Moved::on(before, nest.pushed(block))
        }
    }
}

// The conditional that d opens, whose parameters are worked out: it stands at the clause that runs, or after the block.
fn open_conditional(
    inputs: Inputs<'_>,
    here: Here,
    nest: Nest,
    d: Directive,
    settled: SettledOut,
) -> Moved
    requires landmarks { Landmarks inputs.text.now inputs.marks.now }
    requires ready { Ready inputs.text.now inputs.table.now here nest d }
    requires next_le_count { settled.next.0 ≤ here.hand.count }
    ensures { (j : ℕ) → Moves inputs.entry.text.now inputs.entry.table.now (picking (levels_at inputs.entry.text.now) (view_of inputs.entry.table.now) (hand_at here.hand) here.place d d.after j here.left settled.settings settled.next.0 (frames_of (levels_at inputs.entry.text.now) nest nest.depth)) here.left (weight here nest + 2) result }
{
    let Inputs { text, marks, table } = inputs;
    match choose_clause(
        text,
        marks,
        table,
        here.hand,
        d,
        settled.settings,
        settled.next,
    ) {
        Ok(Chosen::At { place, next }) => {
            let block = Block {
                kind: Kind::Conditional,
                place: here.place,
                inside: d.after,
                passes: None,
                hand: here.hand,
                next,
            };
            let clause = Here {
                place,
                next,
                ..here
            };
            Moved::on(clause, nest.pushed(block))
        }
        Ok(Chosen::Nothing { inside, next }) => {
            let place = block_end(text, marks, d.after, inside);
            let after = Here {
                place,
                next,
                ..here
            };
            Moved::on(after, nest)
        }
        Err(refusal) => Moved::refused(refusal, here.place, here, nest),
    }
}

// The block that d opens at the place where the run stands, once a step is begun for it.
fn open_begun(inputs: Inputs<'_>, here: Here, nest: Nest, d: Directive) -> Moved
    requires landmarks { Landmarks inputs.text.now inputs.marks.now }
    requires ready { Ready inputs.text.now inputs.table.now here nest d }
    ensures { Moves inputs.entry.text.now inputs.entry.table.now (opening (iterates d.code) (levels_at inputs.entry.text.now) (view_of inputs.entry.table.now) (hand_at here.hand) here.place d d.after here.next.0 here.left (frames_of (levels_at inputs.entry.text.now) nest nest.depth)) here.left (weight here nest + 2) result }
{
    if !is_well_written(d) {
        return Moved::refused(Refusal::BadParameter, here.place, here, nest);
    }
    match settle_directive(inputs.table, here.hand, d, here.next) {
        Err(refusal) => Moved::refused(refusal, here.place, here, nest),
        Ok(settled) => {
            if is_iteration(d.code) {
                return open_iteration(inputs, here, nest, d, settled);
            }
            open_conditional(inputs, here, nest, d, settled)
        }
    }
}

// The block that d opens at the place where the run stands.
pub fn open_block(inputs: Inputs<'_>, here: Here, nest: Nest, d: Directive) -> Moved
    requires landmarks { Landmarks inputs.text.now inputs.marks.now }
    requires sound { Sound (length inputs.text.now) inputs.table.now here nest }
    requires place_value { item_at inputs.text.now here.place ≡ Written d }
    requires code_value { opens_block d.code ≡ true }
    ensures { MovesHere inputs.entry.text.now inputs.entry.table.now here nest result }
{
    if DEEPEST <= nest.depth {
        return Moved::refused(Refusal::BadBlock, here.place, here, nest);
    }
    if here.left == 0 {
        return Moved::refused(Refusal::StepLimit, here.place, here, nest);
    }
    let begun = Here {
        left: here.left - 1,
        ..here
    };
    open_begun(inputs, begun, nest, d)
}

// On after the block whose inside is at inside.
fn close(inputs: Inputs<'_>, inside: usize, here: Here, nest: Nest) -> Moved
    requires landmarks { Landmarks inputs.text.now inputs.marks.now }
    requires inside_in_bounds { inside ≤ length inputs.text.now }
    ensures { Closes inputs.entry.text.now inside here.left here.hand here.next nest result }
{
    let place = block_end(inputs.text, inputs.marks, inside, inside);
    Moved::on(Here { place, ..here }, nest)
}

// On after an iteration. The arguments in hand are those outside it again.
fn close_iteration(inputs: Inputs<'_>, here: Here, block: Block, outside: Nest) -> Moved
    requires landmarks { Landmarks inputs.text.now inputs.marks.now }
    requires passing { Passing inputs.text.now inputs.table.now here block outside }
    ensures { Moves inputs.entry.text.now inputs.entry.table.now (after_block inputs.entry.text.now inputs.entry.table.now here block outside) here.left (weight here outside + 1) result }
{
    if block.kind == Kind::OverList {
        let after = Here {
            hand: block.hand,
            next: block.next,
            ..here
        };
        return close(inputs, block.inside, after, outside);
    }
    close(inputs, block.inside, here, outside)
}

// The end of a pass of the iteration block, or what stands before its first.
fn end_pass(inputs: Inputs<'_>, here: Here, block: Block, outside: Nest) -> Moved
    requires landmarks { Landmarks inputs.text.now inputs.marks.now }
    requires passing { Passing inputs.text.now inputs.table.now here block outside }
    requires stands { block ≡ block_at outside outside.depth }
    ensures { Moves inputs.entry.text.now inputs.entry.table.now (ends_block inputs.entry.text.now inputs.entry.table.now here block outside) here.left (weight here outside + 1) result }
{
    if is_over(block.passes, here.next, here.hand) {
        return close_iteration(inputs, here, block, outside);
    }
    if here.left == 0 {
        return Moved::refused(Refusal::StepLimit, block.place, here, outside);
    }
    let inside = Here {
        place: block.inside,
        left: here.left - 1,
        ..here
    };
    Moved::on(inside, outside.reopened(one_less(block.passes)))
}

// The end of a sequence: of a clause, of a pass, or of the whole text.
pub fn end_sequence(inputs: Inputs<'_>, here: Here, nest: Nest) -> Moved
    requires landmarks { Landmarks inputs.text.now inputs.marks.now }
    requires sound { Sound (length inputs.text.now) inputs.table.now here nest }
    requires place_value { rest_at (levels_at inputs.text.now) here.place ≡ end }
    ensures { MovesHere inputs.entry.text.now inputs.entry.table.now here nest result }
{
    if nest.depth == 0 {
        return Moved::ended(here, nest);
    }
    let i = nest.depth - 1;
    let block = nest.block_at(i);
    if block.kind == Kind::Conditional {
        return close(inputs, block.inside, here, nest.cut(i));
    }
    end_pass(inputs, here, block, nest.cut(i))
}

// An escape out of the innermost iteration, or of the whole text where no iteration is open.
pub fn leave(inputs: Inputs<'_>, here: Here, nest: Nest) -> Moved
    requires landmarks { Landmarks inputs.text.now inputs.marks.now }
    requires sound { Sound (length inputs.text.now) inputs.table.now here nest }
    ensures { Moves inputs.entry.text.now inputs.entry.table.now (leaving (view_of inputs.entry.table.now) (frames_of (levels_at inputs.entry.text.now) nest nest.depth) (hand_at here.hand) here.left here.next.0) here.left (weight here nest + 1) result }
{
    for i in (0..nest.depth).rev() {
        let block = nest.block_at(i);
        if block.kind != Kind::Conditional {
            return close_iteration(inputs, here, block, nest.cut(i));
        }
    }
    Moved::ended(here, nest)
}
