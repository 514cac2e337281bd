// What stands at a place of the text: literal bytes and short directives as far as there is room, and then one item.
ghost use Rattle.std.specs.Prelude.{◌≡◌, false, List, ℕ, ◌≤◌, ◌<◌, length};
ghost use Rattle.rules.specs.Directive.{item_at};
ghost use Rattle.rules.specs.declared.Item.TheVariants.{Written};
ghost use Rattle.parameters.specs.Settling.{InHand};
ghost use Rattle.blocks.specs.Landmarks.{Landmarks, Marks};
ghost use Rattle.blocks.specs.Parts.{ends_sequence};
ghost use Rattle.nesting.specs.Moves.{Sound, MovesHere};
ghost use Rattle.filling.specs.Filling.{Puts};
ghost use Rattle.filling.specs.Steps.{Standing, StepsFrom, reach_of, moved_step, unheld, RunsAhead, is_on};

use crate::giving::{NO_REST, Progress, Put, Reach, give_byte, give_form};
use actions::acting::act_jump;
use actions::state::{Ran, Spot, Stand, Stop};
use blocks::ends::{element_at, ends_here};
use blocks::landmarks::{Landmark, mark_text};
use nesting::inputs::Inputs;
use nesting::moves::{Here, Moved, end_sequence, leave, open_block};
use nesting::nests::Nest;
use rules::refusal::{Fault, Refusal};
use rules::{Code, Directive, Item};
use stepping::short::run_short;

// How a step leaves a run and its open blocks.
#[derive(Clone, Copy)]
pub struct Step {
    pub put: Put,
    pub nest: Nest,
}

fn reach_of(over: Option<Result<(), Fault>>) -> Reach
    ensures { result ≡ reach_of over }
{
    match over {
        None => Reach::On,
        Some(end) => Reach::Over(end),
    }
}

// A move, which writes nothing.
fn moved_step(r: Moved, progress: Progress) -> Step
    ensures { result ≡ moved_step r progress.given progress.at }
{
    Step {
        put: Put {
            reach: reach_of(r.over),
            progress: Progress {
                here: r.here,
                ..progress
            },
            rest: NO_REST,
        },
        nest: r.nest,
    }
}

// A run of short directives that found no room stands before the one that needs it.
fn unhold(r: Ran) -> Ran
    requires { r.left ≤ 65536 }
    ensures { result ≡ unheld r }
{
    match r.stop {
        Stop::Refused(
            Fault {
                refusal: Refusal::NoRoom,
                position,
            },
        ) => Ran {
            stop: Stop::Ended,
            left: r.left + 1,
            place: position,
            ..r
        },
        _ => r,
    }
}

// The literal bytes and short directives for which there is room, unless bytes of what comes are given already.
fn run_ahead(text: &[u8], table: &[u8], progress: Progress, window: &mut [u8]) -> Ran
    requires in_hand { InHand table.now progress.here.hand }
    requires next_le_count { progress.here.next.0 ≤ progress.here.hand.count }
    requires place_in_bounds { progress.here.place ≤ length text.now }
    requires left_bound { progress.here.left ≤ 65536 }
    requires at_in_bounds { progress.at ≤ length window.old }
    ensures { RunsAhead text.now table.now progress.here progress.given progress.at window.old window.new result }
{
    let Progress { here, given, at } = progress;
    let Here {
        place,
        left,
        hand,
        next,
    } = here;
    if given == 0 {
        let stand = Stand {
            hand,
            next,
            left,
            at,
        };
        return unhold(run_short(text, table, place, stand, window));
    }
    Ran {
        stop: Stop::Ended,
        next,
        left,
        at,
        place,
    }
}

// A jump at the place where the run stands.
fn jump(d: Directive, table: &[u8], progress: Progress) -> Put
    requires code_value { d.code ≡ Code.Jump }
    requires in_hand { InHand table.now progress.here.hand }
    requires next_le_count { progress.here.next.0 ≤ progress.here.hand.count }
    ensures { (t b : List ℕ) → progress.at ≤ length b → Puts t table.now (Written d) d.after progress.here progress.given progress.at b b result }
{
    let Progress { here, given, at } = progress;
    if here.left == 0 {
        return Put::refused(Refusal::StepLimit, here.place, here, at);
    }
    let spot = Spot {
        position: here.place,
        place: d.after,
        left: here.left - 1,
        at: 0,
    };
    let r = act_jump(spot, d, table, here.hand, here.next);
    let there = Here {
        place: d.after,
        left: r.left,
        hand: here.hand,
        next: r.next,
    };
    match r.stop {
        Stop::Refused(fault) => Put::over(Err(fault), there, at),
        _ => Put::on(there, given, at),
    }
}

// An escape at the place where the run stands.
fn escape(inputs: Inputs<'_>, here: Here, nest: Nest, d: Directive) -> Moved
    requires landmarks { Landmarks inputs.text.now inputs.marks.now }
    requires sound { Sound (length inputs.text.now) inputs.table.now here nest }
    requires place_value { item_at inputs.text.now here.place ≡ Written d }
    requires code_value { d.code ≡ Code.Escape }
    ensures { MovesHere inputs.entry.text.now inputs.entry.table.now here nest result }
{
    if here.left == 0 {
        return Moved::refused(Refusal::StepLimit, here.place, here, nest);
    }
    let begun = Here {
        place: d.after,
        left: here.left - 1,
        ..here
    };
    if here.hand.count <= here.next.0 {
        return leave(inputs, begun, nest);
    }
    Moved::on(begun, nest)
}

// The directive d at the place where the run stands.
fn step_directive(
    inputs: Inputs<'_>,
    progress: Progress,
    nest: Nest,
    d: Directive,
    window: &mut [u8],
) -> Step
    requires landmarks { Landmarks inputs.text.now inputs.marks.now }
    requires standing { Standing inputs.text.now inputs.table.now progress.here nest progress.at window.old }
    requires place_value { item_at inputs.text.now progress.here.place ≡ Written d }
    requires code_value { ends_sequence d.code ≡ false }
    ensures { StepsFrom inputs.entry.text.now inputs.entry.table.now progress nest window.old window.new result }
{
    match d.code {
        Code::Writes(form) => Step {
            put: give_form(form, d, inputs.table, progress, window),
            nest,
        },
        Code::Jump => Step {
            put: jump(d, inputs.table, progress),
            nest,
        },
        Code::Opens(_) => moved_step(open_block(inputs, progress.here, nest, d), progress),
        _ => moved_step(escape(inputs, progress.here, nest, d), progress),
    }
}

// The item at the place where the run stands.
fn step_item(inputs: Inputs<'_>, progress: Progress, nest: Nest, window: &mut [u8]) -> Step
    requires landmarks { Landmarks inputs.text.now inputs.marks.now }
    requires standing { Standing inputs.text.now inputs.table.now progress.here nest progress.at window.old }
    ensures { StepsFrom inputs.entry.text.now inputs.entry.table.now progress nest window.old window.new result }
{
    let here = progress.here;
    let item = element_at(inputs.text, here.place);
    if ends_here(item) {
        return moved_step(end_sequence(inputs, here, nest), progress);
    }
    match item {
        Item::Literal(byte) => Step {
            put: give_byte(byte, progress, window),
            nest,
        },
        Item::Written(d) => step_directive(inputs, progress, nest, d, window),
        _ => Step {
            put: Put::refused(Refusal::BadBlock, here.place, here, progress.at),
            nest,
        },
    }
}

// One step: what is short, and then one item.
fn advance(inputs: Inputs<'_>, progress: Progress, nest: Nest, window: &mut [u8]) -> Step
    requires landmarks { Landmarks inputs.text.now inputs.marks.now }
    requires standing { Standing inputs.text.now inputs.table.now progress.here nest progress.at window.old }
    ensures { StepsFrom inputs.entry.text.now inputs.entry.table.now progress nest window.old window.new result }
{
    let r = run_ahead(inputs.text, inputs.table, progress, window);
    let here = Here {
        place: r.place,
        left: r.left,
        hand: progress.here.hand,
        next: r.next,
    };
    match r.stop {
        Stop::Refused(fault) => Step {
            put: Put::over(Err(fault), here, r.at),
            nest,
        },
        _ => {
            let ahead = Progress {
                here,
                at: r.at,
                ..progress
            };
            step_item(inputs, ahead, nest, window)
        }
    }
}

fn is_on(reach: Reach) -> bool
    ensures { result ≡ is_on reach }
{
    matches!(reach, Reach::On)
}

// In which turn the landmarks of a long text begin to pay.
const MANY: usize = 64;

// Lays the landmarks in that turn, and counts it.
fn lay_in_time(text: &[u8], marks: &mut [Landmark], turns: usize) -> usize
    requires { Landmarks text.now marks.old }
    ensures { Marks text.now marks.old marks.new }
{
    if MANY <= turns {
        return turns;
    }
    if turns + 1 == MANY {
        mark_text(text, marks);
    }
    turns + 1
}

// Steps until the run is over or the next byte has no room.
pub fn fill_window(
    text: &[u8],
    marks: &mut [Landmark],
    table: &[u8],
    start: Progress,
    blocks: Nest,
    window: &mut [u8],
) -> Step
    requires landmarks { Landmarks text.now marks.old }
    requires standing { Standing text.now table.now start.here blocks start.at window.old }
    ensures fills { StepsFrom text.now table.now start blocks window.old window.new result }
    ensures stops { is_on result.put.reach ≡ false }
{
    let mut progress = start;
    let mut nest = blocks;
    let mut turns: usize = 0;
    // no `for`: each turn goes on where the one before it left the run
    loop {
        let inputs = Inputs { text, marks, table };
        let step = advance(inputs, progress, nest, window);
        if !is_on(step.put.reach) {
            return step;
        }
        progress = step.put.progress;
        nest = step.nest;
        turns = lay_in_time(text, marks, turns);
    }
}
