// The runners. The runner of a sequence calls the runners of blocks and is called by them: the levels left for blocks
// fall at each block, and the text or the steps that are left fall in each turn of a loop. All of them have the landmarks
// of the text, if it has any.
ghost use Rattle.std.specs.Prelude.{◌≡◌, true, false, ℕ, ◌≤◌, length};
ghost use Rattle.rules.specs.Directive.{item_at};
ghost use Rattle.rules.specs.Table.{view_of};
ghost use Rattle.rules.specs.Text.{levels_at};
ghost use Rattle.rules.specs.declared.Item.TheVariants.{Written};
ghost use Rattle.parameters.specs.Settling.{InHand, hand_at};
ghost use Rattle.actions.specs.Ran.{Stands};
ghost use Rattle.running.specs.Runs.{Runs, Steps, Blocks, Passes, RunsClause, EndsBlock, picking, entering, opening};
ghost use Rattle.blocks.specs.Clauses.{InsideAt};
ghost use Rattle.blocks.specs.Landmarks.{Landmarks};
ghost use Rattle.blocks.specs.Parts.{ends_at, opens_block, iterates};
ghost use Rattle.engine.specs.Runners.{ItemAfter, LeavesPasses, spot_at};

use actions::state::{Ran, Spot, Stand, Stop};
use blocks::clauses::{Chosen, block_end, choose_clause};
use blocks::ends::{element_at, ends_here, is_iteration, opens_block};
use blocks::landmarks::Landmark;
use blocks::passes::{Over, go_over, is_over, next_after, one_less};
use directives::places::is_well_written;
use parameters::{Hand, SettledOut, settle_directive};
use rules::refusal::Refusal;
use rules::{ArgumentPosition, Directive, Item, Setting, Settings};
use stepping::items::{act, put_literal};
use stepping::short::run_short;

// The sequence that is read at start, with level levels left for blocks.
#[cycle(runs)]
pub fn run_sequence(
    text: &[u8],
    marks: &[Landmark],
    table: &[u8],
    level: usize,
    start: usize,
    first: Stand,
    out: &mut [u8],
) -> Ran
    requires landmarks { Landmarks text.now marks.now }
    requires stands { Stands table.now first out.old }
    requires start_in_bounds { start ≤ length text.now }
    ensures { Runs (levels_at text.now) (length text.now) (view_of table.now) (hand_at first.hand) level start first.next.0 first.left first.at out.old out.new result }
{
    let hand = first.hand;
    let mut p = start;
    let mut next = first.next;
    let mut left = first.left;
    let mut at = first.at;
    // no `for`: each turn goes on where the one before it stopped in the text
    loop {
        let stand = Stand {
            hand,
            next,
            left,
            at,
        };
        let s = run_short(text, table, p, stand, out);
        let item = item_after(text, s);
        if ends_here(item) {
            return s;
        }
        let met = Stand {
            hand,
            next: s.next,
            left: s.left,
            at: s.at,
        };
        let r = run_item(text, marks, table, level, s.place, item, met, out);
        if r.stop != Stop::Ended {
            return r;
        }
        next = r.next;
        left = r.left;
        at = r.at;
        p = r.place;
    }
}

// The item at which s ended. It is said to be the end of the text where s did not end.
fn item_after(text: &[u8], s: Ran) -> Item
    ensures { ItemAfter text.now s result }
{
    if s.stop != Stop::Ended {
        return Item::End;
    }
    element_at(text, s.place)
}

// A directive of the position, met or begun with so many steps left and so much written, and a place that goes with it.
fn spot_at(position: usize, place: usize, left: usize, at: usize) -> Spot
    ensures { result ≡ spot_at position place left at }
{
    Spot {
        position,
        place,
        left,
        at,
    }
}

// The item at p, which does not end its sequence.
#[cycle(runs)]
fn run_item(
    text: &[u8],
    marks: &[Landmark],
    table: &[u8],
    level: usize,
    p: usize,
    item: Item,
    stand: Stand,
    out: &mut [u8],
) -> Ran
    requires landmarks { Landmarks text.now marks.now }
    requires stands { Stands table.now stand out.old }
    requires p_value { item_at text.now p ≡ item }
    requires item_value { ends_at item ≡ false }
    ensures { Steps (levels_at text.now) (length text.now) (view_of table.now) (hand_at stand.hand) level p stand.next.0 stand.left stand.at out.old out.new result }
{
    match item {
        Item::Literal(byte) => put_literal(p, byte, stand, out),
        Item::Written(d) => {
            if opens_block(d.code) {
                return run_block(text, marks, table, level, p, d, stand, out);
            }
            act(p, d, table, stand, out)
        }
        _ => spot_at(p, p, stand.left, stand.at).refuse(Refusal::BadBlock, stand.next),
    }
}

// The block that d opens at p.
#[cycle(runs)]
fn run_block(
    text: &[u8],
    marks: &[Landmark],
    table: &[u8],
    level: usize,
    p: usize,
    d: Directive,
    stand: Stand,
    out: &mut [u8],
) -> Ran
    requires landmarks { Landmarks text.now marks.now }
    requires stands { Stands table.now stand out.old }
    requires p_value { item_at text.now p ≡ Written d }
    requires code_value { opens_block d.code ≡ true }
    ensures { Steps (levels_at text.now) (length text.now) (view_of table.now) (hand_at stand.hand) level p stand.next.0 stand.left stand.at out.old out.new result }
{
    let spot = spot_at(p, d.after, stand.left, stand.at);
    if level == 0 {
        return spot.refuse(Refusal::BadBlock, stand.next);
    }
    if stand.left == 0 {
        return spot.refuse(Refusal::StepLimit, stand.next);
    }
    let begun = spot.begin();
    run_opened(
        text,
        marks,
        table,
        level - 1,
        begun,
        d,
        stand.hand,
        stand.next,
        out,
    )
}

// The block that d opens, once it is begun: its parameters are worked out, for either bracket.
#[cycle(runs)]
fn run_opened(
    text: &[u8],
    marks: &[Landmark],
    table: &[u8],
    level: usize,
    spot: Spot,
    d: Directive,
    hand: Hand,
    next: ArgumentPosition,
    out: &mut [u8],
) -> Ran
    requires landmarks { Landmarks text.now marks.now }
    requires in_hand { InHand table.now hand }
    requires next_le_count { next.0 ≤ hand.count }
    requires after_in_bounds { d.after ≤ length text.now }
    requires at_in_bounds { spot.at ≤ length out.old }
    ensures { Blocks (levels_at text.now) (length text.now) (view_of table.now) (hand_at hand) level d.after (opening (iterates d.code) (levels_at text.now) (view_of table.now) (hand_at hand) spot.position d d.after next.0 spot.left) spot.left spot.at out.old out.new result }
{
    if !is_well_written(d) {
        return spot.refuse(Refusal::BadParameter, next);
    }
    match settle_directive(table, hand, d, next) {
        Err(refusal) => spot.refuse(refusal, next),
        Ok(SettledOut { settings, next: i }) => {
            if is_iteration(d.code) {
                return run_iteration(text, marks, table, level, spot, d, settings, hand, i, out);
            }
            run_conditional(text, marks, table, level, spot, d, settings, hand, i, out)
        }
    }
}

// The conditional d, whose parameters are worked out.
#[cycle(runs)]
fn run_conditional(
    text: &[u8],
    marks: &[Landmark],
    table: &[u8],
    level: usize,
    spot: Spot,
    d: Directive,
    settings: Settings,
    hand: Hand,
    i: ArgumentPosition,
    out: &mut [u8],
) -> Ran
    requires landmarks { Landmarks text.now marks.now }
    requires in_hand { InHand table.now hand }
    requires i_le_count { i.0 ≤ hand.count }
    requires after_in_bounds { d.after ≤ length text.now }
    requires at_in_bounds { spot.at ≤ length out.old }
    ensures { (j : ℕ) → Blocks (levels_at text.now) (length text.now) (view_of table.now) (hand_at hand) level d.after (picking (levels_at text.now) (view_of table.now) (hand_at hand) spot.position d d.after j spot.left settings i.0) spot.left spot.at out.old out.new result }
{
    let chosen = choose_clause(text, marks, table, hand, d, settings, i);
    match chosen {
        Ok(Chosen::At { place, next: j }) => {
            let stand = Stand {
                hand,
                next: j,
                left: spot.left,
                at: spot.at,
            };
            run_clause(text, marks, table, level, d.after, place, stand, out)
        }
        Ok(Chosen::Nothing { inside, next: j }) => {
            end_block(text, marks, spot, d.after, inside, j)
        }
        Err(refusal) => spot.refuse(refusal, i),
    }
}

// On after the block whose inside is at q, in which known stands, with nothing written.
fn end_block(
    text: &[u8],
    marks: &[Landmark],
    spot: Spot,
    q: usize,
    known: usize,
    next: ArgumentPosition,
) -> Ran
    requires landmarks { Landmarks text.now marks.now }
    requires inside_at { InsideAt text.now q known }
    ensures { EndsBlock (levels_at text.now) (length text.now) spot q next.0 result }
{
    Ran {
        stop: Stop::Ended,
        next,
        left: spot.left,
        at: spot.at,
        place: block_end(text, marks, q, known),
    }
}

// The clause at z of the block whose inside is at q.
#[cycle(runs)]
fn run_clause(
    text: &[u8],
    marks: &[Landmark],
    table: &[u8],
    level: usize,
    q: usize,
    z: usize,
    stand: Stand,
    out: &mut [u8],
) -> Ran
    requires landmarks { Landmarks text.now marks.now }
    requires stands { Stands table.now stand out.old }
    requires inside_at { InsideAt text.now q z }
    ensures { RunsClause (levels_at text.now) (length text.now) (view_of table.now) (hand_at stand.hand) level q z stand.next.0 stand.left stand.at out.old out.new result }
{
    let r = run_sequence(text, marks, table, level, z, stand, out);
    if r.stop != Stop::Ended {
        return r;
    }
    Ran {
        place: block_end(text, marks, q, r.place),
        ..r
    }
}

// The iteration d, whose parameters are worked out.
#[cycle(runs)]
fn run_iteration(
    text: &[u8],
    marks: &[Landmark],
    table: &[u8],
    level: usize,
    spot: Spot,
    d: Directive,
    settings: Settings,
    hand: Hand,
    i: ArgumentPosition,
    out: &mut [u8],
) -> Ran
    requires landmarks { Landmarks text.now marks.now }
    requires in_hand { InHand table.now hand }
    requires i_le_count { i.0 ≤ hand.count }
    requires after_in_bounds { d.after ≤ length text.now }
    requires at_in_bounds { spot.at ≤ length out.old }
    ensures { (j : ℕ) → Blocks (levels_at text.now) (length text.now) (view_of table.now) (hand_at hand) level d.after (entering (levels_at text.now) (view_of table.now) (hand_at hand) spot.position d d.after j spot.left settings i.0) spot.left spot.at out.old out.new result }
{
    let over = go_over(table, hand, d.atsign, i);
    match over {
        Err(refusal) => spot.refuse(refusal, i),
        Ok(Over { hand: inner, first }) => {
            let stand = Stand {
                hand: inner,
                next: first,
                left: spot.left,
                at: spot.at,
            };
            // the passes are called at one place: a second one would take as much stack again
            let r = run_passes(
                text,
                marks,
                table,
                level,
                spot.position,
                d.after,
                settings.first,
                stand,
                out,
            );
            Ran {
                next: next_after(d.atsign, r.next, i),
                ..r
            }
        }
    }
}

// The passes of the iteration at p whose inside is at q. Where they stand is said by a spot whose place is one in the
// block.
#[cycle(runs)]
fn run_passes(
    text: &[u8],
    marks: &[Landmark],
    table: &[u8],
    level: usize,
    p: usize,
    q: usize,
    limit: Setting,
    first: Stand,
    out: &mut [u8],
) -> Ran
    requires landmarks { Landmarks text.now marks.now }
    requires stands { Stands table.now first out.old }
    requires q_in_bounds { q ≤ length text.now }
    ensures { Passes (levels_at text.now) (length text.now) (view_of table.now) (hand_at first.hand) level p q first.next.0 limit first.left first.at out.old out.new result }
{
    let hand = first.hand;
    let mut passes = limit;
    let mut next = first.next;
    let mut on = spot_at(p, q, first.left, first.at);
    // no `for`: how many passes there are depends on what each of them takes
    loop {
        if is_over(passes, next, hand) {
            return end_block(text, marks, on, q, on.place, next);
        }
        if on.left == 0 {
            return on.refuse(Refusal::StepLimit, next);
        }
        let begun = on.begin();
        let stand = Stand {
            hand,
            next,
            left: begun.left,
            at: begun.at,
        };
        let r = run_sequence(text, marks, table, level, q, stand, out);
        if r.stop != Stop::Ended {
            return leave_passes(text, marks, q, on.place, r);
        }
        passes = one_less(passes);
        next = r.next;
        on = spot_at(on.position, r.place, r.left, r.at);
    }
}

// What the passes of the iteration whose inside is at q answer after one that did not end: an escape leaves them, and the
// text goes on after the block, in which known stands.
fn leave_passes(text: &[u8], marks: &[Landmark], q: usize, known: usize, r: Ran) -> Ran
    requires landmarks { Landmarks text.now marks.now }
    requires inside_at { InsideAt text.now q known }
    ensures { LeavesPasses (levels_at text.now) (length text.now) q r result }
{
    match r.stop {
        Stop::Escaped => end_block(text, marks, spot_at(q, q, r.left, r.at), q, known, r.next),
        _ => r,
    }
}
