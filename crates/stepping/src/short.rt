// Literal bytes and short directives, of which most texts are made, done one after another without an item for each.
ghost use Rattle.std.specs.Prelude.{◌≡◌, List, ℕ, ◌≤◌, ◌<◌, length};
ghost use Rattle.rules.specs.Table.{view_of};
ghost use Rattle.rules.specs.Text.{Level, levels_at};
ghost use Rattle.rules.specs.declared.Item.TheVariants.{Written};
ghost use Rattle.reader.specs.Shorts.{brief_of, short_form, short_at, short_directive, ShortIn};
ghost use Rattle.actions.specs.Acting.{Untouched};
ghost use Rattle.actions.specs.declared.state.Stop.TheVariants.{Ended, Escaped};
ghost use Rattle.parameters.specs.Settling.{InHand, hand_at};
ghost use Rattle.actions.specs.Ran.{Stands};
ghost use Rattle.rules.specs.Directive.{FormRight};
ghost use Rattle.running.specs.Runs.{ActsAt, Ahead, Steps, Strides};
ghost use Rattle.stepping.specs.Stepping.{WritesShort, NotShort, Unbegun, HeldUp};

use crate::items::put_literals;
use actions::acting::write_form;
use actions::direct::{put_decimal, put_run, put_text};
use actions::state::{Ran, Spot, Stand, Stop};
use parameters::{Hand, argument_at};
use reader::short::{Kind, Short, read_short};
use rules::refusal::Refusal;
use rules::{Argument, ArgumentPosition, Settings};

// A short directive that is begun, by way of its settings and its piece. It stays a call, so that what goes straight into
// the buffer has the registers.
#[inline(never)]
fn write_piece(
    spot: Spot,
    short: Short,
    table: &[u8],
    hand: Hand,
    i: ArgumentPosition,
    out: &mut [u8],
) -> Ran
    requires form_right { FormRight (short_form short.kind short.detail) }
    requires short_in { ShortIn (brief_of short.kind short.detail) short.number short.byte }
    requires in_hand { InHand table.now hand }
    requires i_le_count { i.0 ≤ hand.count }
    requires at_in_bounds { spot.at ≤ length out.old }
    ensures writes { WritesShort table.now hand i.0 short.kind short.detail short.number short.byte spot out.old out.new result }
    ensures untouched { Untouched spot i.0 out.old out.new result }
{
    let settings = Settings {
        first: short.number,
        second: short.byte.map(usize::from),
        third: None,
        fourth: None,
        fifth: None,
    };
    let form = short.form();
    write_form(spot, form, false, false, settings, table, hand, i, out)
}

// A short directive that is begun and writes its argument: a string under ~a and an integer under ~d go straight into
// the buffer.
fn write_argument(
    spot: Spot,
    short: Short,
    table: &[u8],
    hand: Hand,
    i: ArgumentPosition,
    out: &mut [u8],
) -> Ran
    requires form_right { FormRight (short_form short.kind short.detail) }
    requires short_in { ShortIn (brief_of short.kind short.detail) short.number short.byte }
    requires takes { short.kind ≡ Kind.Repeat → ⊥ }
    requires in_hand { InHand table.now hand }
    requires i_le_count { i.0 ≤ hand.count }
    requires at_in_bounds { spot.at ≤ length out.old }
    ensures writes { WritesShort table.now hand i.0 short.kind short.detail short.number short.byte spot out.old out.new result }
    ensures untouched { Untouched spot i.0 out.old out.new result }
{
    if hand.count <= i.0 {
        return spot.refuse(Refusal::NoArgument, i);
    }
    let after = ArgumentPosition(i.0 + 1);
    let width = short.number.unwrap_or(0);
    match argument_at(table, hand, i) {
        Argument::Text { start, end } if short.kind == Kind::Object && short.detail == 0 => {
            put_text(spot, width, start, end, table, i, after, out)
        }
        Argument::Integer(x) if short.kind == Kind::Numeral && short.detail == 10 => {
            put_decimal(spot, width, short.byte.unwrap_or(b' '), x, i, after, out)
        }
        _ => write_piece(spot, short, table, hand, i, out),
    }
}

// A short directive of the position p, wherever it stands.
fn act_short(p: usize, short: Short, table: &[u8], stand: Stand, out: &mut [u8]) -> Ran
    requires form_right { FormRight (short_form short.kind short.detail) }
    requires short_in { ShortIn (brief_of short.kind short.detail) short.number short.byte }
    requires stands { Stands table.now stand out.old }
    ensures steps { (s : ℕ → List Level) (n level here : ℕ) → ActsAt s here p (Written (short_directive (short_form short.kind short.detail) short.number short.byte short.after)) short.after → Ahead n here short.after → Steps s n (view_of table.now) (hand_at stand.hand) level here stand.next.0 stand.left stand.at out.old out.new result }
    ensures held { Unbegun p stand.next.0 stand.left stand.at out.old out.new result }
    ensures stays { result.stop ≡ Escaped → ⊥ }
{
    let met = Spot {
        position: p,
        place: short.after,
        left: stand.left,
        at: stand.at,
    };
    if stand.left == 0 {
        return met.refuse(Refusal::StepLimit, stand.next);
    }
    let spot = met.begin();
    if short.kind == Kind::Repeat {
        let times = short.number.unwrap_or(1);
        return put_run(spot, short.detail, times, stand.next, out);
    }
    write_argument(spot, short, table, stand.hand, stand.next, out)
}

// The short directive at p; any other item is left for the general way.
fn run_one(text: &[u8], table: &[u8], p: usize, stand: Stand, out: &mut [u8]) -> Ran
    requires stands { Stands table.now stand out.old }
    requires p_in_bounds { p ≤ length text.now }
    ensures strides { (level : ℕ) → Strides (levels_at text.now) (length text.now) (view_of table.now) (hand_at stand.hand) level p stand.next.0 stand.left stand.at out.old out.new result }
    ensures other { result.stop ≡ Ended → result.place ≡ p → (short_at text.now p ≡ None) × ((result.left ≡ stand.left) × (result.at ≡ stand.at)) }
    ensures held { HeldUp (levels_at text.now) (length text.now) (view_of table.now) (hand_at stand.hand) p stand.next.0 stand.left stand.at out.old out.new result }
    ensures stays { result.stop ≡ Escaped → ⊥ }
{
    match read_short(text, p) {
        None => Ran {
            stop: Stop::Ended,
            next: stand.next,
            left: stand.left,
            at: stand.at,
            place: p,
        },
        Some(short) => act_short(p, short, table, stand, out),
    }
}

// The literal bytes and the short directives that stand from start on, all of them unless steps or room run out.
pub fn run_short(text: &[u8], table: &[u8], start: usize, first: Stand, out: &mut [u8]) -> Ran
    requires stands { Stands table.now first out.old }
    requires start_in_bounds { start ≤ length text.now }
    ensures strides { (level : ℕ) → Strides (levels_at text.now) (length text.now) (view_of table.now) (hand_at first.hand) level start first.next.0 first.left first.at out.old out.new result }
    ensures all { result.stop ≡ Ended → 0 < result.left → result.place < length text.now → result.at < length out.old → NotShort text.now result.place }
    ensures held { HeldUp (levels_at text.now) (length text.now) (view_of table.now) (hand_at first.hand) start first.next.0 first.left first.at out.old out.new result }
    ensures stays { result.stop ≡ Escaped → ⊥ }
{
    let mut p = start;
    let hand = first.hand;
    let mut next = first.next;
    let mut left = first.left;
    let mut at = first.at;
    // no `for`: each turn goes on where the one before it stopped in the text
    loop {
        let k = put_literals(text, p, left, out, at);
        p += k;
        let met = Stand {
            hand,
            next,
            left: left - k,
            at: at + k,
        };
        let r = run_one(text, table, p, met, out);
        if r.stop != Stop::Ended {
            return r;
        }
        if r.place == p {
            return r;
        }
        next = r.next;
        left = r.left;
        at = r.at;
        p = r.place;
    }
}
