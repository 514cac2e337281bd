// What a directive does that writes a text or jumps: what is planned is put, or the next argument is another.
ghost use Rattle.std.specs.Prelude.{◌≡◌, List, ℕ, ◌≤◌, ◌<◌, length};
ghost use Rattle.rules.specs.Directive.{FormRight};
ghost use Rattle.rules.specs.Table.{Value, view_of};
ghost use Rattle.rules.specs.Working.{WellSet, source_of as source_in};
ghost use Rattle.rules.specs.Act.{jump_to, jump as jumping};
ghost use Rattle.rules.specs.Run.{put, joined, write_from, item_acts};
ghost use Rattle.rules.specs.declared.Item.TheVariants.{Written};
ghost use Rattle.pieces.specs.Bytes.{Good, bytes_of};
ghost use Rattle.parameters.specs.Settling.{InHand, hand_at};
ghost use Rattle.actions.specs.Acting.{JumpSet, Performed, Untouched};

use crate::planning::{Plan, plan_settled};
use crate::state::{Ran, Spot};
use directives::places::is_well_written;
use making::making::make_piece;
use parameters::{Hand, SettledOut, settle_directive};
use pieces::Piece;
use pieces::writing::{piece_length, write_whole};
use rules::refusal::Refusal;
use rules::{ArgumentPosition, Code, Directive, Form, Settings};

// A piece put whole at the end of what is written, or refused for want of room.
fn put_piece(
    spot: Spot,
    piece: Piece,
    table: &[u8],
    count: usize,
    before: ArgumentPosition,
    next: ArgumentPosition,
    out: &mut [u8],
) -> Ran
    requires good { Good table.now piece }
    requires at_in_bounds { spot.at ≤ length out.old }
    requires before_le_count { (before.0 ≤ count) × (next.0 ≤ count) }
    ensures puts { Performed (λ on. put spot.position spot.left (bytes_of table.now piece) (on next.0)) count spot out.old out.new result }
    ensures untouched { Untouched spot before.0 out.old out.new result }
{
    let at = spot.at;
    let n = piece_length(piece);
    if n <= out.len() - at {
        let end = at + n;
        write_whole(piece, table, &mut out[at..end]);
        return spot.go_on(next, end);
    }
    spot.refuse(Refusal::NoRoom, before)
}

// The piece of a directive whose parameters are worked out.
pub fn write_form(
    spot: Spot,
    form: Form,
    colon: bool,
    atsign: bool,
    settings: Settings,
    table: &[u8],
    hand: Hand,
    i: ArgumentPosition,
    out: &mut [u8],
) -> Ran
    requires well_set { WellSet form settings }
    requires in_hand { InHand table.now hand }
    requires at_in_bounds { spot.at ≤ length out.old }
    requires i_le_count { i.0 ≤ hand.count }
    ensures writes { (d : Directive) → d.colon ≡ colon → d.atsign ≡ atsign → Performed (λ on. write_from (view_of table.now) spot.position spot.left form d (hand_at hand 0) settings i.0 on (source_in form colon settings)) hand.count spot out.old out.new result }
    ensures untouched { Untouched spot i.0 out.old out.new result }
{
    match plan_settled(form, colon, settings, table, hand, i) {
        Ok(
            Plan {
                settings: shown,
                argument,
                next,
            },
        ) => {
            let piece = make_piece(form, colon, atsign, shown, argument, table);
            put_piece(spot, piece, table, hand.count, i, next, out)
        }
        Err(refusal) => spot.refuse(refusal, i),
    }
}

// On with argument k, if it lies from 0 to the count.
fn jump_to(spot: Spot, k: usize, count: usize, i: ArgumentPosition) -> Ran
    requires { i.0 ≤ count }
    ensures { (value : ℕ → Value) (b : List ℕ) → spot.at ≤ length b → Performed (λ on. joined value spot.position spot.left (jump_to count k) on) count spot b b result }
{
    if k <= count {
        return spot.go_on(ArgumentPosition(k), spot.at);
    }
    spot.refuse(Refusal::NoArgument, i)
}

// A jump whose parameter is worked out.
fn jump(spot: Spot, d: Directive, settings: Settings, count: usize, i: ArgumentPosition) -> Ran
    requires jump_set { JumpSet settings }
    requires i_le_count { (i.0 ≤ count) × (count ≤ 1024) }
    ensures { (value : ℕ → Value) (b : List ℕ) → spot.at ≤ length b → Performed (λ on. joined value spot.position spot.left (jumping count d settings i.0) on) count spot b b result }
{
    if d.atsign {
        return jump_to(spot, settings.first.unwrap_or(0), count, i);
    }
    let n = settings.first.unwrap_or(1);
    if !d.colon {
        return jump_to(spot, i.0 + n, count, i);
    }
    if i.0 < n {
        return spot.refuse(Refusal::NoArgument, i);
    }
    jump_to(spot, i.0 - n, count, i)
}

// What a directive of a form does once it is begun. A plan from plan_form comes back through memory, and a line of
// such directives takes a sixth longer: so the settings go straight to write_form.
pub fn act_form(
    spot: Spot,
    form: Form,
    d: Directive,
    table: &[u8],
    hand: Hand,
    next: ArgumentPosition,
    out: &mut [u8],
) -> Ran
    requires code_value { d.code ≡ Code.Writes form }
    requires form_right { FormRight form }
    requires in_hand { InHand table.now hand }
    requires at_in_bounds { spot.at ≤ length out.old }
    requires next_le_count { next.0 ≤ hand.count }
    ensures { Performed (λ on. item_acts (view_of table.now) spot.position spot.left (Written d) (hand_at hand next.0) on) hand.count spot out.old out.new result }
{
    if !is_well_written(d) {
        return spot.refuse(Refusal::BadParameter, next);
    }
    match settle_directive(table, hand, d, next) {
        Ok(SettledOut { settings, next: i }) => write_form(
            spot, form, d.colon, d.atsign, settings, table, hand, i, out,
        ),
        Err(refusal) => spot.refuse(refusal, next),
    }
}

// What a jump does once it is begun.
pub fn act_jump(spot: Spot, d: Directive, table: &[u8], hand: Hand, next: ArgumentPosition) -> Ran
    requires code_value { d.code ≡ Code.Jump }
    requires in_hand { InHand table.now hand }
    requires next_le_count { next.0 ≤ hand.count }
    ensures { (b : List ℕ) → spot.at ≤ length b → Performed (λ on. item_acts (view_of table.now) spot.position spot.left (Written d) (hand_at hand next.0) on) hand.count spot b b result }
{
    if !is_well_written(d) {
        return spot.refuse(Refusal::BadParameter, next);
    }
    match settle_directive(table, hand, d, next) {
        Ok(SettledOut { settings, next: i }) => jump(spot, d, settings, hand.count, i),
        Err(refusal) => spot.refuse(refusal, next),
    }
}
