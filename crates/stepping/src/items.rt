// The parts of a run that open no block: a literal byte, and a directive that acts alone.
ghost use Rattle.std.specs.Prelude.{◌≡◌, List, ℕ, ◌+◌, ◌≤◌, ◌<◌, length, get_or};
ghost use Rattle.rules.specs.Letters.{letter};
ghost use Rattle.rules.specs.Table.{View, view_of};
ghost use Rattle.rules.specs.Text.{Level};
ghost use Rattle.rules.specs.declared.Item.TheVariants.{Literal};
ghost use Rattle.parameters.specs.Settling.{hand_at};
ghost use Rattle.actions.specs.Ran.{Stands};
ghost use Rattle.running.specs.Runs.{ActsAt, AloneAt, Ahead, Steps};
ghost use Rattle.stepping.specs.Stepping.{escaped, ActsAlone, PutsLiterals};

use actions::acting::{act_form, act_jump};
use actions::state::{Ran, Spot, Stand, Stop};
use parameters::Hand;
use rules::refusal::Refusal;
use rules::{ArgumentPosition, Code, Directive};

// A literal byte of the position p, wherever it stands: the place may be one of the text or of what it was read into.
pub fn put_literal(p: usize, byte: u8, stand: Stand, out: &mut [u8]) -> Ran
    requires next_le_count { stand.next.0 ≤ stand.hand.count }
    requires at_in_bounds { stand.at ≤ length out.old }
    requires p_bound { p < 18446744073709551615 }
    ensures { (s : ℕ → List Level) (n : ℕ) (v : View) (level here : ℕ) → ActsAt s here p (Literal byte) (p + 1) → Ahead n here (p + 1) → Steps s n v (hand_at stand.hand) level here stand.next.0 stand.left stand.at out.old out.new result }
{
    let met = Spot {
        position: p,
        place: p + 1,
        left: stand.left,
        at: stand.at,
    };
    if stand.left == 0 {
        return met.refuse(Refusal::StepLimit, stand.next);
    }
    let spot = met.begin();
    if out.len() <= stand.at {
        return spot.refuse(Refusal::NoRoom, stand.next);
    }
    out[stand.at] = byte;
    spot.go_on(stand.next, stand.at + 1)
}

// Literal bytes from p on, as many as stand there and as steps and room allow. Answers how many.
pub fn put_literals(text: &[u8], p: usize, left: usize, out: &mut [u8], at: usize) -> usize
    requires p_in_bounds { p ≤ length text.now }
    requires at_in_bounds { at ≤ length out.old }
    ensures puts { PutsLiterals text.now p left at out.old out.new result }
    ensures all { result < left → p + result < length text.now → at + result < length out.old → get_or text.now (p + result) 0 ≡ letter "~" }
{
    // the least bound first, so that a turn of the loop asks it and the byte alone
    let most = left.min(text.len() - p).min(out.len() - at);
    for k in 0..most {
        let byte = text[p + k];
        if byte == b'~' {
            return k;
        }
        out[at + k] = byte;
    }
    most
}

// An escape that is begun.
fn escape(spot: Spot, hand: Hand, next: ArgumentPosition) -> Ran
    ensures { result ≡ escaped spot hand.count next.0 }
{
    if hand.count <= next.0 {
        return Ran {
            stop: Stop::Escaped,
            next,
            left: spot.left,
            at: spot.at,
            place: spot.place,
        };
    }
    spot.go_on(next, spot.at)
}

// A directive of the position p that opens no block and ends no sequence, wherever it stands.
pub fn act(p: usize, d: Directive, table: &[u8], stand: Stand, out: &mut [u8]) -> Ran
    requires acts_alone { ActsAlone d.code }
    requires stands { Stands table.now stand out.old }
    ensures { (s : ℕ → List Level) (n level here : ℕ) → AloneAt s here p d d.code → Ahead n here d.after → Steps s n (view_of table.now) (hand_at stand.hand) level here stand.next.0 stand.left stand.at out.old out.new result }
{
    let met = Spot {
        position: p,
        place: d.after,
        left: stand.left,
        at: stand.at,
    };
    if stand.left == 0 {
        return met.refuse(Refusal::StepLimit, stand.next);
    }
    let spot = met.begin();
    match d.code {
        Code::Writes(form) => act_form(spot, form, d, table, stand.hand, stand.next, out),
        Code::Jump => act_jump(spot, d, table, stand.hand, stand.next),
        _ => escape(spot, stand.hand, stand.next),
    }
}
