// A piece that goes into the window, or as much of it as there is room for.
ghost use Rattle.std.specs.Prelude.{◌≡◌, List, ℕ, ◌+◌, ◌-◌, ◌≤◌, ◌<◌, length};
ghost use Rattle.rules.specs.Directive.{FormRight};
ghost use Rattle.rules.specs.declared.Item.TheVariants.{Literal, Written};
ghost use Rattle.pieces.specs.Bytes.{Good, bytes_of};
ghost use Rattle.pieces.specs.declared.Content.TheVariants.{Quoted};
ghost use Rattle.parameters.specs.Settling.{InHand};
ghost use Rattle.filling.specs.Filling.{put_at, put_on, put_over, put_refused, put_full, Puts, Given};

use actions::planning::{Plan, plan_form};
use making::making::make_piece;
use nesting::moves::Here;
use pieces::resuming::{QuoteRest, quote_rest, write_rest};
use pieces::writing::{piece_length, write_part, write_whole};
use pieces::{Content, Piece};
use rules::refusal::{Fault, Refusal};
use rules::{Code, Directive, Form};

// How far a step came: the run goes on, it is over, at its end or refused, or the next byte has no room. Three cases, of
// which a Result inside an Option would be no plainer.
#[derive(Clone, Copy)]
pub enum Reach {
    On,
    Over(Result<(), Fault>),
    Full,
}

// How far a run has come: where it stands, the bytes of what comes from there that are given already, and the end of what
// is written.
#[derive(Clone, Copy)]
pub struct Progress {
    pub here: Here,
    pub given: usize,
    pub at: usize,
}

// How a step leaves a run, and what is left of a string in quotes, which comes before all else.
#[derive(Clone, Copy)]
pub struct Put {
    pub reach: Reach,
    pub progress: Progress,
    pub rest: QuoteRest,
}

// Nothing is left of a string.
pub const NO_REST: QuoteRest = QuoteRest {
    stage: 0,
    before: 0,
    start: 0,
    end: 0,
    behind: 0,
    pad: 0,
};

impl Put {
    fn at(reach: Reach, here: Here, given: usize, at: usize) -> Put
        ensures { result ≡ put_at reach here given at }
    {
        Put {
            reach,
            progress: Progress { here, given, at },
            rest: NO_REST,
        }
    }

    pub fn on(here: Here, given: usize, at: usize) -> Put
        ensures { result ≡ put_on here given at }
    {
        Put::at(Reach::On, here, given, at)
    }

    fn full(here: Here, given: usize, at: usize) -> Put
        ensures { result ≡ put_full here given at }
    {
        Put::at(Reach::Full, here, given, at)
    }

    pub fn over(end: Result<(), Fault>, here: Here, at: usize) -> Put
        ensures { result ≡ put_over end here at }
    {
        Put::at(Reach::Over(end), here, 0, at)
    }

    pub fn refused(refusal: Refusal, position: usize, here: Here, at: usize) -> Put
        ensures { result ≡ put_refused refusal position here at }
    {
        Put::over(Err(Fault { refusal, position }), here, at)
    }
}

// The part of a piece that has room, which is not all of it. The run stays before the directive.
fn cut_part(piece: Piece, table: &[u8], progress: Progress, window: &mut [u8]) -> Put
    requires good { Good table.now piece }
    requires at_in_bounds { progress.at ≤ length window.old }
    requires no_room { progress.given + (length window.old - progress.at) < length (bytes_of table.now piece) }
    ensures { (after : Here) → Given (bytes_of table.now piece) progress.here after progress.given progress.at window.old window.new table.now result }
{
    let Progress { here, given, at } = progress;
    let end = window.len();
    write_part(piece, table, given, &mut window[at..end]);
    Put::full(here, given + (end - at), end)
}

// The same of a string in quotes, none of which is given. The run goes on behind its directive, with what is left of it.
fn cut_quote(
    piece: Piece,
    start: usize,
    end: usize,
    table: &[u8],
    after: Here,
    window: &mut [u8],
    at: usize,
) -> Put
    requires good { Good table.now piece }
    requires content_value { piece.body.content ≡ Quoted start end }
    requires at_in_bounds { at ≤ length window.old }
    requires no_room { length window.old - at < length (bytes_of table.now piece) }
    ensures { (here : Here) → Given (bytes_of table.now piece) here after 0 at window.old window.new table.now result }
{
    let q = quote_rest(piece.before, piece.behind, piece.pad, start, end);
    let w = write_rest(q, table, window, at);
    Put {
        rest: w.rest,
        ..Put::full(after, 0, w.at)
    }
}

// A piece that has no room for all that is to be given of it.
fn cut_piece(piece: Piece, table: &[u8], progress: Progress, after: Here, window: &mut [u8]) -> Put
    requires good { Good table.now piece }
    requires at_in_bounds { progress.at ≤ length window.old }
    requires no_room { progress.given + (length window.old - progress.at) < length (bytes_of table.now piece) }
    ensures { Given (bytes_of table.now piece) progress.here after progress.given progress.at window.old window.new table.now result }
{
    match piece.body.content {
        Content::Quoted { start, end } if progress.given == 0 => {
            cut_quote(piece, start, end, table, after, window, progress.at)
        }
        _ => cut_part(piece, table, progress, window),
    }
}

// A piece of which some bytes may be given already; after it the run stands at after.
pub fn give_piece(
    piece: Piece,
    table: &[u8],
    progress: Progress,
    after: Here,
    window: &mut [u8],
) -> Put
    requires good { Good table.now piece }
    requires at_in_bounds { progress.at ≤ length window.old }
    ensures { Given (bytes_of table.now piece) progress.here after progress.given progress.at window.old window.new table.now result }
{
    let Progress { here: _, given, at } = progress;
    let n = piece_length(piece);
    if n <= given {
        return Put::on(after, given - n, at);
    }
    let left = n - given;
    if window.len() - at < left {
        return cut_piece(piece, table, progress, after, window);
    }
    let end = at + left;
    if given == 0 {
        write_whole(piece, table, &mut window[at..end]);
    } else {
        write_part(piece, table, given, &mut window[at..end]);
    }
    Put::on(after, 0, end)
}

// A literal byte at the place where the run stands.
pub fn give_byte(byte: u8, progress: Progress, window: &mut [u8]) -> Put
    requires at_in_bounds { progress.at ≤ length window.old }
    requires place_bound { progress.here.place < 4096 }
    ensures { (t table : List ℕ) → Puts t table (Literal byte) (progress.here.place + 1) progress.here progress.given progress.at window.old window.new result }
{
    let Progress { here, given, at } = progress;
    if here.left == 0 {
        return Put::refused(Refusal::StepLimit, here.place, here, at);
    }
    let after = Here {
        place: here.place + 1,
        left: here.left - 1,
        ..here
    };
    if 0 < given {
        return Put::on(after, given - 1, at);
    }
    if window.len() <= at {
        return Put::full(here, 0, at);
    }
    window[at] = byte;
    Put::on(after, 0, at + 1)
}

// What the directive d of a form gives, at the place where the run stands.
pub fn give_form(
    form: Form,
    d: Directive,
    table: &[u8],
    progress: Progress,
    window: &mut [u8],
) -> Put
    requires code_value { d.code ≡ Code.Writes form }
    requires form_right { FormRight form }
    requires in_hand { InHand table.now progress.here.hand }
    requires next_le_count { progress.here.next.0 ≤ progress.here.hand.count }
    requires at_in_bounds { progress.at ≤ length window.old }
    ensures { (t : List ℕ) → Puts t table.now (Written d) d.after progress.here progress.given progress.at window.old window.new result }
{
    let here = progress.here;
    if here.left == 0 {
        return Put::refused(Refusal::StepLimit, here.place, here, progress.at);
    }
    let begun = Here {
        place: d.after,
        left: here.left - 1,
        ..here
    };
    match plan_form(form, d, table, here.hand, here.next) {
        Ok(
            Plan {
                settings,
                argument,
                next,
            },
        ) => {
            let piece = make_piece(form, d.colon, d.atsign, settings, argument, table);
            let after = Here { next, ..begun };
            give_piece(piece, table, progress, after, window)
        }
        Err(refusal) => Put::refused(refusal, here.place, begun, progress.at),
    }
}
