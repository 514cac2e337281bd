// A call: the table is checked, and with it a text that is begun or the numbers of a state; then the run goes on until
// it is over or the next byte has no room.
ghost use Rattle.std.specs.Prelude.{◌≡◌, true, ◌≤◌};
ghost use Rattle.rules.specs.Answer.{flow_of};
ghost use Rattle.rules.specs.Table.{table_verdict, view_of};
ghost use Rattle.rules.specs.Text.{text_verdict};
ghost use Rattle.rules.specs.Refusals.{code_of};
ghost use Rattle.rules.specs.Verdict.{Accepted};
ghost use Rattle.nesting.specs.Moves.{told, comes};
ghost use Rattle.filling.specs.Filling.{to_give};
ghost use Rattle.filling.specs.Steps.{Standing};
ghost use Rattle.windows.specs.States.{here_of, is_sound, to_come, if_sound, unless_wrong};
ghost use Rattle.windows.specs.Calls.{Resumes};
ghost use Rattle.windows.specs.Continuing.{start_of, ended_with, begun_state, more_with, resumed_at, Continues};

use crate::state::{Resumed, State, here_of, is_sound};
use blocks::landmarks::{EMPTY, MOST_LANDMARKS, is_worth_landmarks};
use filling::giving::{NO_REST, Progress, Put, Reach};
use filling::steps::{Step, fill_window};
use nesting::moves::Here;
use nesting::nests::Nest;
use parameters::Hand;
use pieces::resuming::{QuoteRest, write_rest};
use rules::limits::MOST_STEPS;
use rules::refusal::{Fault, Refusal};
use rules::{ArgumentPosition, EntryIndex};
use syntax::text::check_text;
use table::{argument_count, check_table};

// The code of a call that did not come to the end. It is no code of 01, and a number as C gets it.
pub const MORE: u32 = 256;

// The stages of a state: begun, and any above it ended. A state is a caller's, so its stage is a number.
const BEGUN: usize = 1;

const ENDED: usize = 2;

// No number is set.
const EMPTY_STATE: State = State {
    stage: 0,
    code: 0,
    position: 0,
    steps: 0,
    left: 0,
    place: 0,
    given: 0,
    first: 0,
    count: 0,
    next: 0,
    nest: Nest::EMPTY,
    rest: NO_REST,
};

// The start of a run over so many arguments.
fn start_of(count: usize) -> Progress
    ensures { result ≡ record { here = start_of count; given = 0; at = 0 } }
{
    Progress {
        here: Here {
            place: 0,
            left: MOST_STEPS,
            hand: Hand {
                first: EntryIndex(0),
                count,
            },
            next: ArgumentPosition(0),
        },
        given: 0,
        at: 0,
    }
}

// The end, which the state keeps.
fn ended(code: u32, position: usize, steps: usize, written: usize) -> Resumed
    ensures { result ≡ ended_with code position steps written }
{
    Resumed {
        code,
        position,
        steps,
        written,
        state: State {
            stage: ENDED,
            code,
            position,
            steps,
            ..EMPTY_STATE
        },
    }
}

// A refusal before the run.
fn refused(fault: Fault) -> Resumed
    ensures { result ≡ ended_with (code_of fault.refusal) fault.position 0 0 }
{
    ended(fault.refusal.code(), fault.position, 0, 0)
}

// More, from a state on.
fn more(written: usize, state: State) -> Resumed
    ensures { result ≡ more_with written state }
{
    Resumed {
        code: MORE,
        position: 0,
        steps: 0,
        written,
        state,
    }
}

// More, from where a run stands.
fn begun(progress: Progress, nest: Nest, rest: QuoteRest) -> Resumed
    ensures { result ≡ more_with progress.at (begun_state progress.here nest progress.given rest) }
{
    let Progress { here, given, at } = progress;
    let state = State {
        stage: BEGUN,
        left: here.left,
        place: here.place,
        given,
        first: here.hand.first.0,
        count: here.hand.count,
        next: here.next.0,
        nest,
        rest,
        ..EMPTY_STATE
    };
    more(at, state)
}

// The answer after the steps that filled the window.
fn resumed_at(step: Step) -> Resumed
    requires { step.put.progress.here.left ≤ 65536 }
    ensures { result ≡ resumed_at step }
{
    let Put {
        reach,
        progress,
        rest,
    } = step.put;
    let steps = MOST_STEPS - progress.here.left;
    match reach {
        Reach::Over(Ok(())) => ended(0, 0, steps, progress.at),
        Reach::Over(Err(fault)) => {
            ended(fault.refusal.code(), fault.position, steps, progress.at)
        }
        _ => begun(progress, step.nest, rest),
    }
}

// The run from where it stands, with room for so many landmarks.
fn run_with<const ROOM: usize>(
    format: &[u8],
    table: &[u8],
    progress: Progress,
    nest: Nest,
    window: &mut [u8],
) -> Resumed
    requires fits { ROOM ≤ 4096 }
    requires standing { Standing format.now table.now progress.here nest progress.at window.old }
    ensures { Continues format.now table.now (to_give progress.given (comes format.now table.now progress.here nest)) progress.at window.old window.new result }
{
    let mut marks = [EMPTY; ROOM];
    resumed_at(fill_window(format, &mut marks, table, progress, nest, window))
}

// The same, with that room only where it may save time.
fn run_on(format: &[u8], table: &[u8], progress: Progress, nest: Nest, window: &mut [u8]) -> Resumed
    requires { Standing format.now table.now progress.here nest progress.at window.old }
    ensures { Continues format.now table.now (to_give progress.given (comes format.now table.now progress.here nest)) progress.at window.old window.new result }
{
    if is_worth_landmarks(format) {
        return run_with::<MOST_LANDMARKS>(format, table, progress, nest, window);
    }
    run_with::<0>(format, table, progress, nest, window)
}

// A fresh state: the text is checked, and then run from its start.
fn start(format: &[u8], table: &[u8], window: &mut [u8]) -> Resumed
    requires { table_verdict table.now ≡ Accepted }
    ensures { Continues format.now table.now (unless_wrong (text_verdict format.now) (λ _. told (flow_of format.now (view_of table.now)))) 0 window.old window.new result }
{
    match check_text(format) {
        Err(fault) => refused(fault),
        Ok(()) => {
            let progress = start_of(argument_count(table));
            run_on(format, table, progress, Nest::EMPTY, window)
        }
    }
}

// A state that is begun and whose numbers are in range: what is left of a string, and then the run.
fn go_on(format: &[u8], table: &[u8], window: &mut [u8], s: State) -> Resumed
    requires table_value { table_verdict table.now ≡ Accepted }
    requires s_value { is_sound format.now table.now s ≡ true }
    ensures { Continues format.now table.now (to_come table.now s.rest s.given (comes format.now table.now (here_of s) s.nest)) 0 window.old window.new result }
{
    let w = write_rest(s.rest, table, window, 0);
    let progress = Progress {
        here: here_of(s),
        given: s.given,
        at: w.at,
    };
    if w.rest.stage != 0 {
        return begun(progress, s.nest, w.rest);
    }
    run_on(format, table, progress, s.nest, window)
}

// A state that is begun. One that no call gave may be out of range.
fn pick_up(format: &[u8], table: &[u8], window: &mut [u8], s: State) -> Resumed
    requires { table_verdict table.now ≡ Accepted }
    ensures { Continues format.now table.now (if_sound (is_sound format.now table.now s) (λ _. to_come table.now s.rest s.given (comes format.now table.now (here_of s) s.nest))) 0 window.old window.new result }
{
    if is_sound(format, table, s) {
        return go_on(format, table, window, s);
    }
    ended(Refusal::BadBlock.code(), 0, 0, 0)
}

// Any bytes as format and as table, any window, any state: as much of what remains as the window has room for.
pub fn resume(format: &[u8], table: &[u8], window: &mut [u8], state: State) -> Resumed
    ensures { Resumes format.now table.now state window.old window.new result }
{
    if ENDED <= state.stage {
        return Resumed {
            code: state.code,
            position: state.position,
            steps: state.steps,
            written: 0,
            state,
        };
    }
    let no_room = window.len() == 0;
    if no_room {
        return more(0, state);
    }
    match check_table(table) {
        Err(fault) => refused(fault),
        Ok(()) => {
            if state.stage == BEGUN {
                return pick_up(format, table, window, state);
            }
            start(format, table, window)
        }
    }
}
