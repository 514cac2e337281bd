// A whole call of format: the table is checked, then the text, and then the text is run.
ghost use Rattle.std.specs.Prelude.{◌≡◌, List, ℕ, ◌≤◌, MatchResult};
ghost use Rattle.rules.specs.Answer.{Answers};
ghost use Rattle.rules.specs.Table.{table_verdict};
ghost use Rattle.rules.specs.Text.{text_verdict};
ghost use Rattle.rules.specs.Verdict.{Accepted};
ghost use Rattle.rules.specs.Refusals.{code_of};
ghost use Rattle.blocks.specs.Landmarks.{Landmarks};
ghost use Rattle.engine.specs.Whole.{outcome_of};

use crate::runners::run_sequence;
use actions::state::{Ran, Stand, Stop};
use blocks::landmarks::{EMPTY, Landmark, MOST_LANDMARKS, is_worth_landmarks, mark_text};
use parameters::Hand;
use rules::limits::{DEEPEST, MOST_STEPS};
use rules::refusal::Fault;
use rules::{ArgumentPosition, EntryIndex};
use syntax::text::check_text;
use table::{argument_count, check_table};

// The answer of a call beside the text, as C has it: 01's code, the position, the steps done and the bytes written.
#[derive(Clone, Copy, PartialEq, Eq, Debug)]
pub struct Outcome {
    pub code: u32,
    pub position: usize,
    pub steps: usize,
    pub written: usize,
}

fn outcome_of(r: Ran) -> Outcome
    requires { r.left ≤ 65536 }
    ensures { result ≡ outcome_of r }
{
    let (code, position) = match r.stop {
        Stop::Refused(Fault { refusal, position }) => (refusal.code(), position),
        Stop::Ended | Stop::Escaped => (0, 0),
    };
    Outcome {
        code,
        position,
        steps: MOST_STEPS - r.left,
        written: r.at,
    }
}

// The run of a text over a table, both of which are accepted, by the landmarks of the text, if it has any.
fn run_by(format: &[u8], marks: &[Landmark], table: &[u8], out: &mut [u8]) -> Outcome
    requires landmarks { Landmarks format.now marks.now }
    requires table_value { table_verdict table.now ≡ Accepted }
    requires format_value { text_verdict format.now ≡ Accepted }
    ensures { Answers format.now table.now out.old out.new result.code result.position result.steps result.written }
{
    let hand = Hand {
        first: EntryIndex(0),
        count: argument_count(table),
    };
    let first = Stand {
        hand,
        next: ArgumentPosition(0),
        left: MOST_STEPS,
        at: 0,
    };
    let r = run_sequence(format, marks, table, DEEPEST, 0, first, out);
    outcome_of(r)
}

// The same of a text that is worth landmarks.
fn run_long(format: &[u8], table: &[u8], out: &mut [u8]) -> Outcome
    requires table_value { table_verdict table.now ≡ Accepted }
    requires format_value { text_verdict format.now ≡ Accepted }
    ensures { Answers format.now table.now out.old out.new result.code result.position result.steps result.written }
{
    let mut marks = [EMPTY; MOST_LANDMARKS];
    mark_text(format, &mut marks);
    run_by(format, &marks, table, out)
}

fn run_text(format: &[u8], table: &[u8], out: &mut [u8]) -> Outcome
    requires table_value { table_verdict table.now ≡ Accepted }
    requires format_value { text_verdict format.now ≡ Accepted }
    ensures { Answers format.now table.now out.old out.new result.code result.position result.steps result.written }
{
    if is_worth_landmarks(format) {
        return run_long(format, table, out);
    }
    run_by(format, &[], table, out)
}

// Whether both may be run: the table is asked first.
fn check(format: &[u8], table: &[u8]) -> Result<(), Fault>
    ensures { MatchResult result (λ _. (table_verdict table.now ≡ Accepted) × (text_verdict format.now ≡ Accepted)) (λ fault. (b : List ℕ) → Answers format.now table.now b b (code_of fault.refusal) fault.position 0 0) }
{
    check_table(table)?;
    check_text(format)
}

// Any bytes as format and as table, any buffer: the text at the start of the buffer, or a refusal.
pub fn format_text(format: &[u8], table: &[u8], out: &mut [u8]) -> Outcome
    ensures { Answers format.now table.now out.old out.new result.code result.position result.steps result.written }
{
    match check(format, table) {
        Ok(()) => run_text(format, table, out),
        Err(fault) => Outcome {
            code: fault.refusal.code(),
            position: fault.position,
            steps: 0,
            written: 0,
        },
    }
}
