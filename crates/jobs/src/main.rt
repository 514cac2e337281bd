// Runs jobs: answers each line of standard input on standard output, in order, until the input ends.
#![tactic(auto)]

ghost use Rattle.std.specs.Prelude.{◌≡◌, ◌≤◌, length, take, IfSome};
ghost use Rattle.chunks.specs.Cutting.{begun_line};
ghost use Rattle.chunks.specs.Feeding.{Holds};

use chunks::{answer_last, feed};
use lines::Scratch;
use std::io;
use std::io::{ErrorKind, Read};

// Whether a call moved nothing because a signal came first: it is made again.
fn is_interrupted(failure: &io::Error) -> bool {
    failure.kind() == ErrorKind::Interrupted
}

// Tells what failed, and why in the system's words. Where this fails too, nobody can be told.
fn tell(rt: &HostRuntime, what: &str, failure: &io::Error) {
    let _ = match failure.to_string(rt.alloc()) {
        Ok(said) => {
            let reason = without_number(said.as_str());
            eprintln!(rt; "tilde-jobs: {what} failed: {reason}")
        }
        Err(_) => eprintln!(rt; "tilde-jobs: {what} failed: {failure}"),
    };
}

// The words for an error, which std ends with the system's number for it.
fn without_number(said: &str) -> &str {
    match said.rsplit_once(" (os error ") {
        Some((words, _)) => words,
        None => said,
    }
}

// Writes the answers. Where they are not all written, it tells so, and the answer is None.
fn write_answers(rt: &HostRuntime, answers: &[u8]) -> Option<()> {
    let mut output = rt.stdout();
    // `write_all` of `Print` gives up after some writes that are interrupted
    match io::Write::write_all(&mut output, answers) {
        Ok(()) => Some(()),
        Err(failure) => {
            tell(rt, "answers are lost, writing", &failure);
            None
        }
    }
}

// Tells that a read failed, and what is dropped of a line that it cut off.
fn tell_unread(rt: &HostRuntime, failure: &io::Error, held: usize) {
    tell(rt, "reading", failure);
    if held == 0 {
        return;
    }
    let more = if held == 65536 { " or more" } else { "" };
    let _ = eprintln!(rt; "tilde-jobs: bytes of an unfinished line that are dropped: {held}{more}");
}

// Answers the lines that end in a chunk, and says how much is held of the line that it cuts off: None where a write
// fails, and nothing more is to be done.
fn answer_chunk(
    rt: &HostRuntime,
    chunk: &[u8],
    line: &mut [u8],
    held: usize,
    scratch: &mut Scratch,
    out: &mut [u8],
) -> Option<usize>
    requires line_len { (length line.old ≡ 65536) × (held ≤ 65536) }
    requires out_len { length out.old ≡ 131072 }
    ensures held_bound { IfSome result (λ kept. kept ≤ 65536) }
    ensures holds { IfSome result (λ kept. Holds line.new (begun_line (take held line.old) chunk.now) kept) }
{
    let mut kept = held;
    let mut from = 0;
    // no `for`: how much of the chunk is taken depends on the room for answers
    while from < chunk.len() {
        let fed = feed(&chunk[from..], line, kept, scratch, out);
        write_answers(rt, &out[..fed.filled])?;
        kept = fed.held;
        from += fed.taken;
    }
    Some(kept)
}

// What a read that brought nothing means for the line that is held, and how much is held then: None at the end.
// Interrupted, it is made again; where it failed, the line is cut off and is not answered; at the end of the input it is
// the last line, which may lack its newline.
fn read_nothing(
    rt: &HostRuntime,
    failure: Option<io::Error>,
    line: &[u8],
    scratch: &mut Scratch,
    out: &mut [u8],
) -> Option<usize>
    requires line_len_bound { length line.now ≤ 65536 }
    requires out_len { length out.old ≡ 131072 }
    ensures { IfSome result (λ kept. kept ≤ 65536) }
{
    let Some(failure) = failure else {
        let filled = answer_last(line, scratch, out);
        write_answers(rt, &out[..filled])?;
        return None;
    };
    if is_interrupted(&failure) {
        return Some(line.len());
    }
    tell_unread(rt, &failure, line.len());
    None
}

// One read of the input, and how much is held after it: None at the end.
fn turn(
    rt: &HostRuntime,
    line: &mut [u8],
    held: usize,
    scratch: &mut Scratch,
    out: &mut [u8],
) -> Option<usize>
    requires line_len { (length line.old ≡ 65536) × (held ≤ 65536) }
    requires out_len { length out.old ≡ 131072 }
    ensures { IfSome result (λ kept. kept ≤ 65536) }
{
    let mut chunk = [0u8; 65536];
    match rt.stdin().read(&mut chunk) {
        Ok(0) => read_nothing(rt, None, &line[..held], scratch, out),
        Ok(n) => answer_chunk(rt, &chunk[..n], line, held, scratch, out),
        Err(failure) => read_nothing(rt, Some(failure), &line[..held], scratch, out),
    }
}

fn main(rt: HostRuntime) {
    let mut line = [0u8; 65536];
    let mut frame = [0u8; 32768];
    let mut text = [0u8; 16384];
    let mut scratch = Scratch {
        frame: &mut frame,
        text: &mut text,
    };
    let mut out = [0u8; 131072];
    let mut held = 0;
    for _ in 0..u64::MAX {
        let Some(kept) = turn(&rt, &mut line, held, &mut scratch, &mut out) else {
            return;
        };
        held = kept;
    }
}
