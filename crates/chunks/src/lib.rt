// An input that comes in chunks: its lines, and their answers.
#![tactic(auto)]

ghost use Rattle.std.specs.Prelude.{◌≡◌, nat_eq, position, [], ◌∷◌, ◌++◌, ◌+◌, ◌≤◌, ◌<◌, length, take, drop};
ghost use Rattle.lines.specs.Front.{AtFront};
ghost use Rattle.lines.specs.Same.{SameBuffers};
ghost use Rattle.chunks.specs.Cutting.{line_in, last_line};
ghost use Rattle.chunks.specs.Feeding.{Answered, Taken, FarEnough};

use lines::Scratch;

// How much of a chunk is taken, how much is held of the line that it ends in, and where the answers end.
#[derive(Clone, Copy, Debug, PartialEq, Eq)]
pub struct Fed {
    pub taken: usize,
    pub held: usize,
    pub filled: usize,
}

fn newline_in(bytes: &[u8]) -> Option<usize>
    ensures { result ≡ position (λ b. nat_eq b 10) bytes.now }
{
    bytes.iter().position(|byte| *byte == b'\n')
}

// Where the line that begins at from ends: at its newline, or at the end of the chunk.
pub fn line_end(chunk: &[u8], from: usize) -> usize
    requires { from ≤ length chunk.now }
    ensures { result ≡ from + length (line_in (drop from chunk.now)) }
{
    match newline_in(&chunk[from..]) {
        Some(n) => from + n,
        None => chunk.len(),
    }
}

// Adds a part of a line to what is held of it. What there is no room for is left out.
pub fn hold(line: &mut [u8], held: usize, part: &[u8]) -> usize
    requires { held ≤ length line.old }
    ensures { AtFront line.old line.new (take (length line.old) (take held line.old ++ part.now)) result }
{
    let count = part.len().min(line.len() - held);
    line[held..held + count].copy_from_slice(&part[..count]);
    held + count
}

// Adds the answer to a line, and its newline, to the answers in out.
pub fn add_answer(line: &[u8], scratch: &mut Scratch, out: &mut [u8], filled: usize) -> usize
    requires { filled + 32795 ≤ length out.old }
    ensures answered { Answered (line.now ∷ []) scratch.old.frame.now scratch.new.frame.now scratch.old.text.now scratch.new.text.now out.old out.new filled result }
    ensures same_buffers { SameBuffers scratch.old scratch.new }
{
    let count = scratch.answer_with(line, &mut out[filled..]);
    let end = filled + count;
    out[end] = b'\n';
    end + 1
}

// Takes a chunk, of whose first line `held` bytes came before, until it ends or out has no room for the longest answer. A
// line is held to its first 65,536 bytes or more: by those it is too long.
pub fn feed(
    chunk: &[u8],
    line: &mut [u8],
    held: usize,
    scratch: &mut Scratch,
    out: &mut [u8],
) -> Fed
    requires in_bounds { (65535 < length line.old) × (held ≤ length line.old) }
    requires in_bounds_2 { 32795 ≤ length out.old }
    ensures taken { Taken (take result.taken chunk.now) (take held line.old) line.old line.new scratch.old.frame.now scratch.new.frame.now scratch.old.text.now scratch.new.text.now out.old out.new result.held result.filled }
    ensures same_buffers { SameBuffers scratch.old scratch.new }
    ensures far_enough { FarEnough chunk.now out.old result.taken result.filled }
{
    let mut kept = held;
    let mut filled = 0;
    let mut from = 0;
    // no `for`: where a line ends shows only when its newline is found
    while from < chunk.len() && 32795 <= out.len() - filled {
        let end = line_end(chunk, from);
        kept = hold(line, kept, &chunk[from..end]);
        if end == chunk.len() {
            from = end;
        } else {
            filled = add_answer(&line[..kept], scratch, out, filled);
            kept = 0;
            from = end + 1;
        }
    }
    Fed {
        taken: from,
        held: kept,
        filled,
    }
}

// Answers the last line of an input, which lacks its newline, if there is one.
pub fn answer_last(line: &[u8], scratch: &mut Scratch, out: &mut [u8]) -> usize
    requires { 32795 ≤ length out.old }
    ensures answered { Answered (last_line line.now) scratch.old.frame.now scratch.new.frame.now scratch.old.text.now scratch.new.text.now out.old out.new 0 result }
    ensures same_buffers { SameBuffers scratch.old scratch.new }
{
    if line.is_empty() {
        return 0;
    }
    add_answer(line, scratch, out, 0)
}
