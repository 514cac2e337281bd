// Job lines: a frame in hexadecimal to the answer of its format, in hexadecimal.
#![tactic(auto)]

ghost use Rattle.std.specs.Prelude.{◌≡◌, ◌++◌, ◌+◌, ◌*◌, ◌/◌, ◌%◌, ◌≤◌, ◌<◌, length, take, SomeIff};
ghost use Rattle.rules.specs.Job.{digit_value, hex_of, four_bytes, numbers_of, no_frame, answer_line};
ghost use Rattle.lines.specs.Front.{AtFront};
ghost use Rattle.lines.specs.Lent.{Decoded, FrameAnswered, LineAnswered};

use engine::formatting::{Outcome, format_text};
use numbers::digit_byte;

// The value of a hexadecimal digit of either case.
#[tactic(auto, unfolding(rules::specs::Job::digit_value))]
fn digit_value(b: u8) -> Option<u8>
    ensures { SomeIff result (digit_value b < 16) (digit_value b) }
{
    match b {
        b'0'..=b'9' => Some(b - b'0'),
        b'A'..=b'F' => Some(b - b'A' + 10),
        b'a'..=b'f' => Some(b - b'a' + 10),
        _ => None,
    }
}

// Reads the digits of a line, two to a byte, into the front of frame, and answers how many bytes these are, if they are
// digits in pairs.
fn decode(line: &[u8], frame: &mut [u8]) -> Option<usize>
    requires { length line.now / 2 ≤ length frame.old }
    ensures { Decoded line.now frame.old frame.new result }
{
    let count = line.len() / 2;
    for k in 0..count {
        let high = digit_value(line[2 * k])?;
        let low = digit_value(line[2 * k + 1])?;
        frame[k] = high * 16 + low;
    }
    if line.len() % 2 == 0 {
        Some(count)
    } else {
        None
    }
}

// Writes bytes in hexadecimal from at on, and answers where they end.
fn write_hex(bytes: &[u8], out: &mut [u8], at: usize) -> usize
    requires { at + 2 * length bytes.now ≤ length out.old }
    ensures { AtFront out.old out.new (take at out.old ++ hex_of bytes.now) result }
{
    let mut to = at;
    for byte in bytes {
        out[to] = digit_byte(*byte / 16);
        out[to + 1] = digit_byte(*byte % 16);
        to += 2;
    }
    to
}

// The last four bytes of a number, big-endian.
fn four_bytes(n: usize) -> [u8; 4]
    ensures { result ≡ four_bytes n }
{
    let [_, _, _, _, a, b, c, d] = n.to_be_bytes();
    [a, b, c, d]
}

// The numbers of an answer as bytes: the code, and four for each of the others.
fn numbers_of(code: u32, position: usize, steps: usize, written: usize) -> [u8; 13]
    ensures { result ≡ numbers_of code position steps written }
{
    let [p, q, r, s] = four_bytes(position);
    let [t, u, v, w] = four_bytes(steps);
    let [x, y, z, last] = four_bytes(written);
    [(code % 256) as u8, p, q, r, s, t, u, v, w, x, y, z, last]
}

// Writes an answer, whose text is lent beside it.
fn write_answer(o: Outcome, text: &[u8], out: &mut [u8]) -> usize
    requires { 26 + 2 * length text.now ≤ length out.old }
    ensures { AtFront out.old out.new (hex_of (numbers_of o.code o.position o.steps o.written ++ text.now)) result }
{
    let numbers = numbers_of(o.code, o.position, o.steps, o.written);
    let at = write_hex(&numbers, out, 0);
    write_hex(text, out, at)
}

// Answers `ff`, as for a line that is no frame.
fn refuse(out: &mut [u8]) -> usize
    requires { 2 ≤ length out.old }
    ensures { AtFront out.old out.new no_frame result }
{
    out[..2].copy_from_slice(b"ff");
    2
}

// Answers the bytes of a line. The text of the format goes by way of text.
fn answer_frame(frame: &[u8], text: &mut [u8], out: &mut [u8]) -> usize
    requires text_len { length text.old ≡ 16384 }
    requires in_bounds { 32794 ≤ length out.old }
    ensures { FrameAnswered frame.now text.old text.new out.old out.new result }
{
    let [high, low, ..] = frame else {
        return refuse(out);
    };
    let end = 2 + usize::from(*high) * 256 + usize::from(*low);
    if frame.len() < end {
        return refuse(out);
    }
    let o = format_text(&frame[2..end], &frame[end..], text);
    let written = o.written;
    write_answer(o, &text[..written], out)
}

// What is lent for a line: room for its bytes, and for the text of their format. A caller with many lines makes the two
// once.
#[derive(Drop)]
pub struct Scratch<'a> {
    pub frame: &'a mut [u8],
    pub text: &'a mut [u8],
    pub ghost frame_room: { 32767 ≤ length frame.now },
    pub ghost text_room: { length text.now ≡ 16384 },
}

impl Scratch<'_> {
    ghost use Rattle.lines.specs.Same.{SameBuffers};

    // Answers a line, without its newline. The longest answer has 13 bytes of numbers and a text of 16,384, two digits to
    // each: out has room for those 32,794.
    pub fn answer_with(&mut self, line: &[u8], out: &mut [u8]) -> usize
        requires { 32794 ≤ length out.old }
        ensures answered { LineAnswered line.now self.old.frame.now self.new.frame.now self.old.text.now self.new.text.now out.old out.new result }
        ensures same_buffers { SameBuffers self.old self.new }
    {
        if 65535 < line.len() {
            return refuse(out);
        }
        match decode(line, self.frame) {
            // of a frame lent as `&` here it would be forgotten that it stays as it is
            Some(count) => answer_frame(&mut self.frame[..count], self.text, out),
            None => refuse(out),
        }
    }
}

// The same, with a frame and a text of its own.
pub fn answer_line(line: &[u8], out: &mut [u8]) -> usize
    requires { 32794 ≤ length out.old }
    ensures { AtFront out.old out.new (answer_line line.now) result }
{
    let mut frame = [0u8; 32768];
    let mut text = [0u8; 16384];
    let mut scratch = Scratch {
        frame: &mut frame,
        text: &mut text,
    };
    scratch.answer_with(line, out)
}
