// Format and vet for callers in C. Neither asks anything of its caller: every byte and every number is answered.
#![tactic(auto)]

ghost use Rattle.rules.specs.Answer.{Answers};
ghost use Rattle.vet_rules.specs.Demand.{Promised};
ghost use Rattle.tilde.specs.Exported.{vetted};

use engine::formatting::format_text;
use vet::vet_format;

// Writes the text of a format over its table at the start of the buffer. Answers 01's code, and with it the position,
// the steps done and the bytes written.
#[unsafe(no_mangle)]
pub extern "C" fn tilde_format(
    format: &[u8],
    table: &[u8],
    buffer: &mut [u8],
    position: &mut usize,
    steps: &mut usize,
    written: &mut usize,
) -> u32
    ensures { Answers format.now table.now buffer.old buffer.new result position.new steps.new written.new }
{
    let outcome = format_text(format, table, buffer);
    *position = outcome.position;
    *steps = outcome.steps;
    *written = outcome.written;
    outcome.code
}

// Vets a format over the kinds of its arguments, of which no string is longer than `longest`. Answers 01's code,
// and with it the position and the byte count.
#[unsafe(no_mangle)]
pub extern "C" fn tilde_vet(
    format: &[u8],
    kinds: &[u8],
    longest: usize,
    position: &mut usize,
    count: &mut usize,
) -> u32
    ensures { Promised format.now kinds.now longest (vetted result position.new count.new) }
{
    match vet_format(format, kinds, longest) {
        Ok(bytes) => {
            *position = 0;
            *count = bytes;
            0
        }
        Err(fault) => {
            *position = fault.position;
            *count = 0;
            fault.refusal.code()
        }
    }
}
