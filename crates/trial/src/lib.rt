// Entries for the host's own trials of what the panel shell does not call: the values that a line is read as, the line
// that values are written as, and the answer to a log. The crate trial_c exports them to C.
// Numbers in place of Options and Results: C is told them.
#![tactic(auto)]

mod carried;
mod values;

ghost use Rattle.std.specs.Prelude.{◌≡◌, get_or};
ghost use Rattle.log_answer.specs.Answer.{answer_told, answer_buffer};
ghost use Rattle.frame.specs.Refusal.{number_of};
ghost use Rattle.trial.specs.Values.{line_values, IsKindOf, values_number, values_buffer};

use crate::values::{frame_value, media_from, message_from, value_at};
use frame::{Frame, Kind, Refusal};

// One value of what a line reads as, in the order of the line: its kind at place 0, its identifier at 1, and so on; 0
// where there is none.
#[tactic(auto, unfolding(crate::specs::Values::line_values))]
pub fn trial_value(line: &[u8], place: usize) -> u32
    ensures { result ≡ get_or (line_values line.now) place 0 }
{
    match reader::read_line(line) {
        Ok(frame) => frame_value(frame, place),
        Err(_) => 0,
    }
}

// The kind that the first of some values names.
fn kind_in(values: &[u32]) -> Result<Kind, Refusal>
    ensures { IsKindOf values.now result }
{
    match u8::try_from(value_at(values, 0)) {
        Ok(number) => Kind::try_from(number),
        Err(_) => Err(Refusal::NoKind),
    }
}

// The line of the frame with these values at the front of a lent buffer, and its length.
#[tactic(auto, unfolding(crate::specs::Values::values_number, crate::specs::Values::values_buffer, writer::specs::Writing::written_of))]
fn write_values(values: &[u32], out: &mut [u8]) -> Result<usize, Refusal>
    ensures value { number_of result ≡ values_number values.now out.old }
    ensures out_after { out.new ≡ values_buffer values.now out.old }
{
    let kind = kind_in(values)?;
    let frame = Frame {
        message: message_from(kind, values),
        media: media_from(kind, values),
    };
    writer::write_line(frame, out)
}

// The line of the frame with these values, each behind the kind cut to the width of its field, at the front of a lent
// buffer, and its number: 3 where the first is no kind, 5 where one is outside its range, 6 where there is no room.
pub fn trial_write_line(values: &[u32], out: &mut [u8]) -> u32
    ensures value { result ≡ values_number values.now out.old }
    ensures out_after { out.new ≡ values_buffer values.now out.old }
{
    Refusal::number_of(&write_values(values, out)) as u32
}

// The answer to a log at the front of a lent buffer, and its length; where there is no room, 0.
pub fn trial_answer_log(log: &[u8], out: &mut [u8]) -> usize
    ensures value { result ≡ (answer_told log.now out.old).length }
    ensures out_after { out.new ≡ answer_buffer log.now out.old }
{
    log_answer::answer_log(log, out).unwrap_or(0)
}
