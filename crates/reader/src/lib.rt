// The reader of lines: the frame of a line, or why it is refused.
#![tactic(auto)]

mod carried;
mod digit_line;
mod digits;
mod fields;
mod judge;
mod table;

ghost use Rattle.std.specs.Prelude.{◌≡◌};
ghost use Rattle.frame.specs.Refusal.{number_of};
ghost use Rattle.reader.specs.Line.{line_number, read_line, reading_of};

use crate::digit_line::DigitLine;
use frame::{Frame, Refusal};

// Whether a line is readable; else the first of the refusals 1 to 5 that is given.
pub fn check_line(line: &[u8]) -> Result<(), Refusal>
    ensures { number_of result ≡ line_number line.now }
{
    let line = DigitLine::new(line)?;
    if !line.frame_fits() {
        return Err(Refusal::WrongField);
    }
    Ok(())
}

// The frame of a line, or why it is refused.
// Judged as in `check_line`: the contract of a function for both would be longer than the lines that it saves.
#[tactic(auto, unfolding(crate::specs::Line::read_line))]
pub fn read_line(line: &[u8]) -> Result<Frame, Refusal>
    ensures { reading_of result ≡ read_line line.now }
{
    let line = DigitLine::new(line)?;
    if !line.frame_fits() {
        return Err(Refusal::WrongField);
    }
    Ok(line.frame())
}
