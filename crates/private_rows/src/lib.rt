// The rows R1 to R29 by name, and which of them an event meets from a private record.
#![tactic(auto)]

mod causes;
mod rows;

ghost use Rattle.std.specs.Prelude.{◌≡◌, Some};
ghost use Rattle.private_rows.specs.Rows.{row_number, row_of};

use crate::causes::{cause_of, facts_of};
use crate::rows::row_in;
use call::{Input, Settings};
use private_record::states::PrivateRecord;

// The rows by name, each with its number.
#[derive(Clone, Copy, PartialEq, Eq)]
pub enum Row {
    R1 = 1,
    R2 = 2,
    R3 = 3,
    R4 = 4,
    R5 = 5,
    R6 = 6,
    R7 = 7,
    R8 = 8,
    R9 = 9,
    R10 = 10,
    R11 = 11,
    R12 = 12,
    R13 = 13,
    R14 = 14,
    R15 = 15,
    R16 = 16,
    R17 = 17,
    R18 = 18,
    R19 = 19,
    R20 = 20,
    R21 = 21,
    R22 = 22,
    R23 = 23,
    R24 = 24,
    R25 = 25,
    R26 = 26,
    R27 = 27,
    R28 = 28,
    R29 = 29,
}

impl Row {
    // Its number.
    pub fn number(self) -> u8
        ensures { result ≡ row_number (Some self) }
    {
        self as u8
    }
}

// The row that an event meets from a record, if it meets one.
pub fn row_of(settings: Settings, stored: PrivateRecord, input: Input) -> Option<Row>
    ensures { result ≡ row_of settings stored input }
{
    let phase = stored.phase();
    row_in(
        phase,
        cause_of(settings, input.event),
        facts_of(settings, phase, stored, input),
    )
}
