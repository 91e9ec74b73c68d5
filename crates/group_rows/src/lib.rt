// The rows G1 to G11 by name, and which of them an event meets from a group record.
#![tactic(auto)]

mod causes;
mod rows;

ghost use Rattle.std.specs.Prelude.{◌≡◌, Some};
ghost use Rattle.group_rows.specs.Rows.{row_number, row_of};

use crate::causes::{cause_of, facts_of};
use crate::rows::row_in;
use call::{Event, Settings, announced_of};
use group_record::states::GroupRecord;

// The rows by name, each with its number.
#[derive(Clone, Copy, PartialEq, Eq)]
pub enum Row {
    G1 = 1,
    G2 = 2,
    G3 = 3,
    G4 = 4,
    G5 = 5,
    G6 = 6,
    G7 = 7,
    G8 = 8,
    G9 = 9,
    G10 = 10,
    G11 = 11,
}

impl Row {
    // Its number.
    pub fn number(self) -> u8
        ensures { result ≡ row_number (Some self) }
    {
        self as u8
    }
}

// The row that an event meets from a record, if it meets one.
pub fn row_of(settings: Settings, stored: GroupRecord, event: Event) -> Option<Row>
    ensures { result ≡ row_of settings stored event }
{
    let brought = announced_of(settings, event).call;
    row_in(
        stored.state,
        cause_of(settings, event),
        facts_of(settings, stored.call, brought),
    )
}
