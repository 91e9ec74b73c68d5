// The private call machine: what each row does, what holds for all rows, and one step.
#![tactic(auto)]

mod carrying;
mod effects;
mod timers;

ghost use Rattle.std.specs.Prelude.{◌≡◌, Some};
ghost use Rattle.stepping.specs.Answer.{nothing_done, done_by};
ghost use Rattle.private_record.specs.Phases.{no_timer};
ghost use Rattle.private_call.specs.Step.{identifier_taken, answer_told, step_of, step_buffer};

use crate::carrying::carry_out;
use call::{Event, Input, Settings, request_of};
use frame::Refusal;
use private_record::states::{PrivateRecord, Timers};
use private_record::well_formed;
use private_rows::{Row, row_of};
use stepping::{number_before_row, write_sent};

// What a step answers that is not refused.
pub type Stepped = stepping::Stepped<Row, PrivateRecord, Timers>;

// The row is R1, and the identifier that the user names is the stored one.
fn identifier_taken(settings: Settings, stored: PrivateRecord, event: Event, row: Row) -> bool
    ensures { result ≡ identifier_taken settings stored event (Some row) }
{
    row == Row::R1
        && request_of(settings, event).parties.identifier == stored.call.parties.identifier
}

// What a step does that is refused or meets no row: nothing.
fn nothing(stored: PrivateRecord) -> Stepped
    ensures { result ≡ nothing_done no_timer stored }
{
    Stepped {
        row: None,
        next: stored,
        stop: Timers::NONE,
        start: Timers::NONE,
        length: 0,
    }
}

// A step of the private call machine; where it is refused the record stays.
// Not said once with the group machine's: a trait would declare five functions with their definitions for this body.
// A lent buffer and a length, no Vec, as in the writer.
pub fn step(
    settings: Settings,
    stored: PrivateRecord,
    input: Input,
    out: &mut [u8],
) -> Result<Stepped, Refusal>
    ensures value { answer_told stored result ≡ step_of settings stored input out.old }
    ensures out_after { out.new ≡ step_buffer settings stored input out.old }
{
    number_before_row(settings, well_formed(settings, stored), input)?;
    let Some(row) = row_of(settings, stored, input) else {
        return Ok(nothing(stored));
    };
    if identifier_taken(settings, stored, input.event, row) {
        return Err(Refusal::WrongArgument);
    }
    let done = carry_out(settings, stored, input, row);
    let length = write_sent(done.sent, done.next.call.media, out)?;
    Ok(Stepped {
        row: Some(row),
        next: done.next,
        stop: done.stop,
        start: done.start,
        length,
    })
}

// What a step from a record did, by its answer: where it was refused, nothing, and the record stays.
pub fn done(stored: PrivateRecord, answer: Result<Stepped, Refusal>) -> Stepped
    ensures { result ≡ done_by no_timer stored answer }
{
    match answer {
        Ok(stepped) => stepped,
        Err(_) => nothing(stored),
    }
}
