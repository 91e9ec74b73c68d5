// The group call machine: what each row does, what holds for all rows, and one step.
#![tactic(auto)]

mod carrying;
mod effects;

ghost use Rattle.std.specs.Prelude.{◌≡◌, Some};
ghost use Rattle.stepping.specs.Answer.{nothing_done, done_by};
ghost use Rattle.group_record.specs.States.{no_timer};
ghost use Rattle.group_call.specs.Step.{change_too_early, answer_told, step_of, step_buffer};

use crate::carrying::{carry_out, later};
use call::{Event, Input, Settings, announced_of};
use frame::Refusal;
use group_record::states::{GroupRecord, Timers};
use group_record::well_formed;
use group_rows::{Row, row_of};
use stepping::{number_before_row, write_sent};

// What a step of the group call machine answers that is not refused.
pub type Stepped = stepping::Stepped<Row, GroupRecord, Timers>;

// The row is G9, and now is not later than the stored change.
fn change_too_early(settings: Settings, stored: GroupRecord, event: Event, row: Row) -> bool
    ensures { result ≡ change_too_early settings stored event (Some row) }
{
    row == Row::G9 && !later(announced_of(settings, event).call, stored.call)
}

// What a step does that is refused or meets no row: nothing.
fn nothing(stored: GroupRecord) -> Stepped
    ensures { result ≡ nothing_done no_timer stored }
{
    Stepped {
        row: None,
        next: stored,
        stop: Timers::NONE,
        start: Timers::NONE,
        length: 0,
    }
}

// A step of the group call machine; where it is refused the record stays.
// Not said once with the private machine's: a trait would declare five functions with their definitions for this body.
// A lent buffer and a length, no Vec, as in the writer.
pub fn step(
    settings: Settings,
    stored: GroupRecord,
    input: Input,
    out: &mut [u8],
) -> Result<Stepped, Refusal>
    ensures value { answer_told stored result ≡ step_of settings stored input out.old }
    ensures out_after { out.new ≡ step_buffer settings stored input out.old }
{
    number_before_row(settings, well_formed(settings, stored), input)?;
    let Some(row) = row_of(settings, stored, input.event) else {
        return Ok(nothing(stored));
    };
    if change_too_early(settings, stored, input.event, row) {
        return Err(Refusal::WrongArgument);
    }
    let done = carry_out(settings, stored, input, row);
    let length = write_sent(done.sent, done.next.media, out)?;
    Ok(Stepped {
        row: Some(row),
        next: done.next,
        stop: done.stop,
        start: done.start,
        length,
    })
}

// What a step from a record did, by its answer: where it was refused, nothing, and the record stays.
pub fn done(stored: GroupRecord, answer: Result<Stepped, Refusal>) -> Stepped
    ensures { result ≡ done_by no_timer stored answer }
{
    match answer {
        Ok(stepped) => stepped,
        Err(_) => nothing(stored),
    }
}
