// What carrying out a row of the group call machine gives, by the rules for all rows.
ghost use Rattle.std.specs.Prelude.{◌≡◌, Some};
ghost use Rattle.group_call.specs.Carried.{carry_out, is_later, changed_by, later_change, held_of, media_held};
ghost use Rattle.group_call.specs.Carried.{acceptance, sent_of, ran_out_by};

use crate::effects::{Hold, Say, effect_of};
use call::timers::TimerSets;
use call::{Event, GroupTimer, Input, Settings, Timer, announced_of};
use frame::{Acceptance, GroupCall, Media, Message};
use group_record::states::{GroupRecord, Timers};
use group_rows::Row;
use stepping::Carried;

// ---- the timers

// The timer that just ran out.
fn ran_out(event: Event) -> Timers
    ensures { result ≡ ran_out_by event }
{
    match event {
        Event::Expiry(Timer::Group(GroupTimer::Tfg2)) => Timers::TFG2,
        Event::Expiry(Timer::Group(GroupTimer::Tfg4)) => Timers::TFG4,
        Event::Expiry(Timer::Group(GroupTimer::Tfg6)) => Timers::TFG6,
        _ => Timers::NONE,
    }
}

// ---- the call

// The last change of one call is later than that of the stored one.
pub(crate) fn later(brought: GroupCall, stored: GroupCall) -> bool
    ensures { result ≡ is_later brought stored }
{
    stored.last_change < brought.last_change
}

// The stored call with the type, the time of the last change and the changer of another.
fn changed_by(stored: GroupCall, brought: GroupCall) -> GroupCall
    ensures { result ≡ changed_by stored brought }
{
    GroupCall {
        call_type: brought.call_type,
        last_change: brought.last_change,
        last_changer: brought.last_changer,
        ..stored
    }
}

// The stored call, changed where the change is later.
fn later_change(stored: GroupCall, brought: GroupCall) -> GroupCall
    ensures { result ≡ later_change stored brought }
{
    if later(brought, stored) {
        changed_by(stored, brought)
    } else {
        stored
    }
}

impl Hold {
    // The call that the record holds afterwards, all but its media.
    fn call(self, stored: GroupCall, brought: GroupCall) -> GroupCall
        ensures { result ≡ held_of self stored brought }
    {
        match self {
            Hold::Keep => stored,
            Hold::Announced => brought,
            Hold::Change => changed_by(stored, brought),
            Hold::LaterChange => later_change(stored, brought),
            Hold::Clear => GroupCall::NONE,
        }
    }

    // Its media.
    fn media(self, stored: Media, brought: Media) -> Media
        ensures { result ≡ media_held self stored brought }
    {
        match self {
            Hold::Keep | Hold::Change | Hold::LaterChange => stored,
            Hold::Announced => brought,
            Hold::Clear => Media::NONE,
        }
    }
}

// ---- the message

// The accept of a call: the sender is own.
fn accept_of(settings: Settings, held: GroupCall) -> Acceptance
    ensures { result ≡ acceptance settings held }
{
    Acceptance {
        identifier: held.identifier,
        sender: settings.own_user,
        call_type: held.call_type,
        group: held.group,
    }
}

// What is sent, from the call held afterwards; the first announcement has the user's confirm.
fn sent(settings: Settings, say: Option<Say>, held: GroupCall, confirm: u8) -> Option<Message>
    ensures { result ≡ sent_of settings say held confirm }
{
    let message = match say? {
        Say::FirstAnnouncement => Message::Announcement(held, confirm),
        Say::Announcement => Message::Announcement(held, 0),
        Say::Accept => Message::GroupAccept(accept_of(settings, held)),
    };
    Some(message)
}

// ---- the whole

// Carries out a row.
#[tactic(auto, unfolding(crate::specs::Carried::carry_out))]
pub(crate) fn carry_out(
    settings: Settings,
    stored: GroupRecord,
    input: Input,
    row: Row,
) -> Carried<GroupRecord, Timers>
    ensures { result ≡ carry_out settings stored input (Some row) }
{
    let announced = announced_of(settings, input.event);
    let effect = effect_of(row, stored.state, announced.confirm == 1);
    let sets = TimerSets {
        was_running: stored.running,
        ran_out: ran_out(input.event),
        stop_asked: effect.stop,
        started: effect.start,
        state_changes: stored.state != effect.to,
    };
    let call = effect.hold.call(stored.call, announced.call);
    Carried {
        next: GroupRecord {
            state: effect.to,
            running: sets.running_after(),
            call,
            media: effect.hold.media(stored.media, input.media),
        },
        stop: sets.stopped(),
        start: effect.start,
        sent: sent(settings, effect.say, call, announced.confirm),
    }
}
