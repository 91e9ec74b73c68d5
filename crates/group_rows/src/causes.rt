// What happens, and what a row may ask besides.
ghost use Rattle.std.specs.Prelude.{◌≡◌};
ghost use Rattle.group_rows.specs.Causes.{announcement_cause, cause_of, facts_of};

use call::{Action, Event, GroupAction, GroupTimer, Settings, Timer};
use frame::{GroupCall, Message};
use group_order::{better, rank};

// What happens to a group call, without any fields; what can meet no row is Other.
// Other, no None: it is a case of `cause_number`, by which the table of the rows compares; as an Option each of its
// clauses would ask for Some.
#[derive(Clone, Copy, PartialEq, Eq)]
pub enum Cause {
    UserStarts,
    UserAccepts,
    UserRejects,
    UserLeaves,
    UserRaises,
    Tfg2Expires,
    Tfg4Expires,
    Tfg6Expires,
    AnnouncementHeard,
    Other,
}

// What a row may ask besides the cause and the state.
#[derive(Clone, Copy, PartialEq, Eq)]
pub struct Facts {
    // The user is asked before a call is joined.
    pub acknowledgement: bool,
    // The announcement is of the stored call.
    pub same: bool,
    // The announced call is better than the stored one.
    pub better: bool,
    // The type that the user raises to has a better rank than the stored one.
    pub better_rank: bool,
}

// ---- what happens

// An announcement counts only if its group is own.
fn announcement_cause(own: u32, heard: GroupCall) -> Cause
    ensures { result ≡ announcement_cause own heard }
{
    if heard.group == own {
        Cause::AnnouncementHeard
    } else {
        Cause::Other
    }
}

// What happens.
pub(crate) fn cause_of(settings: Settings, event: Event) -> Cause
    ensures { result ≡ cause_of settings event }
{
    match event {
        Event::Action(Action::Group(GroupAction::Start(_))) => Cause::UserStarts,
        Event::Action(Action::Group(GroupAction::Accept)) => Cause::UserAccepts,
        Event::Action(Action::Group(GroupAction::Reject)) => Cause::UserRejects,
        Event::Action(Action::Group(GroupAction::Leave)) => Cause::UserLeaves,
        Event::Action(Action::Group(GroupAction::Raise(_))) => Cause::UserRaises,
        Event::Expiry(Timer::Group(GroupTimer::Tfg2)) => Cause::Tfg2Expires,
        Event::Expiry(Timer::Group(GroupTimer::Tfg4)) => Cause::Tfg4Expires,
        Event::Expiry(Timer::Group(GroupTimer::Tfg6)) => Cause::Tfg6Expires,
        Event::Message(Message::Announcement(heard, _)) => {
            announcement_cause(settings.own_group, heard)
        }
        _ => Cause::Other,
    }
}

// ---- what a row may ask besides

// What a row may ask.
pub(crate) fn facts_of(settings: Settings, stored: GroupCall, brought: GroupCall) -> Facts
    ensures { result ≡ facts_of settings stored brought }
{
    Facts {
        acknowledgement: settings.acknowledgement,
        same: brought.identifier == stored.identifier,
        better: better(brought, stored),
        better_rank: rank(brought.call_type) < rank(stored.call_type),
    }
}
