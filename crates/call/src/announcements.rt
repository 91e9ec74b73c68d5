// The announcement that an event brings.
ghost use Rattle.std.specs.Prelude.{◌≡◌};
ghost use Rattle.call.specs.Announced.{started_group_call, raised_to, group_action_announced};
ghost use Rattle.call.specs.Announced.{action_announced, message_announced};

use crate::{Action, Announced, GroupAction, GroupRaise, GroupStart, Settings};
use frame::{GroupCall, Message};

// The group call that the user's start makes.
fn started_group_call(settings: Settings, start: GroupStart) -> GroupCall
    ensures { result ≡ started_group_call settings start }
{
    GroupCall {
        identifier: start.identifier,
        group: settings.own_group,
        call_type: start.call_type,
        refresh: start.refresh,
        originator: settings.own_user,
        start: start.now,
        last_change: start.now,
        last_changer: settings.own_user,
    }
}

// What the user's raise changes: the type, the time of the last change, and who made it.
fn raised_to(settings: Settings, raise: GroupRaise) -> GroupCall
    ensures { result ≡ raised_to settings raise }
{
    GroupCall {
        call_type: raise.call_type,
        last_change: raise.now,
        last_changer: settings.own_user,
        ..GroupCall::NONE
    }
}

// The announcement that a group action brings.
fn group_action_announced(settings: Settings, action: GroupAction) -> Announced
    ensures { result ≡ group_action_announced settings action }
{
    match action {
        GroupAction::Start(start) => Announced {
            call: started_group_call(settings, start),
            confirm: start.confirm,
        },
        GroupAction::Raise(raise) => Announced {
            call: raised_to(settings, raise),
            ..Announced::NONE
        },
        _ => Announced::NONE,
    }
}

// The announcement that a user action brings.
pub(crate) fn action_announced(settings: Settings, action: Action) -> Announced
    ensures { result ≡ action_announced settings action }
{
    match action {
        Action::Private(_) => Announced::NONE,
        Action::Group(a) => group_action_announced(settings, a),
    }
}

// The announcement that a message is, if it is one.
pub(crate) fn message_announced(message: Message) -> Announced
    ensures { result ≡ message_announced message }
{
    match message {
        Message::Announcement(call, confirm) => Announced { call, confirm },
        _ => Announced::NONE,
    }
}
