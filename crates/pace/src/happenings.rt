// Who plays a script, and what each of its bytes stands for.
ghost use Rattle.std.specs.Prelude.{◌≡◌};
ghost use Rattle.pace.specs.Script.{announces, private_event, group_event};
ghost use Rattle.pace.specs.Script.{media_by, input_with, private_input, group_input};

use call::{
    Action, Counters, Event, GroupAction, GroupRaise, GroupStart, GroupTimer, Input, PrivateAction,
    PrivateStart, PrivateTimer, Settings, Timer, Verdicts,
};
use frame::{Acceptance, GroupCall, Media, Message, Parties, Setup};

// User 7 of group 3, who is asked before a group call is joined, every limit 3.
pub(crate) const CREW: Settings = Settings {
    own_user: 7,
    own_group: 3,
    restrict: false,
    acknowledgement: true,
    limits: Counters {
        cfp1: 3,
        cfp3: 3,
        cfp4: 3,
    },
};

// The call that user 7 makes to user 9.
const OURS: Parties = Parties {
    identifier: 0x1234,
    caller: 7,
    callee: 9,
};

// A call that user 9 makes to user 7.
const THEIRS: Parties = Parties {
    identifier: 0x4321,
    caller: 9,
    callee: 7,
};

// Another one.
const STRANGE: Parties = Parties {
    identifier: 0x0999,
    caller: 9,
    callee: 7,
};

// What user 7 names who starts the private call.
const PRIVATE_START: PrivateStart = PrivateStart {
    identifier: 0x1234,
    callee: 9,
    commencement: 0,
    pck_id: 0,
};

// What the request of user 9 says besides: manual commencement, no PCK-ID.
const THEIR_SETUP: Setup = Setup {
    commencement: 1,
    call_type: 4,
    pck_id: 0,
};

// What user 7 names who starts the group call: basic, at the time 1000, with confirm.
const GROUP_START: GroupStart = GroupStart {
    identifier: 16,
    call_type: 1,
    refresh: 30,
    confirm: 1,
    now: 1000,
};

// What user 7 raises it to: emergency, at the time 1200.
const GROUP_RAISE: GroupRaise = GroupRaise {
    call_type: 2,
    now: 1200,
};

// The accept of user 9.
const ACCEPTED: Acceptance = Acceptance {
    identifier: 16,
    sender: 9,
    call_type: 2,
    group: 3,
};

// A call of user 9, unchanged since its start, is announced with confirm.
fn announcement(identifier: u16, group: u32, call_type: u8, start: u32) -> Event
    ensures { result ≡ announces identifier group call_type start }
{
    Event::Message(Message::Announcement(
        GroupCall {
            identifier,
            group,
            call_type,
            refresh: 30,
            originator: 9,
            start,
            last_change: start,
            last_changer: 9,
        },
        1,
    ))
}

// What a byte stands for to the private machine.
fn private_event(byte: u8) -> Event
    ensures { result ≡ private_event byte }
{
    match byte {
        0 => Event::Action(Action::Private(PrivateAction::Start(PRIVATE_START))),
        1 => Event::Message(Message::Ringing(OURS)),
        2 => Event::Message(Message::Accept(OURS)),
        3 => Event::Action(Action::Private(PrivateAction::End)),
        4 => Event::Message(Message::ReleaseAck(OURS)),
        5 => Event::Expiry(Timer::Private(PrivateTimer::Tfp7)),
        6 => Event::Message(Message::SetupRequest(THEIRS, THEIR_SETUP)),
        7 => Event::Action(Action::Private(PrivateAction::Accept)),
        8 => Event::Message(Message::AcceptAck(THEIRS)),
        9 => Event::Message(Message::Release(THEIRS)),
        10 => Event::Expiry(Timer::Private(PrivateTimer::Tfp1)),
        _ => Event::Message(Message::Reject(STRANGE, 2)),
    }
}

// What a byte stands for to the group machine.
fn group_event(byte: u8) -> Event
    ensures { result ≡ group_event byte }
{
    match byte {
        0 => Event::Action(Action::Group(GroupAction::Start(GROUP_START))),
        1 => Event::Expiry(Timer::Group(GroupTimer::Tfg2)),
        2 => announcement(17, 3, 2, 1100),
        3 => announcement(18, 3, 1, 2000),
        4 => Event::Action(Action::Group(GroupAction::Raise(GROUP_RAISE))),
        5 => Event::Action(Action::Group(GroupAction::Leave)),
        6 => Event::Action(Action::Group(GroupAction::Accept)),
        7 => Event::Action(Action::Group(GroupAction::Reject)),
        8 => Event::Expiry(Timer::Group(GroupTimer::Tfg4)),
        9 => Event::Message(Message::GroupAccept(ACCEPTED)),
        _ => announcement(17, 4, 2, 1100),
    }
}

// The media beside what a byte stands for: 6 at the bytes 2 and 3, else 5.
fn media_by(byte: u8) -> Media
    ensures { result ≡ media_by byte }
{
    Media {
        number: if matches!(byte, 2 | 3) { 6 } else { 5 },
    }
}

// An event with its media, where media can be set up and the signature is good.
fn input_with(event: Event, media: Media) -> Input
    ensures { result ≡ input_with event media }
{
    Input {
        event,
        media,
        verdicts: Verdicts {
            media: true,
            signature: true,
        },
    }
}

// What a step of the private machine takes in by a byte.
pub(crate) fn private_input(byte: u8) -> Input
    ensures { result ≡ private_input byte }
{
    input_with(private_event(byte), media_by(byte))
}

// What a step of the group machine takes in by a byte.
pub(crate) fn group_input(byte: u8) -> Input
    ensures { result ≡ group_input byte }
{
    input_with(group_event(byte), media_by(byte))
}
