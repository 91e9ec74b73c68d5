// What the private and the group machine share: settings, timers and what becomes of them, actions and events; and the
// setup request or the announcement that an event brings.
#![tactic(auto)]

mod announcements;
mod requests;
pub mod timers;

ghost use Rattle.std.specs.Prelude.{◌≡◌};
ghost use Rattle.call.specs.Announced.{announced_of};
ghost use Rattle.call.specs.Request.{private_request, request_of};
ghost use Rattle.call.specs.Settings.{restricted as restricted_by};

use frame::{GroupCall, Media, Message, Parties, Setup};

// The three counters, each of the sendings of one message; and a limit for each of them.
#[derive(Clone, Copy, PartialEq, Eq)]
pub struct Counters {
    pub cfp1: u8,
    pub cfp3: u8,
    pub cfp4: u8,
}

impl Counters {
    // What a counter begins with, its least value while it counts, and its least limit.
    pub const LEAST: u8 = 1;

    // The largest limit of a counter.
    pub const MOST: u8 = 16;

    // Where no counter counts.
    pub const ZERO: Counters = Counters {
        cfp1: 0,
        cfp3: 0,
        cfp4: 0,
    };
}

// What the terminal is set to.
#[derive(Clone, Copy, PartialEq, Eq)]
pub struct Settings {
    pub own_user: u32,
    pub own_group: u32,
    pub restrict: bool,
    pub acknowledgement: bool,
    pub limits: Counters,
}

impl Settings {
    // Whether the reason of a reject is kept back.
    pub fn restricted(self) -> bool
        ensures { result ≡ restricted_by self }
    {
        self.restrict
    }
}

// What the host finds out: whether media can be set up, and whether the signature is good.
#[derive(Clone, Copy, PartialEq, Eq)]
pub struct Verdicts {
    pub media: bool,
    pub signature: bool,
}

// The timers of the private machine.
#[derive(Clone, Copy, PartialEq, Eq)]
pub enum PrivateTimer {
    Tfp1,
    Tfp2,
    Tfp3,
    Tfp4,
    Tfp5,
    Tfp7,
}

// The timers of the group machine.
#[derive(Clone, Copy, PartialEq, Eq)]
pub enum GroupTimer {
    Tfg2,
    Tfg4,
    Tfg6,
}

// The timers, by their machine.
#[derive(Clone, Copy, PartialEq, Eq)]
pub enum Timer {
    Private(PrivateTimer),
    Group(GroupTimer),
}

// What the user names who starts a private call; its media stands beside it.
// Numbers in place of enums, here and below: one out of its range is an argument that a step refuses, with 8.
#[derive(Clone, Copy, PartialEq, Eq)]
pub struct PrivateStart {
    pub identifier: u16,
    pub callee: u32,
    pub commencement: u8,
    pub pck_id: u32,
}

// What the user does with a private call.
#[derive(Clone, Copy, PartialEq, Eq)]
pub enum PrivateAction {
    Start(PrivateStart),
    End,
    Accept,
    Reject,
}

// What the user names who starts a group call, and the time; its media stands beside it.
#[derive(Clone, Copy, PartialEq, Eq)]
pub struct GroupStart {
    pub identifier: u16,
    pub call_type: u8,
    pub refresh: u16,
    pub confirm: u8,
    pub now: u32,
}

// The type that the user raises a group call to, and the time.
#[derive(Clone, Copy, PartialEq, Eq)]
pub struct GroupRaise {
    pub call_type: u8,
    pub now: u32,
}

// What the user does with a group call.
#[derive(Clone, Copy, PartialEq, Eq)]
pub enum GroupAction {
    Start(GroupStart),
    Accept,
    Reject,
    Leave,
    Raise(GroupRaise),
}

// The user actions, by their machine.
#[derive(Clone, Copy, PartialEq, Eq)]
pub enum Action {
    Private(PrivateAction),
    Group(GroupAction),
}

// What happens: a user action, the expiry of a timer, or a message that was received.
#[derive(Clone, Copy, PartialEq, Eq)]
pub enum Event {
    Action(Action),
    Expiry(Timer),
    Message(Message),
}

// What a step takes in: an event, the media beside it, and the host's verdicts.
// Settings and record are not in it: a host keeps each in its own place, and theorems vary one while the rest stays.
#[derive(Clone, Copy, PartialEq, Eq)]
pub struct Input {
    pub event: Event,
    pub media: Media,
    pub verdicts: Verdicts,
}

// A setup request: the parties of a private call, and what it says besides.
#[derive(Clone, Copy, PartialEq, Eq)]
pub struct Request {
    pub parties: Parties,
    pub setup: Setup,
}

impl Request {
    // What an event without a setup request has in its place.
    // No Option, which is no plainer: `request_of` promises these fields, so each use would unwrap to them.
    pub const NONE: Request = Request {
        parties: Parties::NONE,
        setup: Setup {
            commencement: 0,
            call_type: 0,
            pck_id: 0,
        },
    };

    // The setup request of a private call.
    pub fn private(parties: Parties, commencement: u8, pck_id: u32) -> Request
        ensures { result ≡ private_request parties commencement pck_id }
    {
        Request {
            parties,
            setup: Setup {
                commencement,
                call_type: Setup::PRIVATE,
                pck_id,
            },
        }
    }
}

// The setup request that an event brings: the one received, or the one that the user's start makes.
pub fn request_of(settings: Settings, event: Event) -> Request
    ensures { result ≡ request_of settings event }
{
    match event {
        Event::Action(action) => requests::action_request(settings, action),
        Event::Expiry(_) => Request::NONE,
        Event::Message(message) => requests::message_request(message),
    }
}

// An announcement: a group call, all but its media, and whether it asks the others to confirm.
#[derive(Clone, Copy, PartialEq, Eq)]
pub struct Announced {
    pub call: GroupCall,
    pub confirm: u8,
}

impl Announced {
    // What an event without an announcement has in its place.
    // No Option, which is no plainer: `announced_of` promises these fields, so each use would unwrap to them.
    pub const NONE: Announced = Announced {
        call: GroupCall::NONE,
        confirm: 0,
    };
}

// The announcement that an event brings: the one received, or the one that the user's start makes; a raise brings its
// type, its time and own as the changer.
pub fn announced_of(settings: Settings, event: Event) -> Announced
    ensures { result ≡ announced_of settings event }
{
    match event {
        Event::Action(action) => announcements::action_announced(settings, action),
        Event::Expiry(_) => Announced::NONE,
        Event::Message(message) => announcements::message_announced(message),
    }
}
