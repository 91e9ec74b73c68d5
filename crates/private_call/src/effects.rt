// What each row of the private call machine does.
ghost use Rattle.std.specs.Prelude.{◌≡◌, Some};
ghost use Rattle.private_call.specs.Effects.{enters as enters_of, takes as takes_of, ends as ends_of};
ghost use Rattle.private_call.specs.Effects.{stays as stays_of, repeats as repeats_of, turns as turns_of};
ghost use Rattle.private_call.specs.Effects.{rejects, effect_of};

use private_record::states::{State, Timers};
use private_rows::Row;

// Which call the record holds afterwards.
#[derive(Clone, Copy)]
pub enum Hold {
    // The stored one.
    Keep,
    // The one of the setup request.
    Request,
    // The stored one, with the media that came with the message.
    Media,
    // None.
    Clear,
}

// The reasons of a reject, each with its number.
#[derive(Clone, Copy)]
pub enum Reason {
    Reject = 0,
    MediaFailure = 1,
    Busy = 2,
    SecurityFailure = 3,
    Failed = 4,
}

// What a row sends, if it sends anything.
#[derive(Clone, Copy)]
pub enum Say {
    SetupRequest,
    Ringing,
    Accept,
    Release,
    ReleaseAck,
    AcceptAck,
    // A reject with this reason, or FAILED where reasons are kept back.
    Reject(Reason),
    // BUSY, or FAILED where reasons are kept back, with the identifier and the users of the message received.
    RejectOther,
}

// What a row does.
// Not said once with the group machine's: over four types it would save two functions, and no definition.
#[derive(Clone, Copy)]
pub struct Effect {
    // The state afterwards.
    pub to: State,
    // The timers that it stops though the state stays.
    pub stop: Timers,
    // The timers that it starts.
    pub start: Timers,
    // Whether it adds 1 to the counter of a timer that it starts; else that counter is 1.
    pub again: bool,
    pub hold: Hold,
    pub say: Option<Say>,
}

impl Effect {
    // A row that enters a state.
    fn enters(to: State, start: Timers, hold: Hold, say: Option<Say>) -> Effect
        ensures { result ≡ enters_of to start hold say }
    {
        Effect {
            start,
            ..Effect::stays(to, hold, say)
        }
    }

    // A row that stores the setup request and enters a state.
    fn takes(to: State, start: Timers, say: Option<Say>) -> Effect
        ensures { result ≡ takes_of to start say }
    {
        Effect::enters(to, start, Hold::Request, say)
    }

    // A row that ends what was, and enters P1.
    fn ends(say: Option<Say>) -> Effect
        ensures { result ≡ ends_of say }
    {
        Effect::enters(State::P1, Timers::NONE, Hold::Keep, say)
    }

    // A row that leaves state and timers as they are.
    fn stays(state: State, hold: Hold, say: Option<Say>) -> Effect
        ensures { result ≡ stays_of state hold say }
    {
        Effect {
            to: state,
            stop: Timers::NONE,
            start: Timers::NONE,
            again: false,
            hold,
            say,
        }
    }

    // A row that says again what got no reply.
    fn repeats(state: State, start: Timers, say: Option<Say>) -> Effect
        ensures { result ≡ repeats_of state start say }
    {
        Effect {
            start,
            again: true,
            ..Effect::stays(state, Hold::Keep, say)
        }
    }

    // A row that puts one timer in another's place.
    fn turns(state: State, stop: Timers, start: Timers, say: Option<Say>) -> Effect
        ensures { result ≡ turns_of state stop start say }
    {
        Effect {
            stop,
            start,
            ..Effect::stays(state, Hold::Keep, say)
        }
    }
}

// A reject with this reason.
fn rejects(reason: Reason) -> Option<Say>
    ensures { result ≡ rejects reason }
{
    Some(Say::Reject(reason))
}

// What a row does: the table of the rows.
pub(crate) fn effect_of(row: Row, state: State) -> Effect
    ensures { result ≡ effect_of (Some row) state }
{
    match row {
        Row::R1 => Effect::takes(State::P2, Timers::TFP1, Some(Say::SetupRequest)),
        Row::R2 => Effect::repeats(state, Timers::TFP1, Some(Say::SetupRequest)),
        Row::R3 => Effect::ends(None),
        Row::R4 => Effect::turns(state, Timers::TFP1, Timers::TFP2, None),
        Row::R5 => Effect::enters(State::P4, Timers::TFP5, Hold::Media, Some(Say::AcceptAck)),
        Row::R6 => Effect::ends(None),
        Row::R7 => Effect::ends(None),
        Row::R8 => Effect::enters(State::P3, Timers::TFP3, Hold::Keep, Some(Say::Release)),
        Row::R9 => Effect::enters(State::P3, Timers::TFP3, Hold::Keep, Some(Say::Release)),
        Row::R10 => Effect::repeats(state, Timers::TFP3, Some(Say::Release)),
        Row::R11 => Effect::ends(None),
        Row::R12 => Effect::ends(None),
        Row::R13 => Effect::ends(Some(Say::ReleaseAck)),
        Row::R14 => Effect::stays(state, Hold::Keep, Some(Say::ReleaseAck)),
        Row::R15 => Effect::ends(None),
        Row::R16 => Effect::repeats(state, Timers::TFP4, Some(Say::Accept)),
        Row::R17 => Effect::ends(None),
        Row::R18 => Effect::enters(State::P4, Timers::TFP5, Hold::Keep, None),
        Row::R19 => Effect::takes(State::P1, Timers::TFP7, rejects(Reason::MediaFailure)),
        Row::R20 => Effect::takes(State::P5, Timers::TFP4, Some(Say::Accept)),
        Row::R21 => Effect::stays(state, Hold::Request, rejects(Reason::SecurityFailure)),
        Row::R22 => Effect::takes(State::P5, Timers::TFP2, Some(Say::Ringing)),
        Row::R23 => Effect::turns(state, Timers::TFP2, Timers::TFP4, Some(Say::Accept)),
        Row::R24 => Effect::ends(rejects(Reason::SecurityFailure)),
        Row::R25 => Effect::ends(rejects(Reason::Reject)),
        Row::R26 => Effect::ends(rejects(Reason::Failed)),
        Row::R27 => Effect::stays(state, Hold::Keep, Some(Say::RejectOther)),
        Row::R28 => Effect::enters(State::P0, Timers::NONE, Hold::Clear, None),
        Row::R29 => Effect::stays(state, Hold::Keep, Some(Say::AcceptAck)),
    }
}
