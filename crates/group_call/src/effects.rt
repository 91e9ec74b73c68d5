// What each row of the group call machine does.
ghost use Rattle.std.specs.Prelude.{◌≡◌, Some};
ghost use Rattle.group_call.specs.Effects.{enters as enters_of, stays as stays_of, starts as starts_of};
ghost use Rattle.group_call.specs.Effects.{restarts as restarts_of, waits, confirms, effect_of};

use group_record::states::{State, Timers};
use group_rows::Row;

// Which call the record holds afterwards.
#[derive(Clone, Copy)]
pub enum Hold {
    // The stored one.
    Keep,
    // The one announced, in all its fields.
    Announced,
    // The stored one, with another type, time of the last change and changer.
    Change,
    // As Change where the change is later than the stored one, else as Keep.
    LaterChange,
    // None.
    Clear,
}

// What a row sends, if it sends anything.
#[derive(Clone, Copy)]
pub enum Say {
    // An announcement with the user's confirm.
    FirstAnnouncement,
    // An announcement with confirm 0.
    Announcement,
    Accept,
}

// What a row does.
// Not said once with the private machine's: over four types it would save two functions, and no definition.
#[derive(Clone, Copy)]
pub struct Effect {
    // The state afterwards.
    pub to: State,
    // The timers that it stops though the state stays.
    pub stop: Timers,
    // The timers that it starts.
    pub start: Timers,
    pub hold: Hold,
    pub say: Option<Say>,
}

impl Effect {
    // A row that enters a state.
    fn enters(to: State, start: Timers, hold: Hold, say: Option<Say>) -> Effect
        ensures { result ≡ enters_of to start hold say }
    {
        Effect {
            start,
            ..Effect::stays(to, hold, say)
        }
    }

    // A row that leaves state and timers as they are.
    fn stays(state: State, hold: Hold, say: Option<Say>) -> Effect
        ensures { result ≡ stays_of state hold say }
    {
        Effect {
            to: state,
            stop: Timers::NONE,
            start: Timers::NONE,
            hold,
            say,
        }
    }

    // A row that starts a timer while state and call stay.
    fn starts(state: State, start: Timers, say: Option<Say>) -> Effect
        ensures { result ≡ starts_of state start say }
    {
        Effect::enters(state, start, Hold::Keep, say)
    }

    // A row that stops timers and starts them again while the state stays.
    fn restarts(state: State, timers: Timers, hold: Hold) -> Effect
        ensures { result ≡ restarts_of state timers hold }
    {
        Effect {
            stop: timers,
            ..Effect::enters(state, timers, hold, None)
        }
    }
}

// The state that waits for the user: S5 where the announcement asks for confirm, else S4.
fn waiting(confirm: bool) -> State
    ensures { result ≡ waits confirm }
{
    if confirm { State::S5 } else { State::S4 }
}

// An accept where the announcement asks for confirm, else nothing.
fn confirming(confirm: bool) -> Option<Say>
    ensures { result ≡ confirms confirm }
{
    confirm.then_some(Say::Accept)
}

// What a row does in a state: the table of the rows; confirm is whether the announcement asks for it.
pub(crate) fn effect_of(row: Row, state: State, confirm: bool) -> Effect
    ensures { result ≡ effect_of (Some row) state confirm }
{
    let both = Timers::TFG2_TFG6;
    match row {
        Row::G1 => Effect::enters(
            State::S3,
            both,
            Hold::Announced,
            Some(Say::FirstAnnouncement),
        ),
        Row::G2 => Effect::starts(state, Timers::TFG2, Some(Say::Announcement)),
        Row::G3 => Effect::enters(waiting(confirm), Timers::TFG4, Hold::Announced, None),
        Row::G4 => Effect::enters(State::S3, both, Hold::Announced, confirming(confirm)),
        Row::G5 => Effect::enters(State::S3, both, Hold::Keep, Some(Say::Accept)),
        Row::G6 => Effect::enters(State::S3, both, Hold::Keep, None),
        Row::G7 => Effect::enters(State::S1, Timers::NONE, Hold::Clear, None),
        Row::G8 => Effect::enters(State::S1, Timers::NONE, Hold::Clear, None),
        Row::G9 => Effect::stays(state, Hold::Change, Some(Say::Announcement)),
        Row::G10 => Effect::restarts(state, both, Hold::Announced),
        Row::G11 => Effect::restarts(state, Timers::TFG2, Hold::LaterChange),
    }
}
