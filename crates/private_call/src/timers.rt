// Which timer just ran out, and which start.
ghost use Rattle.std.specs.Prelude.{◌≡◌};
ghost use Rattle.private_call.specs.Carried.{ran_out_by, started_of};

use call::{Event, PrivateTimer, Timer};
use private_record::states::{State, Timers};

// The timer that just ran out.
pub(crate) fn ran_out(event: Event) -> Timers
    ensures { result ≡ ran_out_by event }
{
    match event {
        Event::Expiry(Timer::Private(PrivateTimer::Tfp1)) => Timers::TFP1,
        Event::Expiry(Timer::Private(PrivateTimer::Tfp2)) => Timers::TFP2,
        Event::Expiry(Timer::Private(PrivateTimer::Tfp3)) => Timers::TFP3,
        Event::Expiry(Timer::Private(PrivateTimer::Tfp4)) => Timers::TFP4,
        Event::Expiry(Timer::Private(PrivateTimer::Tfp5)) => Timers::TFP5,
        Event::Expiry(Timer::Private(PrivateTimer::Tfp7)) => Timers::TFP7,
        _ => Timers::NONE,
    }
}

// What starts: what the row starts, and TFP7 where it enters P1.
#[tactic(auto, unfolding(crate::specs::Carried::started_of))]
pub(crate) fn started(state: State, to: State, start: Timers) -> Timers
    ensures { result ≡ started_of state to start }
{
    Timers {
        tfp7: start.tfp7 || (state != to && to == State::P1),
        ..start
    }
}
