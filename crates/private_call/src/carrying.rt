// What carrying out a row of the private call machine gives, by the rules for all rows.
ghost use Rattle.std.specs.Prelude.{◌≡◌, Some};
ghost use Rattle.private_call.specs.Carried.{carry_out, one_more, counter_after, counters_after, call_of};
ghost use Rattle.private_call.specs.Carried.{held_of, reason_or, sent_of};
ghost use Rattle.call.specs.Request.{as_message};
ghost use Rattle.private_record.specs.Formed.{call_request};

use crate::effects::{Hold, Reason, Say, effect_of};
use crate::timers;
use call::timers::TimerSets;
use call::{Counters, Input, Request, Settings, request_of};
use frame::{Media, Message, Parties};
use private_record::states::{PrivateCall, PrivateRecord, Timers};
use private_rows::Row;
use stepping::Carried;

// ---- the counters

// One more, up to the limit.
fn one_more(limit: u8, counter: u8) -> u8
    ensures { result ≡ one_more limit counter }
{
    if counter < limit {
        counter + 1
    } else {
        counter
    }
}

// What the rules ask of one counter.
#[derive(Clone, Copy)]
pub struct CounterFacts {
    // Its timer runs after the step.
    pub runs: bool,
    // Its timer is started.
    pub started: bool,
    // The row says again what got no reply.
    pub again: bool,
    // Its limit.
    pub limit: u8,
    // What it was.
    pub was: u8,
}

impl CounterFacts {
    // What it is after the step: 0 where its timer does not run; where its timer is started, 1 or one more.
    fn after(self) -> u8
        ensures { result ≡ counter_after self }
    {
        if !self.runs {
            0
        } else if !self.started {
            self.was
        } else if self.again {
            one_more(self.limit, self.was)
        } else {
            Counters::LEAST
        }
    }
}

// The three counters.
#[tactic(auto, unfolding(crate::specs::Carried::counters_after))]
fn counters_after(
    running: Timers,
    started: Timers,
    again: bool,
    limits: Counters,
    counters: Counters,
) -> Counters
    ensures { result ≡ counters_after running started again limits counters }
{
    let after = |runs, started, limit, was| {
        CounterFacts {
            runs,
            started,
            again,
            limit,
            was,
        }
        .after()
    };
    Counters {
        cfp1: after(running.tfp1, started.tfp1, limits.cfp1, counters.cfp1),
        cfp3: after(running.tfp3, started.tfp3, limits.cfp3, counters.cfp3),
        cfp4: after(running.tfp4, started.tfp4, limits.cfp4, counters.cfp4),
    }
}

// ---- the call

// The call of a setup request, with its media.
fn call_of(request: Request, media: Media) -> PrivateCall
    ensures { result ≡ call_of request media }
{
    PrivateCall {
        parties: request.parties,
        commencement: request.setup.commencement,
        media,
        pck_id: request.setup.pck_id,
    }
}

impl Hold {
    // The call that the record holds afterwards.
    fn held(self, stored: PrivateCall, request: Request, media: Media) -> PrivateCall
        ensures { result ≡ held_of self stored request media }
    {
        match self {
            Hold::Keep => stored,
            Hold::Request => call_of(request, media),
            Hold::Media => PrivateCall { media, ..stored },
            Hold::Clear => PrivateCall::NONE,
        }
    }
}

// ---- the message

// The reason, or FAILED where reasons are kept back.
fn reason_or(settings: Settings, reason: Reason) -> u8
    ensures { result ≡ reason_or settings reason }
{
    if settings.restricted() {
        Reason::Failed as u8
    } else {
        reason as u8
    }
}

// The setup request of a call, as a message.
fn setup_request(call: PrivateCall) -> Message
    ensures { result ≡ as_message (call_request call) }
{
    let request = Request::private(call.parties, call.commencement, call.pck_id);
    Message::SetupRequest(request.parties, request.setup)
}

// What is sent, from the call held afterwards; where another call is refused, with the parties of its request.
fn sent(settings: Settings, say: Option<Say>, call: PrivateCall, other: Parties) -> Option<Message>
    ensures { result ≡ sent_of settings say call other }
{
    let message = match say? {
        Say::SetupRequest => setup_request(call),
        Say::Ringing => Message::Ringing(call.parties),
        Say::Accept => Message::Accept(call.parties),
        Say::Release => Message::Release(call.parties),
        Say::ReleaseAck => Message::ReleaseAck(call.parties),
        Say::AcceptAck => Message::AcceptAck(call.parties),
        Say::Reject(reason) => Message::Reject(call.parties, reason_or(settings, reason)),
        Say::RejectOther => Message::Reject(other, reason_or(settings, Reason::Busy)),
    };
    Some(message)
}

// ---- the whole

// Carries out a row.
#[tactic(auto, unfolding(crate::specs::Carried::carry_out))]
pub(crate) fn carry_out(
    settings: Settings,
    stored: PrivateRecord,
    input: Input,
    row: Row,
) -> Carried<PrivateRecord, Timers>
    ensures { result ≡ carry_out settings stored input (Some row) }
{
    let effect = effect_of(row, stored.state);
    let request = request_of(settings, input.event);
    let started = timers::started(stored.state, effect.to, effect.start);
    let sets = TimerSets {
        was_running: stored.running,
        ran_out: timers::ran_out(input.event),
        stop_asked: effect.stop,
        started,
        state_changes: stored.state != effect.to,
    };
    let running = sets.running_after();
    let call = effect.hold.held(stored.call, request, input.media);
    Carried {
        next: PrivateRecord {
            state: effect.to,
            running,
            counters: counters_after(
                running,
                started,
                effect.again,
                settings.limits,
                stored.counters,
            ),
            call,
        },
        stop: sets.stopped(),
        start: started,
        sent: sent(settings, effect.say, call, request.parties),
    }
}
