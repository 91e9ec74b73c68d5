// What happens, and what a row may ask besides.
ghost use Rattle.std.specs.Prelude.{◌≡◌};
ghost use Rattle.private_record.specs.Phases.{count_of};
ghost use Rattle.private_rows.specs.Causes.{setup_cause, message_cause, cause_of, same_identifier, same_call};
ghost use Rattle.private_rows.specs.Causes.{message_same, same_of, pck_asked, trusted as trusted_by, facts_of};

use call::{
    Action, Counters, Event, Input, PrivateAction, PrivateTimer, Request, Settings, Timer,
    Verdicts, request_of,
};
use frame::{Message, Parties};
use private_record::states::{Phase, PrivateRecord};

// What happens to a private call, without any fields; what can meet no row is Other.
// Other, no None: it is a case of `cause_number`, by which the table of the rows compares; as an Option each of its
// clauses would ask for Some.
#[derive(Clone, Copy, PartialEq, Eq)]
pub enum Cause {
    UserStarts,
    UserEnds,
    UserAccepts,
    UserRejects,
    Tfp1Expires,
    Tfp2Expires,
    Tfp3Expires,
    Tfp4Expires,
    Tfp5Expires,
    Tfp7Expires,
    SetupHeard,
    RingingHeard,
    AcceptHeard,
    RejectHeard,
    ReleaseHeard,
    ReleaseAckHeard,
    AcceptAckHeard,
    Other,
}

// What a row may ask besides the cause and the phase.
#[derive(Clone, Copy, PartialEq, Eq)]
pub struct Facts {
    // The message is of the stored call.
    pub same: bool,
    // The host's verdict: media can be set up.
    pub media_verdict: bool,
    // The request asks for manual commencement.
    pub manual: bool,
    // There is no security, or the signature is good.
    pub trusted: bool,
    // The stored caller is own.
    pub own_caller: bool,
    // The counter that counts is under its limit.
    pub under: bool,
}

// ---- what happens

// A setup request counts only if the callee is own and the caller is not.
fn setup_cause(own: u32, parties: Parties) -> Cause
    ensures { result ≡ setup_cause own parties }
{
    if parties.callee == own && parties.caller != own {
        Cause::SetupHeard
    } else {
        Cause::Other
    }
}

// A message received.
fn message_cause(own: u32, message: Message) -> Cause
    ensures { result ≡ message_cause own message }
{
    match message {
        Message::SetupRequest(parties, _) => setup_cause(own, parties),
        Message::Ringing(_) => Cause::RingingHeard,
        Message::Accept(_) => Cause::AcceptHeard,
        Message::Reject(..) => Cause::RejectHeard,
        Message::Release(_) => Cause::ReleaseHeard,
        Message::ReleaseAck(_) => Cause::ReleaseAckHeard,
        Message::AcceptAck(_) => Cause::AcceptAckHeard,
        _ => Cause::Other,
    }
}

// What happens.
pub(crate) fn cause_of(settings: Settings, event: Event) -> Cause
    ensures { result ≡ cause_of settings event }
{
    match event {
        Event::Action(Action::Private(PrivateAction::Start(_))) => Cause::UserStarts,
        Event::Action(Action::Private(PrivateAction::End)) => Cause::UserEnds,
        Event::Action(Action::Private(PrivateAction::Accept)) => Cause::UserAccepts,
        Event::Action(Action::Private(PrivateAction::Reject)) => Cause::UserRejects,
        Event::Expiry(Timer::Private(PrivateTimer::Tfp1)) => Cause::Tfp1Expires,
        Event::Expiry(Timer::Private(PrivateTimer::Tfp2)) => Cause::Tfp2Expires,
        Event::Expiry(Timer::Private(PrivateTimer::Tfp3)) => Cause::Tfp3Expires,
        Event::Expiry(Timer::Private(PrivateTimer::Tfp4)) => Cause::Tfp4Expires,
        Event::Expiry(Timer::Private(PrivateTimer::Tfp5)) => Cause::Tfp5Expires,
        Event::Expiry(Timer::Private(PrivateTimer::Tfp7)) => Cause::Tfp7Expires,
        Event::Action(Action::Group(_)) | Event::Expiry(Timer::Group(_)) => Cause::Other,
        Event::Message(message) => message_cause(settings.own_user, message),
    }
}

// ---- what a row may ask besides

// A setup request has the stored identifier; another message, which is asked the same, is of the stored call.
fn same_identifier(heard: Parties, stored: Parties) -> bool
    ensures of_request { result ≡ same_identifier heard stored }
    ensures of_other { result ≡ same_call heard stored }
{
    heard.identifier == stored.identifier
}

// A message is the same.
fn message_same(message: Message, stored: Parties) -> bool
    ensures { result ≡ message_same message stored }
{
    match message {
        Message::SetupRequest(parties, _)
        | Message::Ringing(parties)
        | Message::Accept(parties)
        | Message::Reject(parties, _)
        | Message::Release(parties)
        | Message::ReleaseAck(parties)
        | Message::AcceptAck(parties) => same_identifier(parties, stored),
        _ => false,
    }
}

// An event is a message that is the same.
fn same_of(event: Event, stored: Parties) -> bool
    ensures { result ≡ same_of event stored }
{
    match event {
        Event::Message(message) => message_same(message, stored),
        _ => false,
    }
}

// The PCK-ID that the signature is asked for: with a message that of its setup request, else the stored one.
fn pck_asked(event: Event, request: Request, stored: u32) -> u32
    ensures { result ≡ pck_asked event request stored }
{
    match event {
        Event::Message(_) => request.setup.pck_id,
        _ => stored,
    }
}

// There is no security, or the signature is good.
fn trusted(pck_id: u32, verdicts: Verdicts) -> bool
    ensures { result ≡ trusted_by pck_id verdicts }
{
    pck_id == 0 || verdicts.signature
}

// The counter that counts in a phase, of the counters or of their limits; 0 where none does.
fn count_of(phase: Phase, counters: Counters) -> u8
    ensures { result ≡ count_of phase counters }
{
    match phase {
        Phase::P2Tfp1 => counters.cfp1,
        Phase::P3 => counters.cfp3,
        Phase::P5Tfp4 => counters.cfp4,
        _ => 0,
    }
}

// What a row may ask.
pub(crate) fn facts_of(
    settings: Settings,
    phase: Phase,
    stored: PrivateRecord,
    input: Input,
) -> Facts
    ensures { result ≡ facts_of settings phase stored.counters stored.call input }
{
    let request = request_of(settings, input.event);
    let pck_id = pck_asked(input.event, request, stored.call.pck_id);
    Facts {
        same: same_of(input.event, stored.call.parties),
        media_verdict: input.verdicts.media,
        manual: request.setup.commencement == 1,
        trusted: trusted(pck_id, input.verdicts),
        own_caller: stored.call.parties.caller == settings.own_user,
        under: count_of(phase, stored.counters) < count_of(phase, settings.limits),
    }
}
