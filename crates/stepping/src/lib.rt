// What the steps of both machines do alike: the refusals that they give ahead of any row, the line that they send, and
// what they answer.
#![tactic(auto)]

ghost use Rattle.std.specs.Prelude.{◌≡◌};
ghost use Rattle.frame.specs.Refusal.{number_of};
ghost use Rattle.call.specs.Settings.{limit_good, limits_good, settings_good};
ghost use Rattle.writer.specs.Lent.{told_by};
ghost use Rattle.stepping.specs.Numbers.{heard_good, private_start_good, private_arguments_good, group_start_good};
ghost use Rattle.stepping.specs.Numbers.{raise_good, group_arguments_good, action_good, arguments_good};
ghost use Rattle.stepping.specs.Numbers.{number_before_row};
ghost use Rattle.stepping.specs.Sending.{send_told, send_buffer};

use call::{
    Action, Counters, Event, GroupAction, GroupRaise, GroupStart, Input, PrivateAction,
    PrivateStart, Settings, announced_of, request_of,
};
use frame::range::Range;
use frame::{Frame, Media, Message, Refusal};
use writer::write_line;

// What carrying out a row gives: the next record, the timers to stop, then those to start, and what is sent.
#[derive(Clone, Copy)]
pub struct Carried<Record, Timers> {
    pub next: Record,
    pub stop: Timers,
    pub start: Timers,
    pub sent: Option<Message>,
}

// What a step answers that is not refused: the row, if one is met, and what carrying it out gives; `stop` comes ahead
// of `start`, and the line of this length stands at the front of the buffer.
// A length of 0 and no Option: `send_told` promises it where nothing is sent, which is no line of no bytes.
#[derive(Clone, Copy)]
pub struct Stepped<Row, Record, Timers> {
    pub row: Option<Row>,
    pub next: Record,
    pub stop: Timers,
    pub start: Timers,
    pub length: usize,
}

// ---- the settings

// The limit of a counter.
fn limit_good(limit: u8) -> bool
    ensures { result ≡ limit_good limit }
{
    Counters::LEAST <= limit && limit <= Counters::MOST
}

// The limits of the three counters.
fn limits_good(limits: Counters) -> bool
    ensures { result ≡ limits_good limits }
{
    limit_good(limits.cfp1) && limit_good(limits.cfp3) && limit_good(limits.cfp4)
}

// Every setting is in its range: own user and own group are never 0.
#[tactic(auto, unfolding(call::specs::Settings::settings_good))]
fn settings_good(settings: Settings) -> bool
    ensures { result ≡ settings_good settings }
{
    Range::FourBytes.has(settings.own_user)
        && Range::FourBytes.has(settings.own_group)
        && limits_good(settings.limits)
}

// ---- what is heard, and what the user asks for

// A message's fields are in range; other events have none.
// Event and media apart, here and below, and no Input: what is judged is in the end a part of the event.
fn heard_good(event: Event, media: Media) -> bool
    ensures { result ≡ heard_good event media }
{
    match event {
        Event::Message(message) => Frame { message, media }.in_range(),
        _ => true,
    }
}

// A private start is judged by the setup request that it makes; and its callee is not own.
fn private_start_good(settings: Settings, start: PrivateStart, media: Media) -> bool
    ensures { result ≡ private_start_good settings start media }
{
    let event = Event::Action(Action::Private(PrivateAction::Start(start)));
    let request = request_of(settings, event);
    let message = Message::SetupRequest(request.parties, request.setup);
    Frame { message, media }.in_range() && start.callee != settings.own_user
}

// The arguments of the private actions.
fn private_arguments_good(settings: Settings, action: PrivateAction, media: Media) -> bool
    ensures { result ≡ private_arguments_good settings action media }
{
    match action {
        PrivateAction::Start(start) => private_start_good(settings, start, media),
        _ => true,
    }
}

// A group start is judged by the announcement that it makes.
fn group_start_good(settings: Settings, start: GroupStart, media: Media) -> bool
    ensures { result ≡ group_start_good settings start media }
{
    let event = Event::Action(Action::Group(GroupAction::Start(start)));
    let announced = announced_of(settings, event);
    let message = Message::Announcement(announced.call, announced.confirm);
    Frame { message, media }.in_range()
}

// The type and the time of a raise.
fn raise_good(raise: GroupRaise) -> bool
    ensures { result ≡ raise_good raise }
{
    Range::GroupType.has(raise.call_type as u32) && Range::Time.has(raise.now)
}

// The arguments of the group actions.
fn group_arguments_good(settings: Settings, action: GroupAction, media: Media) -> bool
    ensures { result ≡ group_arguments_good settings action media }
{
    match action {
        GroupAction::Start(start) => group_start_good(settings, start, media),
        GroupAction::Raise(raise) => raise_good(raise),
        _ => true,
    }
}

// The arguments of the actions of both machines.
fn action_good(settings: Settings, action: Action, media: Media) -> bool
    ensures { result ≡ action_good settings action media }
{
    match action {
        Action::Private(a) => private_arguments_good(settings, a, media),
        Action::Group(a) => group_arguments_good(settings, a, media),
    }
}

// An action's arguments are in range; other events have none.
fn arguments_good(settings: Settings, event: Event, media: Media) -> bool
    ensures { result ≡ arguments_good settings event media }
{
    match event {
        Event::Action(action) => action_good(settings, action, media),
        _ => true,
    }
}

// ---- the refusals ahead of any row

// What a step refuses before it looks for a row, by its number: 7 for a setting, 9 for a record that is not well formed,
// 5 for a field of a message, 8 for an argument of an action.
#[tactic(auto, unfolding(crate::specs::Numbers::number_before_row))]
pub fn number_before_row(settings: Settings, well_formed: bool, input: Input) -> Result<(), Refusal>
    ensures { number_of result ≡ number_before_row settings well_formed input }
{
    if !settings_good(settings) {
        return Err(Refusal::WrongSetting);
    }
    if !well_formed {
        return Err(Refusal::NotWellFormed);
    }
    if !heard_good(input.event, input.media) {
        return Err(Refusal::WrongField);
    }
    if !arguments_good(settings, input.event, input.media) {
        return Err(Refusal::WrongArgument);
    }
    Ok(())
}

// ---- the line that is sent

// What a step sends, at the front of a lent buffer: nothing, or the line of a message, as the writer answers.
// A lent buffer and a length, no Vec, as in the writer; the length is 0 where nothing is sent, as `send_told` promises.
#[tactic(auto, unfolding(writer::specs::Writing::written_of, writer::specs::Writing::buffer_of))]
pub fn write_sent(sent: Option<Message>, media: Media, out: &mut [u8]) -> Result<usize, Refusal>
    ensures value { told_by result ≡ send_told sent media out.old }
    ensures out_after { out.new ≡ send_buffer sent media out.old }
{
    match sent {
        None => Ok(0),
        Some(message) => write_line(Frame { message, media }, out),
    }
}
