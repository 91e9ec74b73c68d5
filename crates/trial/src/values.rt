// A frame as numbers, one a field, in the order of its line.
ghost use Rattle.std.specs.Prelude.{◌≡◌, [], ◌∷◌, get_or};
ghost use Rattle.frame.specs.Kind.{kind_number};
ghost use Rattle.frame.specs.Digits.{one, two};
ghost use Rattle.frame.specs.Layout.{parties_then, acceptance_then};
ghost use Rattle.frame.specs.declared.Message.TheVariants.{SetupRequest, Announcement};
ghost use Rattle.reader.specs.Line.{frame_values};
ghost use Rattle.trial.specs.Values.{cut, parties_in, setup_in, group_call_in, acceptance_in, message_in};
ghost use Rattle.trial.specs.Values.{media_with, media_in};

use crate::carried::{media_value, media_with};
use frame::{Acceptance, Frame, GroupCall, Kind, Media, Message, Parties, Setup};

// The value at a place, 0 where there is none.
pub(crate) fn value_at(values: &[u32], place: usize) -> u32
    ensures { result ≡ get_or values.now place 0 }
{
    values.get(place).copied().unwrap_or(0)
}

// The value at a place, cut to a byte.
fn byte_at(values: &[u32], place: usize) -> u8
    ensures { result ≡ cut one (get_or values.now place 0) }
{
    (value_at(values, place) % 256) as u8
}

// The value at a place, cut to two bytes.
// Two functions, no generic one: each gives the type of its fields, by a cast that it proves.
fn two_bytes_at(values: &[u32], place: usize) -> u16
    ensures { result ≡ cut two (get_or values.now place 0) }
{
    (value_at(values, place) % 65536) as u16
}

// One value of a frame with a private call and one number more: an accept's media, a reject's reason; 0 where there is
// none.
fn parties_value(kind: Kind, parties: Parties, more: u32, place: usize) -> u32
    ensures { result ≡ get_or (kind_number kind ∷ parties_then parties (more ∷ [])) place 0 }
{
    let values = [
        kind as u32,
        parties.identifier as u32,
        parties.caller,
        parties.callee,
        more,
    ];
    value_at(&values, place)
}

// One value of a setup request, whose media has this value.
fn setup_value(parties: Parties, setup: Setup, media: u32, place: usize) -> u32
    ensures { result ≡ get_or (frame_values (SetupRequest parties setup) (media_with media)) place 0 }
{
    let values = [
        1,
        parties.identifier as u32,
        parties.caller,
        parties.callee,
        setup.commencement as u32,
        setup.call_type as u32,
        media,
        setup.pck_id,
    ];
    value_at(&values, place)
}

// One value of an announcement, whose media has this value.
fn announcement_value(call: GroupCall, confirm: u8, media: u32, place: usize) -> u32
    ensures { result ≡ get_or (frame_values (Announcement call confirm) (media_with media)) place 0 }
{
    let values = [
        8,
        call.identifier as u32,
        call.group,
        call.call_type as u32,
        call.refresh as u32,
        media,
        call.originator,
        call.start,
        call.last_change,
        call.last_changer,
        confirm as u32,
    ];
    value_at(&values, place)
}

// One value of a group call accept.
fn acceptance_value(acceptance: Acceptance, place: usize) -> u32
    ensures { result ≡ get_or (9 ∷ acceptance_then acceptance) place 0 }
{
    let values = [
        9,
        acceptance.identifier as u32,
        acceptance.sender,
        acceptance.call_type as u32,
        acceptance.group,
    ];
    value_at(&values, place)
}

// One value of a frame.
pub(crate) fn frame_value(frame: Frame, place: usize) -> u32
    ensures { result ≡ get_or (frame_values frame.message frame.media) place 0 }
{
    let Frame { message, media } = frame;
    let carried = media_value(media);
    match message {
        Message::SetupRequest(parties, setup) => setup_value(parties, setup, carried, place),
        Message::Ringing(parties) => parties_value(Kind::Ringing, parties, 0, place),
        Message::Accept(parties) => parties_value(Kind::Accept, parties, carried, place),
        Message::Reject(parties, reason) => {
            parties_value(Kind::Reject, parties, reason as u32, place)
        }
        Message::Release(parties) => parties_value(Kind::Release, parties, 0, place),
        Message::ReleaseAck(parties) => parties_value(Kind::ReleaseAck, parties, 0, place),
        Message::AcceptAck(parties) => parties_value(Kind::AcceptAck, parties, 0, place),
        Message::Announcement(call, confirm) => announcement_value(call, confirm, carried, place),
        Message::GroupAccept(acceptance) => acceptance_value(acceptance, place),
    }
}

// The private call with these values.
fn parties_from(values: &[u32]) -> Parties
    ensures { result ≡ parties_in values.now }
{
    Parties {
        identifier: two_bytes_at(values, 1),
        caller: value_at(values, 2),
        callee: value_at(values, 3),
    }
}

// What a setup request with these values says besides.
fn setup_from(values: &[u32]) -> Setup
    ensures { result ≡ setup_in values.now }
{
    Setup {
        commencement: byte_at(values, 4),
        call_type: byte_at(values, 5),
        pck_id: value_at(values, 7),
    }
}

// The group call with these values.
fn group_call_from(values: &[u32]) -> GroupCall
    ensures { result ≡ group_call_in values.now }
{
    GroupCall {
        identifier: two_bytes_at(values, 1),
        group: value_at(values, 2),
        call_type: byte_at(values, 3),
        refresh: two_bytes_at(values, 4),
        originator: value_at(values, 6),
        start: value_at(values, 7),
        last_change: value_at(values, 8),
        last_changer: value_at(values, 9),
    }
}

// The acceptance with these values.
fn acceptance_from(values: &[u32]) -> Acceptance
    ensures { result ≡ acceptance_in values.now }
{
    Acceptance {
        identifier: two_bytes_at(values, 1),
        sender: value_at(values, 2),
        call_type: byte_at(values, 3),
        group: value_at(values, 4),
    }
}

// The message of a kind with these values.
pub(crate) fn message_from(kind: Kind, values: &[u32]) -> Message
    ensures { result ≡ message_in (kind_number kind) values.now }
{
    match kind {
        Kind::SetupRequest => Message::SetupRequest(parties_from(values), setup_from(values)),
        Kind::Ringing => Message::Ringing(parties_from(values)),
        Kind::Accept => Message::Accept(parties_from(values)),
        Kind::Reject => Message::Reject(parties_from(values), byte_at(values, 4)),
        Kind::Release => Message::Release(parties_from(values)),
        Kind::ReleaseAck => Message::ReleaseAck(parties_from(values)),
        Kind::AcceptAck => Message::AcceptAck(parties_from(values)),
        Kind::Announcement => {
            Message::Announcement(group_call_from(values), byte_at(values, 10))
        }
        Kind::GroupAccept => Message::GroupAccept(acceptance_from(values)),
    }
}

// The media of a kind with these values, none where the kind carries none.
pub(crate) fn media_from(kind: Kind, values: &[u32]) -> Media
    ensures { result ≡ media_in (kind_number kind) values.now }
{
    match kind {
        Kind::SetupRequest => media_with(value_at(values, 6)),
        Kind::Accept => media_with(value_at(values, 4)),
        Kind::Announcement => media_with(value_at(values, 5)),
        _ => Media::NONE,
    }
}
