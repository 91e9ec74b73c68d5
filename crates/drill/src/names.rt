// The names that commands take, each with what it sets.
use crate::cabs::Buffer;
use crate::commands::Hearing;
use crate::complaints::{Complaint, Fault};
use crate::values::Value;
use crate::words::{Word, Words};
use call::{
    Action, Event, GroupAction, GroupRaise, GroupStart, Input, PrivateAction, PrivateStart,
    Settings, Verdicts,
};
use frame::Media;
use group_record::states::GroupRecord;
use private_record::states::PrivateRecord;

// What the names of a command set.
pub(crate) trait Names: Copy {
    // Sets what this name stands for to the value of a word.
    fn set(&mut self, name: &[u8], word: &[u8]) -> Result<(), Complaint>;
}

// How many names a command takes at most: those of a private record.
const MOST_NAMES: usize = 16;

impl<'a> Words<'a> {
    // What was there, with all that the words name set.
    // The names that were given are kept: to look for one among the words again would take a walk of the line.
    pub(crate) fn named<N: Names>(self, mut fields: N) -> Result<N, Fault> {
        let mut names: [&[u8]; MOST_NAMES] = [&[]; MOST_NAMES];
        for (count, word) in self.enumerate() {
            let (name, value) = parts(word).ok_or(word.fault(Complaint::Name))?;
            if names.iter().take(count).any(|given| *given == name) {
                return Err(word.fault(Complaint::Twice));
            }
            fields
                .set(name, value)
                .map_err(|complaint| word.fault(complaint))?;
            if let Some(place) = names.get_mut(count) {
                *place = name;
            }
        }
        Ok(fields)
    }

    // Nothing, where no word follows.
    pub(crate) fn end(mut self) -> Result<(), Fault> {
        match self.next() {
            Some(word) => Err(word.fault(Complaint::Name)),
            None => Ok(()),
        }
    }
}

// The name and the value of a word such as `callee=9`.
fn parts<'a>(word: Word<'a>) -> Option<(&'a [u8], &'a [u8])> {
    let text = word.text;
    let end = text.iter().position(|byte| *byte == b'=')?;
    Some((&text[..end], &text[end + 1..]))
}

// Sets a field to the value of a word.
fn give<V: Value>(field: &mut V, word: &[u8]) -> Result<(), Complaint> {
    *field = V::read(word).ok_or(Complaint::Value)?;
    Ok(())
}

// The settings; under the names of the counters it has the limits.
impl Names for Settings {
    fn set(&mut self, name: &[u8], word: &[u8]) -> Result<(), Complaint> {
        match name {
            b"user" => give(&mut self.own_user, word),
            b"group" => give(&mut self.own_group, word),
            b"restrict" => give(&mut self.restrict, word),
            b"acknowledgement" => give(&mut self.acknowledgement, word),
            b"CFP1" => give(&mut self.limits.cfp1, word),
            b"CFP3" => give(&mut self.limits.cfp3, word),
            b"CFP4" => give(&mut self.limits.cfp4, word),
            _ => Err(Complaint::Name),
        }
    }
}

// The buffer.
impl Names for Buffer {
    fn set(&mut self, name: &[u8], word: &[u8]) -> Result<(), Complaint> {
        match name {
            b"length" => give(self, word),
            _ => Err(Complaint::Name),
        }
    }
}

// A private record.
impl Names for PrivateRecord {
    fn set(&mut self, name: &[u8], word: &[u8]) -> Result<(), Complaint> {
        match name {
            b"state" => give(&mut self.state, word),
            b"TFP1" => give(&mut self.running.tfp1, word),
            b"TFP2" => give(&mut self.running.tfp2, word),
            b"TFP3" => give(&mut self.running.tfp3, word),
            b"TFP4" => give(&mut self.running.tfp4, word),
            b"TFP5" => give(&mut self.running.tfp5, word),
            b"TFP7" => give(&mut self.running.tfp7, word),
            b"CFP1" => give(&mut self.counters.cfp1, word),
            b"CFP3" => give(&mut self.counters.cfp3, word),
            b"CFP4" => give(&mut self.counters.cfp4, word),
            b"identifier" => give(&mut self.call.parties.identifier, word),
            b"caller" => give(&mut self.call.parties.caller, word),
            b"callee" => give(&mut self.call.parties.callee, word),
            b"commencement" => give(&mut self.call.commencement, word),
            b"media" => give(&mut self.call.media, word),
            b"pck-id" => give(&mut self.call.pck_id, word),
            _ => Err(Complaint::Name),
        }
    }
}

// A group record.
impl Names for GroupRecord {
    fn set(&mut self, name: &[u8], word: &[u8]) -> Result<(), Complaint> {
        match name {
            b"state" => give(&mut self.state, word),
            b"TFG2" => give(&mut self.running.tfg2, word),
            b"TFG4" => give(&mut self.running.tfg4, word),
            b"TFG6" => give(&mut self.running.tfg6, word),
            b"group" => give(&mut self.call.group, word),
            b"identifier" => give(&mut self.call.identifier, word),
            b"type" => give(&mut self.call.call_type, word),
            b"refresh" => give(&mut self.call.refresh, word),
            b"media" => give(&mut self.media, word),
            b"originator" => give(&mut self.call.originator, word),
            b"start" => give(&mut self.call.start, word),
            b"last-change" => give(&mut self.call.last_change, word),
            b"last-changer" => give(&mut self.call.last_changer, word),
            _ => Err(Complaint::Name),
        }
    }
}

// The host's verdicts.
impl Names for Verdicts {
    fn set(&mut self, name: &[u8], word: &[u8]) -> Result<(), Complaint> {
        match name {
            b"media-verdict" => give(&mut self.media, word),
            b"signature-verdict" => give(&mut self.signature, word),
            _ => Err(Complaint::Name),
        }
    }
}

// What the user's start of a private call names, beside it the media.
fn set_private_start(
    start: &mut PrivateStart,
    media: &mut Media,
    name: &[u8],
    word: &[u8],
) -> Result<(), Complaint> {
    match name {
        b"identifier" => give(&mut start.identifier, word),
        b"callee" => give(&mut start.callee, word),
        b"commencement" => give(&mut start.commencement, word),
        b"media" => give(media, word),
        b"pck-id" => give(&mut start.pck_id, word),
        _ => Err(Complaint::Name),
    }
}

// What the user's start of a group call names, beside it the media.
fn set_group_start(
    start: &mut GroupStart,
    media: &mut Media,
    name: &[u8],
    word: &[u8],
) -> Result<(), Complaint> {
    match name {
        b"identifier" => give(&mut start.identifier, word),
        b"type" => give(&mut start.call_type, word),
        b"refresh" => give(&mut start.refresh, word),
        b"media" => give(media, word),
        b"confirm" => give(&mut start.confirm, word),
        b"now" => give(&mut start.now, word),
        _ => Err(Complaint::Name),
    }
}

// What the user's raise names.
fn set_raise(raise: &mut GroupRaise, name: &[u8], word: &[u8]) -> Result<(), Complaint> {
    match name {
        b"type" => give(&mut raise.call_type, word),
        b"now" => give(&mut raise.now, word),
        _ => Err(Complaint::Name),
    }
}

// What an event names, beside it the media: the user's starts and raise do.
fn set_event(
    event: &mut Event,
    media: &mut Media,
    name: &[u8],
    word: &[u8],
) -> Result<(), Complaint> {
    match event {
        Event::Action(Action::Private(PrivateAction::Start(start))) => {
            set_private_start(start, media, name, word)
        }
        Event::Action(Action::Group(GroupAction::Start(start))) => {
            set_group_start(start, media, name, word)
        }
        Event::Action(Action::Group(GroupAction::Raise(raise))) => set_raise(raise, name, word),
        _ => Err(Complaint::Name),
    }
}

// What a step takes in: the verdicts, and what its event names.
impl Names for Input {
    fn set(&mut self, name: &[u8], word: &[u8]) -> Result<(), Complaint> {
        match self.verdicts.set(name, word) {
            Err(Complaint::Name) => set_event(&mut self.event, &mut self.media, name, word),
            told => told,
        }
    }
}

// How a line is heard: whether it is ended, and the verdicts.
impl Names for Hearing {
    fn set(&mut self, name: &[u8], word: &[u8]) -> Result<(), Complaint> {
        match name {
            b"ended" => give(&mut self.ended, word),
            _ => self.verdicts.set(name, word),
        }
    }
}
