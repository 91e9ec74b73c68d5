// What a command asks for, read from the words behind the name of its cab.
use crate::cabs::{Buffer, Cab, CabName, Shift};
use crate::complaints::{Complaint, Fault};
use crate::words::{Word, Words};
use call::{
    Action, Event, GroupAction, GroupRaise, GroupStart, GroupTimer, Input, PrivateAction,
    PrivateStart, PrivateTimer, Settings, Timer, Verdicts,
};
use frame::Media;
use group_record::states::GroupRecord;
use private_record::states::PrivateRecord;

// A line that a command names: the one that a cab sent last, or one of these digits.
#[derive(Clone, Copy)]
pub(crate) enum Line<'a> {
    SentLastBy(CabName),
    Digits(&'a [u8]),
}

// How a line is heard: whether it is ended, and the host's verdicts.
#[derive(Clone, Copy)]
pub(crate) struct Hearing {
    pub(crate) ended: bool,
    pub(crate) verdicts: Verdicts,
}

// What a command asks for: what is to be set, what happens to a machine, a line to be heard, or two to choose from.
#[derive(Clone, Copy)]
pub(crate) enum Command<'a> {
    Settings(Settings),
    Buffer(Buffer),
    PrivateRecord(PrivateRecord),
    GroupRecord(GroupRecord),
    Happens(Input),
    Hears(Line<'a>, Hearing),
    Chooses(Line<'a>, Line<'a>),
}

// The verdicts where none is named.
const GOOD: Verdicts = Verdicts {
    media: true,
    signature: true,
};

// The user's start of a private call where nothing is named.
const PRIVATE_START: PrivateStart = PrivateStart {
    identifier: 0,
    callee: 0,
    commencement: 0,
    pck_id: 0,
};

// The user's start of a group call where nothing is named.
const GROUP_START: GroupStart = GroupStart {
    identifier: 0,
    call_type: 0,
    refresh: 0,
    confirm: 0,
    now: 0,
};

// The user's raise of a group call where nothing is named.
const GROUP_RAISE: GroupRaise = GroupRaise {
    call_type: 0,
    now: 0,
};

impl<'a> Command<'a> {
    // The command of a cab that these words give.
    pub(crate) fn read(
        mut words: Words<'a>,
        shift: &Shift,
        cab: &Cab,
    ) -> Result<Command<'a>, Fault> {
        let word = words.expect(Complaint::Command)?;
        match word.text {
            b"settings" => Ok(Command::Settings(words.named(cab.settings)?)),
            b"buffer" => Ok(Command::Buffer(words.named(cab.buffer)?)),
            b"private" => Command::private(words, cab),
            b"group" => Command::group(words, cab),
            b"hears" => Command::hears(words, shift),
            b"chooses" => Command::chooses(words, shift),
            _ => Command::expires(word, words),
        }
    }

    // The event with what the words name beside it.
    fn happens(event: Event, words: Words<'a>) -> Result<Command<'a>, Fault> {
        let unnamed = Input {
            event,
            media: Media::NONE,
            verdicts: GOOD,
        };
        Ok(Command::Happens(words.named(unnamed)?))
    }

    // The command that the words behind `private` give.
    fn private(mut words: Words<'a>, cab: &Cab) -> Result<Command<'a>, Fault> {
        let word = words.expect(Complaint::PrivateCommand)?;
        let action = match word.text {
            b"start" => PrivateAction::Start(PRIVATE_START),
            b"end" => PrivateAction::End,
            b"accept" => PrivateAction::Accept,
            b"reject" => PrivateAction::Reject,
            b"record" => return Ok(Command::PrivateRecord(words.named(cab.private)?)),
            b"cleared" => {
                words.end()?;
                return Ok(Command::PrivateRecord(PrivateRecord::cleared()));
            }
            _ => return Err(word.fault(Complaint::PrivateCommand)),
        };
        Command::happens(Event::Action(Action::Private(action)), words)
    }

    // The command that the words behind `group` give.
    fn group(mut words: Words<'a>, cab: &Cab) -> Result<Command<'a>, Fault> {
        let word = words.expect(Complaint::GroupCommand)?;
        let action = match word.text {
            b"start" => GroupAction::Start(GROUP_START),
            b"accept" => GroupAction::Accept,
            b"reject" => GroupAction::Reject,
            b"leave" => GroupAction::Leave,
            b"raise" => GroupAction::Raise(GROUP_RAISE),
            b"record" => return Ok(Command::GroupRecord(words.named(cab.group)?)),
            b"cleared" => {
                words.end()?;
                return Ok(Command::GroupRecord(GroupRecord::cleared()));
            }
            _ => return Err(word.fault(Complaint::GroupCommand)),
        };
        Command::happens(Event::Action(Action::Group(action)), words)
    }

    // The command that the words behind `hears` give.
    fn hears(mut words: Words<'a>, shift: &Shift) -> Result<Command<'a>, Fault> {
        let line = Line::read(&mut words, shift)?;
        let unnamed = Hearing {
            ended: true,
            verdicts: GOOD,
        };
        Ok(Command::Hears(line, words.named(unnamed)?))
    }

    // The command that the words behind `chooses` give.
    fn chooses(mut words: Words<'a>, shift: &Shift) -> Result<Command<'a>, Fault> {
        let first = Line::read(&mut words, shift)?;
        let second = Line::read(&mut words, shift)?;
        words.end()?;
        Ok(Command::Chooses(first, second))
    }

    // The command that the name of a timer begins, with the words behind it.
    fn expires(name: Word<'a>, mut words: Words<'a>) -> Result<Command<'a>, Fault> {
        let timer = timer_of(name.text).ok_or(name.fault(Complaint::Command))?;
        let word = words.expect(Complaint::Expires)?;
        match word.text {
            b"expires" => Command::happens(Event::Expiry(timer), words),
            _ => Err(word.fault(Complaint::Expires)),
        }
    }
}

impl<'a> Line<'a> {
    // The line that the next word names.
    fn read(words: &mut Words<'a>, shift: &Shift) -> Result<Line<'a>, Fault> {
        let word = words.expect(Complaint::Line)?;
        if word.text.contains(&b'=') {
            return Err(word.fault(Complaint::Line));
        }
        match CabName::read(word.text) {
            Some(name) if shift.cab(name).sent.is_none() => {
                Err(word.fault(Complaint::NoLineOf(name)))
            }
            Some(name) => Ok(Line::SentLastBy(name)),
            None => Ok(Line::Digits(match word.text {
                b"nothing" => &[],
                digits => digits,
            })),
        }
    }
}

// The timer of this name.
fn timer_of(name: &[u8]) -> Option<Timer> {
    match name {
        b"TFP1" => Some(Timer::Private(PrivateTimer::Tfp1)),
        b"TFP2" => Some(Timer::Private(PrivateTimer::Tfp2)),
        b"TFP3" => Some(Timer::Private(PrivateTimer::Tfp3)),
        b"TFP4" => Some(Timer::Private(PrivateTimer::Tfp4)),
        b"TFP5" => Some(Timer::Private(PrivateTimer::Tfp5)),
        b"TFP7" => Some(Timer::Private(PrivateTimer::Tfp7)),
        b"TFG2" => Some(Timer::Group(GroupTimer::Tfg2)),
        b"TFG4" => Some(Timer::Group(GroupTimer::Tfg4)),
        b"TFG6" => Some(Timer::Group(GroupTimer::Tfg6)),
        _ => None,
    }
}
