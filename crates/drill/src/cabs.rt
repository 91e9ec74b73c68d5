// The two cabs of a shift: what each is set to, what it keeps, and the line that it sent last.
use crate::machines::{Machine, Record};
use call::{Counters, Settings};
use group_record::states::GroupRecord;
use private_record::states::PrivateRecord;
use std::fmt;

// The names of the cabs.
#[derive(Clone, Copy)]
pub(crate) enum CabName {
    A,
    B,
}

impl CabName {
    // The cab that a word names.
    pub(crate) fn read(word: &[u8]) -> Option<CabName> {
        match word {
            b"a" => Some(CabName::A),
            b"b" => Some(CabName::B),
            _ => None,
        }
    }
}

// The name as a script has it.
impl fmt::Display for CabName {
    fn fmt<W: fmt::Write>(&self, f: &mut fmt::Formatter<W>) -> fmt::Result {
        match self {
            CabName::A => write!(f, "a"),
            CabName::B => write!(f, "b"),
        }
    }
}

// How many bytes a cab lends to a step.
#[derive(Clone, Copy)]
pub(crate) struct Buffer {
    pub(crate) length: u8,
}

impl Buffer {
    // The most that a cab can lend.
    pub(crate) const MOST: u8 = 128;

    // The same, as the length of the room that is lent from.
    pub(crate) const ROOM: usize = 128;
}

// A line that was sent, with its line end at the front of what was lent for it.
// A fixed room, no String: so the program takes no heap, and none can be wanting.
#[derive(Clone, Copy)]
pub(crate) struct Sent {
    pub(crate) lent: [u8; Buffer::ROOM],
}

impl Sent {
    // Its digits, without its line end.
    pub(crate) fn digits(&self) -> &[u8] {
        match self.lent.iter().position(|byte| *byte == b'\n') {
            Some(count) => &self.lent[..count],
            None => &[],
        }
    }
}

// A cab: what it is set to and lends, its two records, and the line that it sent last.
#[derive(Clone, Copy)]
pub(crate) struct Cab {
    pub(crate) settings: Settings,
    pub(crate) buffer: Buffer,
    pub(crate) private: PrivateRecord,
    pub(crate) group: GroupRecord,
    pub(crate) sent: Option<Sent>,
}

impl Cab {
    // The cab of this user at the start.
    fn begun(own_user: u32) -> Cab {
        Cab {
            settings: Settings {
                own_user,
                own_group: 1,
                restrict: false,
                acknowledgement: false,
                limits: Counters {
                    cfp1: 3,
                    cfp3: 3,
                    cfp4: 3,
                },
            },
            buffer: Buffer { length: 63 },
            private: PrivateRecord::cleared(),
            group: GroupRecord::cleared(),
            sent: None,
        }
    }

    // The record that it keeps for a machine.
    pub(crate) fn record(&self, machine: Machine) -> Record {
        match machine {
            Machine::Private => Record::Private(self.private),
            Machine::Group => Record::Group(self.group),
        }
    }

    // Keeps a record for its machine.
    pub(crate) fn keep(&mut self, record: Record) {
        match record {
            Record::Private(private) => self.private = private,
            Record::Group(group) => self.group = group,
        }
    }
}

// A shift: its two cabs.
#[derive(Clone, Copy)]
pub(crate) struct Shift {
    pub(crate) a: Cab,
    pub(crate) b: Cab,
}

impl Shift {
    // The shift at the start.
    pub(crate) fn begun() -> Shift {
        Shift {
            a: Cab::begun(1),
            b: Cab::begun(2),
        }
    }

    // The cab of this name.
    pub(crate) fn cab(&self, name: CabName) -> &Cab {
        match name {
            CabName::A => &self.a,
            CabName::B => &self.b,
        }
    }

    // The same, to be changed.
    pub(crate) fn cab_mut(&mut self, name: CabName) -> &mut Cab {
        match name {
            CabName::A => &mut self.a,
            CabName::B => &mut self.b,
        }
    }
}
