// The two machines: the record that a cab keeps for each, and a step of either.
use call::{Input, Settings};
use frame::Refusal;
use group_record::states::GroupRecord;
use private_record::states::PrivateRecord;

// The machines of a cab.
#[derive(Clone, Copy)]
pub(crate) enum Machine {
    Private,
    Group,
}

// A record, by its machine.
#[derive(Clone, Copy)]
pub(crate) enum Record {
    Private(PrivateRecord),
    Group(GroupRecord),
}

// A set of timers, by their machine.
#[derive(Clone, Copy)]
pub(crate) enum Timers {
    Private(private_record::states::Timers),
    Group(group_record::states::Timers),
}

// A row that was carried out, by its machine.
#[derive(Clone, Copy)]
pub(crate) enum Row {
    Private(private_rows::Row),
    Group(group_rows::Row),
}

// What a step of either machine did.
#[derive(Clone, Copy)]
pub(crate) struct Stepped {
    pub(crate) row: Option<Row>,
    pub(crate) next: Record,
    pub(crate) stop: Timers,
    pub(crate) start: Timers,
    pub(crate) length: usize,
}

impl Record {
    // The machine that it is for.
    pub(crate) fn machine(self) -> Machine {
        match self {
            Record::Private(_) => Machine::Private,
            Record::Group(_) => Machine::Group,
        }
    }

    // The timers that run.
    pub(crate) fn running(self) -> Timers {
        match self {
            Record::Private(record) => Timers::Private(record.running),
            Record::Group(record) => Timers::Group(record.running),
        }
    }

    // A step of its machine on a lent buffer: its number, 0 where it was not refused, and what it did.
    pub(crate) fn step(self, settings: Settings, input: Input, lent: &mut [u8]) -> (u8, Stepped) {
        match self {
            Record::Private(record) => {
                let answer = private_call::step(settings, record, input, lent);
                let done = private_call::done(record, answer);
                let told = Stepped {
                    row: done.row.map(|row| Row::Private(row)),
                    next: Record::Private(done.next),
                    stop: Timers::Private(done.stop),
                    start: Timers::Private(done.start),
                    length: done.length,
                };
                (Refusal::number_of(&answer), told)
            }
            Record::Group(record) => {
                let answer = group_call::step(settings, record, input, lent);
                let done = group_call::done(record, answer);
                let told = Stepped {
                    row: done.row.map(|row| Row::Group(row)),
                    next: Record::Group(done.next),
                    stop: Timers::Group(done.stop),
                    start: Timers::Group(done.start),
                    length: done.length,
                };
                (Refusal::number_of(&answer), told)
            }
        }
    }
}
