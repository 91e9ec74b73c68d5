// How steps, records and timers are told.
use crate::cabs::CabName;
use crate::machines::{Machine, Record, Row, Stepped, Timers};
use call::Counters;
use group_record::states::GroupRecord;
use private_record::states::PrivateRecord;
use std::fmt;

// Whose turn it is: the number of the command, and the cab that it names.
#[derive(Clone, Copy)]
pub(crate) struct Turn {
    pub(crate) command: usize,
    pub(crate) cab: CabName,
}

// The first two fields of a line.
impl fmt::Display for Turn {
    fn fmt<W: fmt::Write>(&self, f: &mut fmt::Formatter<W>) -> fmt::Result {
        let Turn { command, cab } = self;
        write!(f, "{command} {cab}")
    }
}

// The machine as a script has it.
impl fmt::Display for Machine {
    fn fmt<W: fmt::Write>(&self, f: &mut fmt::Formatter<W>) -> fmt::Result {
        match self {
            Machine::Private => write!(f, "private"),
            Machine::Group => write!(f, "group"),
        }
    }
}

impl Record {
    // The name of its state.
    pub(crate) fn state(self) -> &'static str {
        match self {
            Record::Private(record) => match record.state {
                private_record::states::State::P0 => "P0",
                private_record::states::State::P1 => "P1",
                private_record::states::State::P2 => "P2",
                private_record::states::State::P3 => "P3",
                private_record::states::State::P4 => "P4",
                private_record::states::State::P5 => "P5",
            },
            Record::Group(record) => match record.state {
                group_record::states::State::S1 => "S1",
                group_record::states::State::S3 => "S3",
                group_record::states::State::S4 => "S4",
                group_record::states::State::S5 => "S5",
            },
        }
    }
}

// The timers that run, the counters and the call.
impl fmt::Display for Record {
    fn fmt<W: fmt::Write>(&self, f: &mut fmt::Formatter<W>) -> fmt::Result {
        let running = self.running();
        write!(f, "{running} ")?;
        match self {
            Record::Private(record) => write_private(f, record),
            Record::Group(record) => write_group(f, record),
        }
    }
}

// The counters and the call of a private record.
fn write_private<W: fmt::Write>(f: &mut fmt::Formatter<W>, record: &PrivateRecord) -> fmt::Result {
    let Counters { cfp1, cfp3, cfp4 } = record.counters;
    write!(f, "CFP1={cfp1},CFP3={cfp3},CFP4={cfp4}")?;
    let call = record.call;
    write!(f, " identifier={}", call.parties.identifier)?;
    write!(f, ",caller={}", call.parties.caller)?;
    write!(f, ",callee={}", call.parties.callee)?;
    write!(f, ",commencement={}", call.commencement)?;
    write!(f, ",media={}", call.media.number)?;
    write!(f, ",pck-id=0x{:08x}", call.pck_id)
}

// The counters, of which there are none, and the call of a group record.
fn write_group<W: fmt::Write>(f: &mut fmt::Formatter<W>, record: &GroupRecord) -> fmt::Result {
    let call = record.call;
    write!(f, "- group={}", call.group)?;
    write!(f, ",identifier={}", call.identifier)?;
    write!(f, ",type={}", call.call_type)?;
    write!(f, ",refresh={}", call.refresh)?;
    write!(f, ",media={}", record.media.number)?;
    write!(f, ",originator={}", call.originator)?;
    write!(f, ",start={}", call.start)?;
    write!(f, ",last-change={}", call.last_change)?;
    write!(f, ",last-changer={}", call.last_changer)
}

// The timers of the set.
impl fmt::Display for Timers {
    fn fmt<W: fmt::Write>(&self, f: &mut fmt::Formatter<W>) -> fmt::Result {
        match self {
            Timers::Private(timers) => write_timers(
                f,
                &[
                    (timers.tfp1, "TFP1"),
                    (timers.tfp2, "TFP2"),
                    (timers.tfp3, "TFP3"),
                    (timers.tfp4, "TFP4"),
                    (timers.tfp5, "TFP5"),
                    (timers.tfp7, "TFP7"),
                ],
            ),
            Timers::Group(timers) => write_timers(
                f,
                &[
                    (timers.tfg2, "TFG2"),
                    (timers.tfg4, "TFG4"),
                    (timers.tfg6, "TFG6"),
                ],
            ),
        }
    }
}

// The names of the timers that are in a set; `-` where none is.
fn write_timers<W: fmt::Write>(
    f: &mut fmt::Formatter<W>,
    timers: &[(bool, &'static str)],
) -> fmt::Result {
    let mut ahead = "";
    for (is_in, name) in timers {
        if *is_in {
            write!(f, "{ahead}{name}")?;
            ahead = ",";
        }
    }
    if ahead.is_empty() {
        write!(f, "-")?;
    }
    Ok(())
}

// A step as it is told: whose turn it was, the record ahead of it, its number, what it did, the line that it sent, and
// how many bytes at the end of the lent buffer are as they were.
#[derive(Clone, Copy)]
pub(crate) struct Step<'a> {
    pub(crate) turn: Turn,
    pub(crate) stored: Record,
    pub(crate) number: u8,
    pub(crate) done: Stepped,
    pub(crate) sent: Option<&'a str>,
    pub(crate) untouched: usize,
}

// A line of the answer.
impl fmt::Display for Step<'_> {
    fn fmt<W: fmt::Write>(&self, f: &mut fmt::Formatter<W>) -> fmt::Result {
        let (turn, machine) = (self.turn, self.stored.machine());
        let number = self.number;
        write!(f, "{turn} {machine} {number} ")?;
        let Stepped {
            row,
            stop,
            start,
            next,
            ..
        } = self.done;
        match row {
            Some(row) => write!(f, "{row}")?,
            None => write!(f, "-")?,
        }
        let (before, after) = (self.stored.state(), next.state());
        write!(f, " {before} {after} {stop} {start} {next}")?;
        let sent = self.sent.unwrap_or("-");
        let untouched = self.untouched;
        write!(f, " {sent} {untouched}")
    }
}

// The letter of the machine, and the number.
impl fmt::Display for Row {
    fn fmt<W: fmt::Write>(&self, f: &mut fmt::Formatter<W>) -> fmt::Result {
        match self {
            Row::Private(row) => write!(f, "R{}", row.number()),
            Row::Group(row) => write!(f, "G{}", row.number()),
        }
    }
}
