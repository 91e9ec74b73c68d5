// What can be wrong with a command, where, and how it is told.
use crate::cabs::CabName;
use std::fmt;

// What can be wrong with a word, or with the place where one is missing.
#[derive(Clone, Copy)]
pub(crate) enum Complaint {
    // The first word names no cab.
    Cab,
    // The second word begins no command.
    Command,
    // The word behind `private` makes no command of it.
    PrivateCommand,
    // The word behind `group` makes no command of it.
    GroupCommand,
    // The word behind a timer is not `expires`.
    Expires,
    // A line is missing, or is none.
    Line,
    // The cab has no last line.
    NoLineOf(CabName),
    // A word is none of the command's names with its value.
    Name,
    // A name comes a second time.
    Twice,
    // A value is none of its name.
    Value,
}

// A complaint in words.
impl fmt::Display for Complaint {
    fn fmt<W: fmt::Write>(&self, f: &mut fmt::Formatter<W>) -> fmt::Result {
        let words = match self {
            Complaint::Cab => "a cab was expected, a or b",
            Complaint::Command => {
                "settings, buffer, private, group, a timer, hears or chooses was expected"
            }
            Complaint::PrivateCommand => {
                "start, end, accept, reject, record or cleared was expected"
            }
            Complaint::GroupCommand => {
                "start, accept, reject, leave, raise, record or cleared was expected"
            }
            Complaint::Expires => "expires was expected",
            Complaint::Line => "a line was expected",
            Complaint::NoLineOf(cab) => return write!(f, "cab {cab} has sent no line yet"),
            Complaint::Name => "NAME=VALUE was expected, with a name that this command takes",
            Complaint::Twice => "this name was given before",
            Complaint::Value => "not a value of this name",
        };
        write!(f, "{words}")
    }
}

// What is wrong with a command, and where in its line the word begins or is missing.
#[derive(Clone, Copy)]
pub(crate) struct Fault {
    pub(crate) complaint: Complaint,
    pub(crate) at: usize,
}

// How many columns are counted: the place behind as many bytes is told as column 0.
const COLUMNS: usize = 65_536;

// The column, counted from 1, and what is wrong there.
impl fmt::Display for Fault {
    fn fmt<W: fmt::Write>(&self, f: &mut fmt::Formatter<W>) -> fmt::Result {
        let complaint = self.complaint;
        let column = if self.at < COLUMNS { self.at + 1 } else { 0 };
        write!(f, "column {column}: {complaint}")
    }
}
