// The nine kinds of message, as a line names them.
ghost use Rattle.std.specs.Prelude.{◌≡◌};
ghost use Rattle.frame.specs.Frame.{kind_of};
ghost use Rattle.frame.specs.Kind.{kind_number, NamesKind};
ghost use Rattle.frame.specs.Layout.{digits_of};

use crate::Message;
use crate::refusal::Refusal;

// A kind of message, with the number that begins its line.
#[derive(Clone, Copy, PartialEq, Eq)]
pub enum Kind {
    SetupRequest = 1,
    Ringing = 2,
    Accept = 3,
    Reject = 4,
    Release = 5,
    ReleaseAck = 6,
    AcceptAck = 7,
    Announcement = 8,
    GroupAccept = 9,
}

impl TryFrom<u8> for Kind {
    type Error = Refusal;

    ghost try_from_gives = { NamesKind };

    // The kind with this number.
    fn try_from(number: u8) -> Result<Kind, Refusal> {
        match number {
            1 => Ok(Kind::SetupRequest),
            2 => Ok(Kind::Ringing),
            3 => Ok(Kind::Accept),
            4 => Ok(Kind::Reject),
            5 => Ok(Kind::Release),
            6 => Ok(Kind::ReleaseAck),
            7 => Ok(Kind::AcceptAck),
            8 => Ok(Kind::Announcement),
            9 => Ok(Kind::GroupAccept),
            _ => Err(Refusal::NoKind),
        }
    }
}

impl Kind {
    // How many digits a line of the kind has.
    #[tactic(auto, unfolding(crate::specs::Layout::digits_of))]
    pub fn digits(self) -> usize
        ensures { result ≡ digits_of (kind_number self) }
    {
        match self {
            Kind::SetupRequest => 42,
            Kind::Accept => 30,
            Kind::Reject | Kind::GroupAccept => 24,
            Kind::Announcement => Message::LONGEST - 1,
            _ => 22,
        }
    }
}

impl Message {
    // Its kind.
    pub fn kind(self) -> Kind
        ensures { kind_number result ≡ kind_of self }
    {
        match self {
            Message::SetupRequest(..) => Kind::SetupRequest,
            Message::Ringing(_) => Kind::Ringing,
            Message::Accept(_) => Kind::Accept,
            Message::Reject(..) => Kind::Reject,
            Message::Release(_) => Kind::Release,
            Message::ReleaseAck(_) => Kind::ReleaseAck,
            Message::AcceptAck(_) => Kind::AcceptAck,
            Message::Announcement(..) => Kind::Announcement,
            Message::GroupAccept(_) => Kind::GroupAccept,
        }
    }
}
