// The range of every field of a message.
ghost use Rattle.std.specs.Prelude.{◌≡◌};
ghost use Rattle.frame.specs.Range.{is_in};
ghost use Rattle.frame.specs.Frame.{parties_good, setup_good, group_call_good, acceptance_good, in_range};

use crate::{Acceptance, Frame, GroupCall, Message, Parties, Setup};

// What the fields of a message are: each has its range.
#[derive(Clone, Copy, PartialEq, Eq)]
pub enum Range {
    // An identifier or a refresh.
    TwoBytes,
    // A user, a group or media.
    FourBytes,
    // A start or a last change: any time.
    Time,
    // A commencement or a confirm.
    Flag,
    // The type of a private call.
    PrivateType,
    // The type of a group call.
    GroupType,
    // The reason of a reject.
    Reason,
    // A PCK-ID: 0, or 0001 in its top four bits.
    PckId,
}

impl Range {
    // Whether a value is in the range.
    pub fn has(self, value: u32) -> bool
        ensures { result ≡ is_in self value }
    {
        match self {
            Range::TwoBytes => 1 <= value && value <= 65_535,
            Range::FourBytes => 1 <= value && value <= 4_294_967_295,
            Range::Time => value <= 4_294_967_295,
            Range::Flag => value <= 1,
            Range::PrivateType => value == Setup::PRIVATE as u32,
            Range::GroupType => 1 <= value && value <= 3,
            Range::Reason => value <= 4,
            Range::PckId => value == 0 || value / 0x1000_0000 == 0b0001,
        }
    }
}

impl Parties {
    // The fields of a private call.
    #[tactic(auto, unfolding(crate::specs::Frame::parties_good))]
    fn is_good(self) -> bool
        ensures { result ≡ parties_good self }
    {
        Range::TwoBytes.has(self.identifier as u32)
            && Range::FourBytes.has(self.caller)
            && Range::FourBytes.has(self.callee)
    }
}

impl Setup {
    // What a setup request says besides.
    #[tactic(auto, unfolding(crate::specs::Frame::setup_good))]
    fn is_good(self) -> bool
        ensures { result ≡ setup_good self }
    {
        Range::Flag.has(self.commencement as u32)
            && Range::PrivateType.has(self.call_type as u32)
            && Range::PckId.has(self.pck_id)
    }
}

impl GroupCall {
    // The fields of a group call.
    #[tactic(auto, unfolding(crate::specs::Frame::group_call_good))]
    fn is_good(self) -> bool
        ensures { result ≡ group_call_good self }
    {
        Range::TwoBytes.has(self.identifier as u32)
            && Range::FourBytes.has(self.group)
            && Range::GroupType.has(self.call_type as u32)
            && Range::TwoBytes.has(self.refresh as u32)
            && Range::FourBytes.has(self.originator)
            && Range::Time.has(self.start)
            && Range::Time.has(self.last_change)
            && Range::FourBytes.has(self.last_changer)
    }
}

impl Acceptance {
    // The fields of a group call accept.
    #[tactic(auto, unfolding(crate::specs::Frame::acceptance_good))]
    fn is_good(self) -> bool
        ensures { result ≡ acceptance_good self }
    {
        Range::TwoBytes.has(self.identifier as u32)
            && Range::FourBytes.has(self.sender)
            && Range::GroupType.has(self.call_type as u32)
            && Range::FourBytes.has(self.group)
    }
}

impl Frame {
    // Every field of the message is in its range, and so is the media where its kind carries media.
    #[tactic(auto, unfolding(crate::specs::Frame::in_range))]
    pub fn in_range(self) -> bool
        ensures { result ≡ in_range self.message self.media }
    {
        match self.message {
            Message::SetupRequest(parties, setup) => {
                self.media.is_good() && parties.is_good() && setup.is_good()
            }
            Message::Accept(parties) => self.media.is_good() && parties.is_good(),
            Message::Reject(parties, reason) => {
                parties.is_good() && Range::Reason.has(reason as u32)
            }
            Message::Announcement(call, confirm) => {
                self.media.is_good() && call.is_good() && Range::Flag.has(confirm as u32)
            }
            Message::GroupAccept(acceptance) => acceptance.is_good(),
            Message::Ringing(parties)
            | Message::Release(parties)
            | Message::ReleaseAck(parties)
            | Message::AcceptAck(parties) => parties.is_good(),
        }
    }
}
