// The fields that stand at the places of a line.
ghost use Rattle.std.specs.Prelude.{◌≡◌, ◌+◌, ◌<◌, length};
ghost use Rattle.frame.specs.Kind.{kind_number};
ghost use Rattle.reader.specs.Line.{parties_at, setup_at, group_call_at, acceptance_at, message_at, media_at};

use crate::digit_line::DigitLine;
use crate::digits::{four_at, one_at, two_at};
use frame::{Acceptance, Frame, GroupCall, Kind, Media, Message, Parties, Setup};

impl DigitLine<'_> {
    // The fields of a private call.
    #[tactic(auto, using(crate::proofs::Shortest::shortest), unfolding(frame::specs::Digits::numbers_at))]
    fn parties(&self) -> Parties
        ensures { result ≡ parties_at self.now.bytes.now }
    {
        Parties {
            identifier: two_at(self.bytes, 2),
            caller: four_at(self.bytes, 6),
            callee: four_at(self.bytes, 14),
        }
    }

    // A setup's fields: those after the media stand from place at on.
    #[tactic(auto, unfolding(frame::specs::Digits::numbers_at))]
    fn setup(&self, at: usize) -> Setup
        requires { (26 < length self.now.bytes.now) × (at + 8 < length self.now.bytes.now) }
        ensures { result ≡ setup_at self.now.bytes.now at }
    {
        Setup {
            commencement: one_at(self.bytes, 22),
            call_type: one_at(self.bytes, 24),
            pck_id: four_at(self.bytes, at),
        }
    }

    // A group call's fields: those after the media stand from place at on.
    #[tactic(auto, unfolding(frame::specs::Digits::numbers_at))]
    fn group_call(&self, at: usize) -> GroupCall
        requires { at + 34 < length self.now.bytes.now }
        ensures { result ≡ group_call_at self.now.bytes.now at }
    {
        GroupCall {
            identifier: two_at(self.bytes, 2),
            group: four_at(self.bytes, 6),
            call_type: one_at(self.bytes, 14),
            refresh: two_at(self.bytes, 16),
            originator: four_at(self.bytes, at),
            start: four_at(self.bytes, at + 8),
            last_change: four_at(self.bytes, at + 16),
            last_changer: four_at(self.bytes, at + 24),
        }
    }

    // The fields of a group call accept.
    #[tactic(auto, unfolding(frame::specs::Digits::numbers_at))]
    fn acceptance(&self) -> Acceptance
        requires { 24 < length self.now.bytes.now }
        ensures { result ≡ acceptance_at self.now.bytes.now }
    {
        Acceptance {
            identifier: two_at(self.bytes, 2),
            sender: four_at(self.bytes, 6),
            call_type: one_at(self.bytes, 14),
            group: four_at(self.bytes, 16),
        }
    }

    // The message whose digits the line holds.
    #[tactic(auto, unfolding(crate::specs::Line::message_at, frame::specs::Layout::digits_of, frame::specs::Digits::numbers_at))]
    fn message(&self) -> Message
        ensures { result ≡ message_at (kind_number self.now.kind) self.now.bytes.now }
    {
        match self.kind {
            Kind::SetupRequest => Message::SetupRequest(self.parties(), self.setup(34)),
            Kind::Ringing => Message::Ringing(self.parties()),
            Kind::Accept => Message::Accept(self.parties()),
            Kind::Reject => Message::Reject(self.parties(), one_at(self.bytes, 22)),
            Kind::Release => Message::Release(self.parties()),
            Kind::ReleaseAck => Message::ReleaseAck(self.parties()),
            Kind::AcceptAck => Message::AcceptAck(self.parties()),
            Kind::Announcement => {
                Message::Announcement(self.group_call(28), one_at(self.bytes, 60))
            }
            Kind::GroupAccept => Message::GroupAccept(self.acceptance()),
        }
    }

    // The media whose digits the line holds, NONE where its kind carries none.
    #[tactic(auto, unfolding(crate::specs::Line::media_at, frame::specs::Layout::digits_of))]
    fn media(&self) -> Media
        ensures { result ≡ media_at (kind_number self.now.kind) self.now.bytes.now }
    {
        match self.kind {
            Kind::SetupRequest => self.media_from(26),
            Kind::Accept => self.media_from(22),
            Kind::Announcement => self.media_from(20),
            _ => Media::NONE,
        }
    }

    // The frame whose digits the line holds.
    pub(crate) fn frame(&self) -> Frame
        ensures message { result.message ≡ message_at (kind_number self.now.kind) self.now.bytes.now }
        ensures media { result.media ≡ media_at (kind_number self.now.kind) self.now.bytes.now }
    {
        Frame {
            message: self.message(),
            media: self.media(),
        }
    }
}
