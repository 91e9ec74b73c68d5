// The ranges judged on a line's digits: no message is made.
// The fields of `is_good` in frame once more: not 0 is told by a digit that is not `0`, so no number need be read.
ghost use Rattle.std.specs.Prelude.{◌≡◌, ◌+◌, ◌<◌, length};
ghost use Rattle.frame.specs.Digits.{one, two, four, number_at};
ghost use Rattle.frame.specs.Range.{never_zero};
ghost use Rattle.frame.specs.Frame.{parties_good, setup_good, group_call_good, acceptance_good, in_range};
ghost use Rattle.frame.specs.Kind.{kind_number};
ghost use Rattle.reader.specs.Line.{parties_at, setup_at, group_call_at, acceptance_at, message_at, media_at};

use crate::digit_line::DigitLine;
use crate::digits::{four_at, one_at};
use frame::Kind;
use frame::range::Range;

impl DigitLine<'_> {
    // Whether a number of one byte is not 0: one of its digits is not `0`.
    // Three functions, no const parameter: its law would have a case for each width, where each function has one step.
    fn one_fits(&self, at: usize) -> bool
        requires { at + 2 < length self.now.bytes.now }
        ensures { result ≡ never_zero one (number_at one self.now.bytes.now at) }
    {
        (self.bytes[at] != b'0') | (self.bytes[at + 1] != b'0')
    }

    // The same of a number of two bytes.
    fn two_fits(&self, at: usize) -> bool
        requires { at + 4 < length self.now.bytes.now }
        ensures { result ≡ never_zero two (number_at two self.now.bytes.now at) }
    {
        self.one_fits(at) | self.one_fits(at + 2)
    }

    // The same of a number of four bytes.
    pub(crate) fn four_fits(&self, at: usize) -> bool
        requires { at + 8 < length self.now.bytes.now }
        ensures { result ≡ never_zero four (number_at four self.now.bytes.now at) }
    {
        self.two_fits(at) | self.two_fits(at + 4)
    }

    // The fields of a private call.
    // Joined by `&`: by `&&` a line of 22 digits takes a twelfth longer.
    #[tactic(auto, using(crate::proofs::Shortest::shortest), unfolding(frame::specs::Frame::parties_good, frame::specs::Digits::numbers_at))]
    #[inline(always)]
    fn parties_fit(&self) -> bool
        ensures { result ≡ parties_good (parties_at self.now.bytes.now) }
    {
        self.two_fits(2) & self.four_fits(6) & self.four_fits(14)
    }

    // What a setup request says of the call besides: the fields after the media stand from place at on.
    #[tactic(auto, unfolding(frame::specs::Frame::setup_good, frame::specs::Digits::numbers_at))]
    fn setup_fits(&self, at: usize) -> bool
        requires { (26 < length self.now.bytes.now) × (at + 8 < length self.now.bytes.now) }
        ensures { result ≡ setup_good (setup_at self.now.bytes.now at) }
    {
        Range::Flag.has(one_at(self.bytes, 22) as u32)
            && Range::PrivateType.has(one_at(self.bytes, 24) as u32)
            && Range::PckId.has(four_at(self.bytes, at))
    }

    // The fields of a group call, those after the media from place at on.
    #[tactic(auto, unfolding(frame::specs::Frame::group_call_good, frame::specs::Digits::numbers_at))]
    fn group_call_fits(&self, at: usize) -> bool
        requires { at + 34 < length self.now.bytes.now }
        ensures { result ≡ group_call_good (group_call_at self.now.bytes.now at) }
    {
        self.two_fits(2)
            && self.four_fits(6)
            && Range::GroupType.has(one_at(self.bytes, 14) as u32)
            && self.two_fits(16)
            && self.four_fits(at)
            && Range::Time.has(four_at(self.bytes, at + 8))
            && Range::Time.has(four_at(self.bytes, at + 16))
            && self.four_fits(at + 24)
    }

    // The fields of a group call accept.
    #[tactic(auto, unfolding(frame::specs::Frame::acceptance_good, frame::specs::Digits::numbers_at))]
    fn acceptance_fits(&self) -> bool
        requires { 24 < length self.now.bytes.now }
        ensures { result ≡ acceptance_good (acceptance_at self.now.bytes.now) }
    {
        self.two_fits(2)
            && self.four_fits(6)
            && Range::GroupType.has(one_at(self.bytes, 14) as u32)
            && self.four_fits(16)
    }

    // Every field of the frame is in its range.
    #[tactic(auto, unfolding(crate::specs::Line::message_at, crate::specs::Line::media_at, frame::specs::Frame::in_range, frame::specs::Layout::digits_of, frame::specs::Digits::numbers_at))]
    #[inline(always)]
    pub(crate) fn frame_fits(&self) -> bool
        ensures { result ≡ in_range (message_at (kind_number self.now.kind) self.now.bytes.now) (media_at (kind_number self.now.kind) self.now.bytes.now) }
    {
        match self.kind {
            Kind::SetupRequest => {
                self.media_fits(26) && self.parties_fit() && self.setup_fits(34)
            }
            Kind::Accept => self.media_fits(22) && self.parties_fit(),
            Kind::Reject => {
                self.parties_fit() && Range::Reason.has(one_at(self.bytes, 22) as u32)
            }
            Kind::Announcement => {
                self.media_fits(20)
                    && self.group_call_fits(28)
                    && Range::Flag.has(one_at(self.bytes, 60) as u32)
            }
            Kind::GroupAccept => self.acceptance_fits(),
            Kind::Ringing | Kind::Release | Kind::ReleaseAck | Kind::AcceptAck => {
                self.parties_fit()
            }
        }
    }
}
