// The group record, and when it is well formed.
#![tactic(auto)]

pub mod states;

ghost use Rattle.std.specs.Prelude.{◌≡◌};
ghost use Rattle.group_record.specs.Formed.{call_none, call_held, call_good, is_well_formed};

use crate::states::{GroupRecord, State};
use call::Settings;
use frame::{Frame, GroupCall, Message};

impl GroupRecord {
    // Every field of the call is 0.
    fn no_call(self) -> bool
        ensures { result ≡ call_none self.call self.media }
    {
        self.call == GroupCall::NONE && self.media.is_none()
    }

    // Every field of the call is in range, as in an announcement, and its group is own.
    fn call_held(self, settings: Settings) -> bool
        ensures { result ≡ call_held settings self.call self.media }
    {
        let frame = Frame {
            message: Message::Announcement(self.call, 0),
            media: self.media,
        };
        frame.in_range() && self.call.group == settings.own_group
    }

    // The call: none in S1, elsewhere one of the own group.
    fn call_good(self, settings: Settings) -> bool
        ensures { result ≡ call_good settings self.state self.call self.media }
    {
        if self.state == State::S1 {
            self.no_call()
        } else {
            self.call_held(settings)
        }
    }
}

// Whether a record is well formed under the settings.
#[tactic(auto, unfolding(crate::specs::Formed::is_well_formed))]
pub fn well_formed(settings: Settings, stored: GroupRecord) -> bool
    ensures { result ≡ is_well_formed settings stored }
{
    stored.running == stored.state.running() && stored.call_good(settings)
}
