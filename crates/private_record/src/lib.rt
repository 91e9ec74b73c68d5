// The private record, and when it is well formed.
#![tactic(auto)]

pub mod states;

ghost use Rattle.std.specs.Prelude.{◌≡◌};
ghost use Rattle.private_record.specs.Formed.{running_good, counter_good, counters_good, call_none, one_own, role_good};
ghost use Rattle.private_record.specs.Formed.{fields_good, call_good, is_well_formed};

use crate::states::{PrivateCall, PrivateRecord, State};
use call::{Counters, Request, Settings};
use frame::{Frame, Message};

// A counter: 1 to its limit while its timer runs, else 0.
// A flag with a number beside it: `well_formed` tells of a record whose counter does not go with its timer.
fn counter_good(runs: bool, limit: u8, counter: u8) -> bool
    ensures { result ≡ counter_good runs limit counter }
{
    if runs {
        Counters::LEAST <= counter && counter <= limit
    } else {
        counter == 0
    }
}

impl PrivateCall {
    // Every field is 0.
    fn is_none(self) -> bool
        ensures { result ≡ call_none self }
    {
        self == PrivateCall::NONE
    }

    // Every field is in range: it is the call of a setup request.
    fn in_range(self) -> bool
        ensures { result ≡ fields_good self }
    {
        let request = Request::private(self.parties, self.commencement, self.pck_id);
        Frame {
            message: Message::SetupRequest(request.parties, request.setup),
            media: self.media,
        }
        .in_range()
    }
}

// Own is the caller or the callee, and not both.
fn one_own(caller: bool, callee: bool) -> bool
    ensures { result ≡ one_own caller callee }
{
    caller != callee
}

impl State {
    // In P2 own is the caller, in P5 the callee.
    fn role_good(self, caller: bool, callee: bool) -> bool
        ensures { result ≡ role_good self caller callee }
    {
        match self {
            State::P2 => caller,
            State::P5 => callee,
            _ => true,
        }
    }
}

impl PrivateRecord {
    // What runs is what the table has for the phase.
    fn running_good(self) -> bool
        ensures { result ≡ running_good self.state self.running }
    {
        self.running == self.phase().running()
    }

    // The three counters.
    fn counters_good(self, limits: Counters) -> bool
        ensures { result ≡ counters_good self.running limits self.counters }
    {
        counter_good(self.running.tfp1, limits.cfp1, self.counters.cfp1)
            && counter_good(self.running.tfp3, limits.cfp3, self.counters.cfp3)
            && counter_good(self.running.tfp4, limits.cfp4, self.counters.cfp4)
    }

    // The call: none, in P0 alone; or every field in range, and own the one that it must be.
    fn call_good(self, settings: Settings) -> bool
        ensures { result ≡ call_good settings self.state self.call }
    {
        let caller = self.call.parties.caller == settings.own_user;
        let callee = self.call.parties.callee == settings.own_user;
        if self.call.parties.identifier == 0 {
            self.state == State::P0 && self.call.is_none()
        } else {
            self.call.in_range() && one_own(caller, callee) && self.state.role_good(caller, callee)
        }
    }
}

// Whether a record is well formed under the settings.
#[tactic(auto, unfolding(crate::specs::Formed::is_well_formed))]
pub fn well_formed(settings: Settings, stored: PrivateRecord) -> bool
    ensures { result ≡ is_well_formed settings stored }
{
    stored.running_good() && stored.counters_good(settings.limits) && stored.call_good(settings)
}
