// The group record: its state, its running timers, its call and the call's media.
ghost use Rattle.std.specs.Prelude.{◌≡◌, refl};
ghost use Rattle.call.specs.Timing.{taken_by, timer_facts, set_by};
ghost use Rattle.call.specs.declared.GroupTimer.{GroupTimer};
ghost use Rattle.group_record.specs.States.{has, set_of, running_of};
ghost use Rattle.group_record.specs.Formed.{cleared_record};

use call::GroupTimer;
use call::timers::{SetByRule, TimerRule, TimerSet, TimerSets};
use frame::{GroupCall, Media};

// The states: start-stop, ongoing, and two in which the user is asked, S4 without confirm and S5 with it.
#[derive(Clone, Copy, PartialEq, Eq)]
pub enum State {
    S1,
    S3,
    S4,
    S5,
}

impl State {
    // The timers that run in it.
    pub(crate) fn running(self) -> Timers
        ensures { result ≡ running_of self }
    {
        match self {
            State::S1 => Timers::NONE,
            State::S3 => Timers::TFG2_TFG6,
            State::S4 | State::S5 => Timers::TFG4,
        }
    }
}

// A set of the group timers.
#[derive(Clone, Copy, PartialEq, Eq)]
pub struct Timers {
    pub tfg2: bool,
    pub tfg4: bool,
    pub tfg6: bool,
}

impl Timers {
    // No timer.
    pub const NONE: Timers = Timers {
        tfg2: false,
        tfg4: false,
        tfg6: false,
    };

    // TFG2 alone.
    pub const TFG2: Timers = Timers {
        tfg2: true,
        ..Timers::NONE
    };

    // TFG4 alone.
    pub const TFG4: Timers = Timers {
        tfg4: true,
        ..Timers::NONE
    };

    // TFG6 alone.
    pub const TFG6: Timers = Timers {
        tfg6: true,
        ..Timers::NONE
    };

    // TFG2 and TFG6, both.
    pub const TFG2_TFG6: Timers = Timers {
        tfg2: true,
        tfg6: true,
        ..Timers::NONE
    };
}

impl TimerSet for Timers {
    type Timer = GroupTimer;

    ghost has = { has };

    // Whether a timer is in the set.
    fn has(self, timer: GroupTimer) -> bool {
        match timer {
            GroupTimer::Tfg2 => self.tfg2,
            GroupTimer::Tfg4 => self.tfg4,
            GroupTimer::Tfg6 => self.tfg6,
        }
    }
}

impl SetByRule for Timers {
    ghost set_of = { set_of };

    // The set of the timers that a rule takes.
    fn by_rule(sets: TimerSets<Timers>, rule: TimerRule) -> Timers
        ensures timers { (timer : GroupTimer) → has result timer ≡ taken_by rule (timer_facts has sets timer) }
        ensures set { result ≡ set_by has set_of rule sets }
    {
        Timers {
            tfg2: sets.of(GroupTimer::Tfg2).is_taken_by(rule),
            tfg4: sets.of(GroupTimer::Tfg4).is_taken_by(rule),
            tfg6: sets.of(GroupTimer::Tfg6).is_taken_by(rule),
        }
    }

    ghost its_timers = { λ set. refl };
}

// The group record; its call and media are the nine fields of a group call.
#[derive(Clone, Copy, PartialEq, Eq)]
pub struct GroupRecord {
    pub state: State,
    pub running: Timers,
    pub call: GroupCall,
    pub media: Media,
}

impl GroupRecord {
    // The cleared record: S1, no timer, no call.
    pub const CLEARED: GroupRecord = GroupRecord {
        state: State::S1,
        running: Timers::NONE,
        call: GroupCall::NONE,
        media: Media::NONE,
    };

    // The cleared record, which a host begins with.
    pub fn cleared() -> GroupRecord
        ensures { result ≡ cleared_record }
    {
        GroupRecord::CLEARED
    }
}
