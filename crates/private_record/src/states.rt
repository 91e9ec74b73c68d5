// The private record: its state, its running timers, its counters and its call; and the phases.
ghost use Rattle.std.specs.Prelude.{◌≡◌, refl};
ghost use Rattle.private_record.specs.Formed.{cleared_record};
ghost use Rattle.call.specs.Timing.{taken_by, timer_facts, set_by};
ghost use Rattle.call.specs.declared.PrivateTimer.{PrivateTimer};
ghost use Rattle.private_record.specs.Phases.{has, set_of, phase_of, running_of};

use call::timers::{SetByRule, TimerRule, TimerSet, TimerSets};
use call::{Counters, PrivateTimer};
use frame::{Media, Parties};

// The states: start-stop, ignoring same id, waiting for response, releasing, ongoing, pending.
#[derive(Clone, Copy, PartialEq, Eq)]
pub enum State {
    P0,
    P1,
    P2,
    P3,
    P4,
    P5,
}

// A set of the private timers.
#[derive(Clone, Copy, PartialEq, Eq)]
pub struct Timers {
    pub tfp1: bool,
    pub tfp2: bool,
    pub tfp3: bool,
    pub tfp4: bool,
    pub tfp5: bool,
    pub tfp7: bool,
}

impl Timers {
    // No timer.
    pub const NONE: Timers = Timers {
        tfp1: false,
        tfp2: false,
        tfp3: false,
        tfp4: false,
        tfp5: false,
        tfp7: false,
    };

    // TFP1 alone.
    pub const TFP1: Timers = Timers {
        tfp1: true,
        ..Timers::NONE
    };

    // TFP2 alone.
    pub const TFP2: Timers = Timers {
        tfp2: true,
        ..Timers::NONE
    };

    // TFP3 alone.
    pub const TFP3: Timers = Timers {
        tfp3: true,
        ..Timers::NONE
    };

    // TFP4 alone.
    pub const TFP4: Timers = Timers {
        tfp4: true,
        ..Timers::NONE
    };

    // TFP5 alone.
    pub const TFP5: Timers = Timers {
        tfp5: true,
        ..Timers::NONE
    };

    // TFP7 alone.
    pub const TFP7: Timers = Timers {
        tfp7: true,
        ..Timers::NONE
    };
}

impl TimerSet for Timers {
    type Timer = PrivateTimer;

    ghost has = { has };

    // Whether a timer is in the set.
    fn has(self, timer: PrivateTimer) -> bool {
        match timer {
            PrivateTimer::Tfp1 => self.tfp1,
            PrivateTimer::Tfp2 => self.tfp2,
            PrivateTimer::Tfp3 => self.tfp3,
            PrivateTimer::Tfp4 => self.tfp4,
            PrivateTimer::Tfp5 => self.tfp5,
            PrivateTimer::Tfp7 => self.tfp7,
        }
    }
}

impl SetByRule for Timers {
    ghost set_of = { set_of };

    // The set of the timers that a rule takes.
    fn by_rule(sets: TimerSets<Timers>, rule: TimerRule) -> Timers
        ensures timers { (timer : PrivateTimer) → has result timer ≡ taken_by rule (timer_facts has sets timer) }
        ensures set { result ≡ set_by has set_of rule sets }
    {
        Timers {
            tfp1: sets.of(PrivateTimer::Tfp1).is_taken_by(rule),
            tfp2: sets.of(PrivateTimer::Tfp2).is_taken_by(rule),
            tfp3: sets.of(PrivateTimer::Tfp3).is_taken_by(rule),
            tfp4: sets.of(PrivateTimer::Tfp4).is_taken_by(rule),
            tfp5: sets.of(PrivateTimer::Tfp5).is_taken_by(rule),
            tfp7: sets.of(PrivateTimer::Tfp7).is_taken_by(rule),
        }
    }

    ghost its_timers = { λ set. refl };
}

// What is known of a call.
// A number in place of an enum: `well_formed` tells of a record whose commencement is out of its range.
#[derive(Clone, Copy, PartialEq, Eq)]
pub struct PrivateCall {
    pub parties: Parties,
    pub commencement: u8,
    pub media: Media,
    pub pck_id: u32,
}

impl PrivateCall {
    // No call.
    // No Option around it: a record that holds no call has these fields, and `well_formed` answers for any others.
    pub const NONE: PrivateCall = PrivateCall {
        parties: Parties::NONE,
        commencement: 0,
        media: Media::NONE,
        pck_id: 0,
    };
}

// The private record.
#[derive(Clone, Copy, PartialEq, Eq)]
pub struct PrivateRecord {
    pub state: State,
    pub running: Timers,
    pub counters: Counters,
    pub call: PrivateCall,
}

impl PrivateRecord {
    // The cleared record: P0, no timer, no call.
    pub const CLEARED: PrivateRecord = PrivateRecord {
        state: State::P0,
        running: Timers::NONE,
        counters: Counters::ZERO,
        call: PrivateCall::NONE,
    };

    // The cleared record, which a host begins with.
    pub fn cleared() -> PrivateRecord
        ensures { result ≡ cleared_record }
    {
        PrivateRecord::CLEARED
    }

    // Its phase: TFP1 tells the two of P2 apart, and TFP2 the two of P5.
    pub fn phase(self) -> Phase
        ensures { result ≡ phase_of self }
    {
        match self.state {
            State::P0 => Phase::P0,
            State::P1 => Phase::P1,
            State::P2 if self.running.tfp1 => Phase::P2Tfp1,
            State::P2 => Phase::P2Tfp2,
            State::P3 => Phase::P3,
            State::P4 => Phase::P4,
            State::P5 if self.running.tfp2 => Phase::P5Tfp2,
            State::P5 => Phase::P5Tfp4,
        }
    }
}

// A state with its running timers: P2 and P5 have two phases each.
#[derive(Clone, Copy, PartialEq, Eq)]
pub enum Phase {
    P0,
    P1,
    P2Tfp1,
    P2Tfp2,
    P3,
    P4,
    P5Tfp2,
    P5Tfp4,
}

impl Phase {
    // What runs in it.
    pub(crate) fn running(self) -> Timers
        ensures { result ≡ running_of self }
    {
        match self {
            Phase::P0 => Timers::NONE,
            Phase::P1 => Timers::TFP7,
            Phase::P2Tfp1 => Timers::TFP1,
            Phase::P2Tfp2 | Phase::P5Tfp2 => Timers::TFP2,
            Phase::P3 => Timers::TFP3,
            Phase::P4 => Timers::TFP5,
            Phase::P5Tfp4 => Timers::TFP4,
        }
    }
}
