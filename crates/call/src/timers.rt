// What becomes of the timers in a step of either machine: the rules for all rows.
ghost use Rattle.std.specs.Prelude.{◌≡◌, Bool};
ghost use Rattle.call.specs.Timing.{is_stopped, runs_after, taken_by, timer_facts, set_by, stopped_of, running_after};

// What the rules ask of one timer.
#[derive(Clone, Copy, PartialEq, Eq)]
pub struct TimerFacts {
    // It ran before the step.
    pub was_running: bool,
    // It ran out just now.
    pub ran_out: bool,
    // The row asks for its stop.
    pub stop_asked: bool,
    // It is started, by the row or by a rule for all rows.
    pub started: bool,
    // The state changes.
    pub state_changes: bool,
}

// The rules for one timer.
#[derive(Clone, Copy, PartialEq, Eq)]
pub enum TimerRule {
    // It takes what the step stops.
    IsStopped,
    // It takes what runs after the step.
    RunsAfter,
}

impl TimerFacts {
    // Whether the step stops it.
    pub fn is_stopped(self) -> bool
        ensures { result ≡ is_stopped self }
    {
        self.was_running
            && !self.ran_out
            && (self.stop_asked || (self.state_changes && !self.started))
    }

    // Whether it runs after the step.
    pub fn runs_after(self) -> bool
        ensures { result ≡ runs_after self }
    {
        self.started || (self.was_running && !self.is_stopped() && !self.ran_out)
    }

    // Whether a rule takes it.
    pub fn is_taken_by(self, rule: TimerRule) -> bool
        ensures { result ≡ taken_by rule self }
    {
        match rule {
            TimerRule::IsStopped => self.is_stopped(),
            TimerRule::RunsAfter => self.runs_after(),
        }
    }
}

// A set of the timers of one machine.
pub trait TimerSet: Copy {
    // The timers of the machine.
    type Timer: Copy;

    // Whether a timer is in a set.
    ghost has: { Self → Self.Timer → Bool };

    // Whether a timer is in the set.
    fn has(self, timer: Self::Timer) -> bool
        ensures { result ≡ has self timer };
}

// A set that a rule for one timer makes.
pub trait SetByRule: TimerSet {
    // The set of the timers that pass a test.
    ghost set_of: { (Self.Timer → Bool) → Self };

    // The set of the timers that a rule takes, each by what the rules ask of it.
    // No closure for the rule: a call of one needs a `requires`, and no public function has any.
    fn by_rule(sets: TimerSets<Self>, rule: TimerRule) -> Self
        ensures timers { (timer : Self.Timer) → Self.has result timer ≡ taken_by rule (timer_facts Self.has sets timer) }
        ensures set { result ≡ set_by Self.has set_of rule sets };

    // A set has its timers, and nothing else.
    ghost its_timers: { (set : Self) → set_of (Self.has set) ≡ set };
}

// What the rules ask of the timers of a machine: the sets, and whether the state changes.
#[derive(Clone, Copy, PartialEq, Eq)]
pub struct TimerSets<S> {
    pub was_running: S,
    pub ran_out: S,
    pub stop_asked: S,
    pub started: S,
    pub state_changes: bool,
}

impl<S: TimerSet> TimerSets<S> {
    // What they ask of one timer.
    pub fn of(self, timer: S::Timer) -> TimerFacts
        ensures { result ≡ timer_facts S.has self timer }
    {
        TimerFacts {
            was_running: self.was_running.has(timer),
            ran_out: self.ran_out.has(timer),
            stop_asked: self.stop_asked.has(timer),
            started: self.started.has(timer),
            state_changes: self.state_changes,
        }
    }
}

impl<S: SetByRule> TimerSets<S> {
    // What stops.
    #[tactic(auto, unfolding(crate::specs::Timing::stopped_of))]
    pub fn stopped(self) -> S
        ensures { result ≡ stopped_of S.has S.set_of self }
    {
        S::by_rule(self, TimerRule::IsStopped)
    }

    // What runs afterwards.
    #[tactic(auto, unfolding(crate::specs::Timing::running_after))]
    pub fn running_after(self) -> S
        ensures { result ≡ running_after S.has S.set_of self }
    {
        S::by_rule(self, TimerRule::RunsAfter)
    }
}
