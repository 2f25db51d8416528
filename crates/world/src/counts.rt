//! How often a world in memory was called, and how often its calls failed.
ghost use Rattle.std.specs.Prelude.{◌≡◌, ◌≢◌, ℕ, ◌+◌, ◌-◌, ◌^◌, ◌<◌, ◌≤◌};
ghost use Rattle.world.specs.Faulty.{no_calls, has_number, after_call, after_fetching, after_appending, with_failed_fetch, with_failed_other};
ghost use Rattle.world.specs.Told.{last_count, counted};

/// How many calls there were of all kinds, how many fetches and appends among them, and how many
/// fetches and others failed.
#[derive(Clone, Copy, Debug, PartialEq, Eq)]
pub struct CallCounts {
    pub calls: u64,
    pub fetches: u64,
    pub appends: u64,
    pub failed_fetches: u64,
    pub failed_others: u64,
}

impl CallCounts {
    /// No call was made.
    pub fn none() -> CallCounts
        ensures { result ≡ no_calls }
    {
        CallCounts {
            calls: 0,
            fetches: 0,
            appends: 0,
            failed_fetches: 0,
            failed_others: 0,
        }
    }

    /// Whether the call that comes now has a number.
    pub fn has_number(&self) -> bool
        ensures { result ≡ has_number self.now }
    {
        self.calls != u64::MAX
    }

    /// One more call that is neither a fetch nor an append.
    pub fn count_call(&mut self)
        ensures counted { self.new ≡ after_call self.old }
        ensures grows { self.old.calls ≤ self.new.calls }
        ensures next { self.old.calls < last_count → self.new.calls ≡ self.old.calls + 1 }
    {
        self.calls = counted(self.calls);
    }

    /// One more fetch.
    pub fn count_fetch(&mut self)
        ensures counted { self.new ≡ after_fetching self.old }
        ensures grows { self.old.calls ≤ self.new.calls }
        ensures next { self.old.calls < last_count → self.new.calls ≡ self.old.calls + 1 }
    {
        self.calls = counted(self.calls);
        self.fetches = counted(self.fetches);
    }

    /// One more append.
    pub fn count_append(&mut self)
        ensures counted { self.new ≡ after_appending self.old }
        ensures grows { self.old.calls ≤ self.new.calls }
        ensures next { self.old.calls < last_count → self.new.calls ≡ self.old.calls + 1 }
    {
        self.calls = counted(self.calls);
        self.appends = counted(self.appends);
    }

    /// The fetch that was counted last failed.
    pub fn fail_fetch(&mut self)
        requires { self.old.failed_fetches < last_count }
        ensures { self.new ≡ with_failed_fetch self.old }
    {
        self.failed_fetches += 1;
    }

    /// The call that was counted last, no fetch, failed.
    pub fn fail_other(&mut self)
        requires { self.old.failed_others < last_count }
        ensures { self.new ≡ with_failed_other self.old }
    {
        self.failed_others += 1;
    }
}

/// A counter after one more call. It stays at its last value.
pub fn counted(count: u64) -> u64
    ensures value { result ≡ counted count }
    ensures grows { count ≤ result }
    ensures next { count < last_count → result ≡ count + 1 }
{
    if count == u64::MAX { count } else { count + 1 }
}
