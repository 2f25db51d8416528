//! A world in memory whose calls fail where they were told to, for runs whose reads and writes are
//! to fail.
ghost use Rattle.std.specs.Prelude.{◌≡◌, ℕ, ◌+◌, ◌==◌, ◌<◌, ◌≤◌, ◌∷◌, [], ◌++◌, OnOk, OnErr, Some, IsTrue, option_copied, slice_get};
ghost use Rattle.std.specs.FinMap as tree;
ghost use Rattle.std.specs.List.{list_any};
ghost use Rattle.world.specs.Calls.{Fetches, Creates, Appends, Shows, Counts};
ghost use Rattle.world.specs.Faulty.{Faulty, empty_faulty, is_next, call_fails, fetch_fails, append_fails, FaultyFetches, FaultyCreates, FaultyAppends, FaultyShows};
ghost use Rattle.world.specs.Name.{IsGoodName};
ghost use Rattle.world.specs.Told.{names, with_file, last_count};

use crate::counts::CallCounts;
use crate::honest::HonestWorld;
use crate::world::{World, WorldError};
use std::alloc::{AllocError, Global};
use std::marker::Model;

/// Files and a terminal in memory. Its calls as a [`World`] are numbered from 1, and those that were
/// named beforehand fail and leave files and terminal as they were. Its counters stay at their last
/// value; a call past the last number has none and doesn't fail.
#[derive(Drop)]
pub struct MemWorld {
    world: HonestWorld,
    failing_calls: Vec<u64>,
    failing_fetches: Vec<u64>,
    failing_appends: Vec<u64>,
    counts: CallCounts,
}

impl Model for MemWorld {
    ghost use Rattle.world.specs.Faulty.{Faulty, faulty_code, AreWithin};

    ghost Value = { Faulty };

    ghost coded = { faulty_code };

    ghost view = { λ w. record { told = w.world; failing_calls = w.failing_calls.items; failing_fetches = w.failing_fetches.items; failing_appends = w.failing_appends.items; counts = w.counts } };

    ghost invariant = { λ w. AreWithin w.counts };
}

impl MemWorld {
    /// A world without files, in which nothing is to fail.
    pub fn new(alloc: Global) -> MemWorld
        ensures { result ≡ empty_faulty }
    {
        MemWorld {
            world: HonestWorld::new(alloc),
            failing_calls: Vec::new(alloc),
            failing_fetches: Vec::new(alloc),
            failing_appends: Vec::new(alloc),
            counts: CallCounts::none(),
        }
    }

    /// Makes a name stand for these bytes. It is no call of the world, and has no number.
    pub fn put(&mut self, name: &[u8], bytes: &[u8]) -> Result<(), AllocError>
        ensures ok { OnOk result (self.new ≡ record self.old { told = with_file name.now bytes.now self.old.told }) }
        ensures err { OnErr result (self.new ≡ self.old) }
    {
        self.world.put(name, bytes)
    }

    /// The bytes that a name stands for, None where it is absent.
    pub fn file(&self, name: &[u8]) -> Option<&[u8]>
        ensures { option_copied result ≡ tree.get self.now.told.files name.now }
    {
        self.world.file(name)
    }

    /// The name with exactly `n` names before it in the order of bytes, None where at most `n` names
    /// are there.
    pub fn name(&self, n: u32) -> Option<&[u8]>
        ensures { option_copied result ≡ slice_get (names self.now.told) n }
    {
        self.world.name(n)
    }

    /// The bytes that the terminal has shown.
    pub fn shown(&self) -> &[u8]
        ensures { result.now ≡ self.now.told.terminal }
    {
        self.world.shown()
    }

    /// The call of this number is to fail, of whatever kind it is. No call has number 0.
    pub fn fail(&mut self, call: u64) -> Result<(), AllocError>
        ensures ok { OnOk result (self.new ≡ record self.old { failing_calls = self.old.failing_calls ++ call ∷ [] }) }
        ensures err { OnErr result (self.new ≡ self.old) }
    {
        self.failing_calls.push(call)?;
        Ok(())
    }

    /// The append of this number among the appends is to fail. None has number 0.
    pub fn fail_append(&mut self, nth: u64) -> Result<(), AllocError>
        ensures ok { OnOk result (self.new ≡ record self.old { failing_appends = self.old.failing_appends ++ nth ∷ [] }) }
        ensures err { OnErr result (self.new ≡ self.old) }
    {
        self.failing_appends.push(nth)?;
        Ok(())
    }

    /// The fetch of this number among the fetches is to fail.
    pub fn fail_fetch(&mut self, nth: u64) -> Result<(), AllocError>
        requires { 1 ≤ nth }
        ensures ok { OnOk result (self.new ≡ record self.old { failing_fetches = self.old.failing_fetches ++ nth ∷ [] }) }
        ensures err { OnErr result (self.new ≡ self.old) }
    {
        self.failing_fetches.push(nth)?;
        Ok(())
    }

    fn call_fails(&self) -> bool
        ensures { result ≡ call_fails self.now }
    {
        is_next(&self.failing_calls, self.counts.calls)
    }

    fn fetch_fails(&self) -> bool
        ensures { result ≡ fetch_fails self.now }
    {
        self.counts.has_number()
            && (is_next(&self.failing_calls, self.counts.calls)
                || is_next(&self.failing_fetches, self.counts.fetches))
    }

    fn append_fails(&self) -> bool
        ensures { result ≡ append_fails self.now }
    {
        self.counts.has_number()
            && (is_next(&self.failing_calls, self.counts.calls)
                || is_next(&self.failing_appends, self.counts.appends))
    }
}

impl World for MemWorld {
    ghost told = { λ w. Some w.told };

    ghost which = { λ _. 0 };

    ghost read_faults = { λ w. w.counts.failed_fetches };

    ghost write_faults = { λ w. w.counts.failed_others };

    fn fetch(&mut self, alloc: Global, name: &[u8]) -> Result<Option<Vec<u8>>, WorldError>
        requires good { IsGoodName name.now }
        ensures answer { Fetches name.now result (Some self.old.told) (Some self.new.told) }
        ensures read_fault { Counts (Some self.old.told) result self.old.counts.failed_fetches self.new.counts.failed_fetches }
        ensures write_fault { self.new.counts.failed_others ≡ self.old.counts.failed_others }
        ensures exact { FaultyFetches name.now result self.old self.new }
    {
        let fails = self.fetch_fails();
        self.counts.count_fetch();
        if fails {
            self.counts.fail_fetch();
            self.world.count_fetch();
            return Err(WorldError::Failed);
        }
        Ok(self.world.read(alloc, name)?)
    }

    fn create(&mut self, name: &[u8]) -> Result<(), WorldError>
        requires good { IsGoodName name.now }
        ensures answer { Creates name.now result (Some self.old.told) (Some self.new.told) }
        ensures read_fault { self.new.counts.failed_fetches ≡ self.old.counts.failed_fetches }
        ensures write_fault { Counts (Some self.old.told) result self.old.counts.failed_others self.new.counts.failed_others }
        ensures exact { FaultyCreates name.now result self.old self.new }
    {
        let fails = self.call_fails();
        self.counts.count_call();
        if fails {
            self.counts.fail_other();
            return Err(WorldError::Failed);
        }
        self.world.put(name, &[])?;
        Ok(())
    }

    fn append(&mut self, name: &[u8], bytes: &[u8]) -> Result<(), WorldError>
        requires good { IsGoodName name.now }
        ensures answer { Appends name.now bytes.now result (Some self.old.told) (Some self.new.told) }
        ensures read_fault { self.new.counts.failed_fetches ≡ self.old.counts.failed_fetches }
        ensures write_fault { Counts (Some self.old.told) result self.old.counts.failed_others self.new.counts.failed_others }
        ensures exact { FaultyAppends name.now bytes.now result self.old self.new }
    {
        let fails = self.append_fails();
        self.counts.count_append();
        if fails {
            self.counts.fail_other();
            return Err(WorldError::Failed);
        }
        self.world.add(name, bytes)?;
        Ok(())
    }

    fn show(&mut self, bytes: &[u8]) -> Result<(), WorldError>
        ensures answer { Shows bytes.now result (Some self.old.told) (Some self.new.told) }
        ensures read_fault { self.new.counts.failed_fetches ≡ self.old.counts.failed_fetches }
        ensures write_fault { Counts (Some self.old.told) result self.old.counts.failed_others self.new.counts.failed_others }
        ensures exact { FaultyShows bytes.now result self.old self.new }
    {
        let fails = self.call_fails();
        self.counts.count_call();
        if fails {
            self.counts.fail_other();
            return Err(WorldError::Failed);
        }
        self.world.print(bytes)?;
        Ok(())
    }
}

/// Whether the number after this one is among these.
fn is_next(numbers: &[u64], before: u64) -> bool
    ensures { result ≡ is_next numbers.now before }
{
    before != u64::MAX && holds(numbers, before + 1)
}

fn holds(numbers: &[u64], number: u64) -> bool
    ensures { result ≡ list_any (λ n. n == number) numbers.now }
{
    numbers.iter().any(|n| *n == number)
}

/// What a world whose calls may fail tells, and that its counts of faults are those of its failed
/// calls. It does nothing when it runs: its clauses are what is proved.
pub fn faulty_world_laws()
    ensures told { (w : Faulty) → ⟦<MemWorld as World>⟧.told w ≡ Some w.told }
    ensures read_faults { (w : Faulty) → ⟦<MemWorld as World>⟧.read_faults w ≡ w.counts.failed_fetches }
    ensures write_faults { (w : Faulty) → ⟦<MemWorld as World>⟧.write_faults w ≡ w.counts.failed_others }
{}
