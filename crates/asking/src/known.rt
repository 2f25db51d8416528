//! A library over any world, which counts the files that it fetches.
ghost use Rattle.std.specs.Prelude.{◌≡◌, ℕ, ◌≤◌, Option};
ghost use Rattle.world.specs.Name.{IsGoodName};
ghost use Rattle.asking.specs.Known.{IsKnown, IsKnown-prop};

use crate::library::Library;
use std::alloc::Global;
use std::marker::{Brand, PhantomData};
use tokens::Stop;
use world::{Printer, World, WorldError};

/// What a world told at the start, for proofs alone.
pub trait Start {
    ghost use Rattle.world.specs.Told.{Told};

    ghost told: { Option Told };
}

impl Start for Brand {
    ghost use Rattle.std.specs.Prelude.{None};

    ghost told = { None };
}

/// The files of a world, with the number of those that were fetched. It shows and fetches, and does
/// nothing else to the world.
#[derive(Drop)]
pub struct Known<F: Start, W: World + Drop> {
    world: W,
    asked: u64,
    start: PhantomData<F>,
    ghost known: { IsKnown F.told (W.told world) asked } by { IsKnown-prop F.told (W.told world) asked },
}

impl<F: Start, W: World + Drop> Known<F, W> {
    ghost use Rattle.std.specs.Prelude.{◌<◌, ◌-◌, ◌^◌, OnOk, OnErr};
    ghost use Rattle.world.specs.Output.{flushed};
    ghost use Rattle.asking.specs.Known.{outside_of, seen_of};
    ghost use Rattle.asking.specs.Library.{ReadsBeside, ShowsBeside};

    /// The files of a world that tells what it told at the start.
    pub fn new(world: W) -> Known<F, W>
        requires told { W.told world ≡ F.told }
        ensures asked { result.asked ≡ 0 }
        ensures world { result.world ≡ world }
    {
        Known {
            world,
            asked: 0,
            start: PhantomData,
        }
    }

    /// Shows what was printed, and forgets it.
    fn show_text(&mut self, printer: &mut Printer) -> Result<(), WorldError>
        ensures shows { ShowsBeside (outside_of F.told) printer.old.unflushed
            (seen_of F.told (W.told self.old.world) self.old.asked (W.read_faults self.old.world) (W.write_faults self.old.world) (W.which self.old.world))
            (seen_of F.told (W.told self.new.world) self.new.asked (W.read_faults self.new.world) (W.write_faults self.new.world) (W.which self.new.world)) result }
        ensures ok { OnOk result (printer.new ≡ flushed printer.old) }
        ensures err { OnErr result (printer.new ≡ printer.old) }
        ensures asked { self.new.asked ≡ self.old.asked }
    {
        printer.flush(&mut self.world)
    }

    /// Reads a whole file, and counts it.
    fn read(&mut self, alloc: Global, name: &[u8]) -> Result<Option<Vec<u8>>, WorldError>
        requires good { IsGoodName name.now }
        requires below { self.old.asked < 2 ^ 64 - 1 }
        ensures reads { ReadsBeside (outside_of F.told) name.now
            (seen_of F.told (W.told self.old.world) self.old.asked (W.read_faults self.old.world) (W.write_faults self.old.world) (W.which self.old.world))
            (seen_of F.told (W.told self.new.world) self.new.asked (W.read_faults self.new.world) (W.write_faults self.new.world) (W.which self.new.world)) result }
    {
        match self.world.fetch(alloc, name) {
            Ok(found) => {
                self.asked += 1;
                Ok(found)
            }
            Err(WorldError::Failed) => {
                self.asked += 1;
                Err(WorldError::Failed)
            }
            Err(WorldError::OutOfMemory) => Err(WorldError::OutOfMemory),
        }
    }

    /// How many files were asked for.
    pub fn asked(&self) -> u64
        ensures value { result ≡ self.now.asked }
    {
        self.asked
    }
}

impl<F: Start, W: World + Drop> Library for Known<F, W> {
    ghost use Rattle.asking.specs.Known.{outside_of, seen_of};

    ghost outside = { outside_of F.told };

    ghost seen = { λ k. seen_of F.told (W.told k.world) k.asked (W.read_faults k.world) (W.write_faults k.world) (W.which k.world) };

    fn fetch(
        &mut self,
        alloc: Global,
        printer: &mut Printer,
        name: &[u8],
    ) -> Result<Option<Vec<u8>>, Stop> {
        if self.asked == u64::MAX {
            return Err(Stop::OutOfMemory);
        }
        match self.show_text(printer) {
            Ok(()) => {}
            Err(WorldError::Failed) => return Err(Stop::WriteFault),
            Err(WorldError::OutOfMemory) => return Err(Stop::OutOfMemory),
        }
        match self.read(alloc, name) {
            Ok(found) => Ok(found),
            Err(WorldError::Failed) => Err(Stop::ReadFault),
            Err(WorldError::OutOfMemory) => Err(Stop::OutOfMemory),
        }
    }

    fn show(&mut self, printer: &mut Printer) -> Result<(), WorldError> {
        self.show_text(printer)
    }
}
