//! The machine: a whole run, from its first line to its last (`tex.web` 1332).
ghost use Rattle.std.specs.Prelude.{◌≡◌, ◌<◌, ◌≤◌, ℕ, min, Bool, true, IfOk, OnOk};
ghost use Rattle.asking.specs.Meaning.{Meant};
ghost use Rattle.asking.specs.Seen.{DoesBeside, Seen};
ghost use Rattle.stomach.specs.declared.state.State.{State};
ghost use Rattle.stomach.specs.Turn.{turn};
ghost use Rattle.stomach.specs.Work.{work};
ghost use Rattle.stomach.specs.Ending.{exit_by, output_by, exit_after, cut_short};
ghost use Rattle.stomach.specs.Faults.{ReadFaultWhere, WriteFaultWhere};
ghost use Rattle.stomach.specs.Machine.{begins_with_name, beginning, new_run, IsTurn, RunsFrom, SameFiles, TurnsLaw, tells};
ghost use Rattle.stomach.specs.Running.{DoesAll, Runs};

use crate::ending::{Exit, exit_of};
use crate::pending::Pending;
use crate::source::Source;
use crate::state::State;
use asking::{Known, Library, Start as Told};
use catcode_eye::Eye;
use std::alloc::{AllocError, Global};
use std::marker::{Brand, Model};
use tokens::{Budget, CatTable, Stop, Text, primitive_table};
use world::{Printer, World, WorldError};

/// With what a run begins.
#[derive(Drop)]
pub struct Start {
    /// The first line, without its asterisk.
    pub line: Vec<u8>,
    /// How many steps the run may take.
    pub budget: u64,
}

/// How a run ended.
#[derive(Clone, Copy, Debug, PartialEq, Eq)]
pub struct Ended {
    pub exit: Exit,
    /// How many steps it took, at most those that it was given.
    pub steps: u64,
    /// How many files it asked the world for, at most 2^64 - 1.
    pub fetches: u64,
}

/// A run of TeX.
#[derive(Drop)]
pub struct Machine {
    alloc: Global,
    state: State,
    steps: u64,
}

impl Model for Machine {
    ghost use Rattle.stomach.specs.Machine.{Run};

    ghost Value = { Run };

    ghost view = { λ machine. record { state = machine.state; steps = machine.steps } };
}

impl Machine {
    /// The machine before its first turn.
    pub fn new(alloc: Global, start: Start) -> Result<Machine, AllocError>
        ensures begins { IfOk result (λ machine. machine ≡ new_run start.line.items start.budget) }
    {
        let steps = start.budget;
        let state = beginning(alloc, start.line, steps)?;
        Ok(Machine {
            alloc,
            state,
            steps,
        })
    }

    /// One turn. The answer is whether the run goes on: false comes exactly at its end. Behind false, or a
    /// `Stop`, the machine is at its end, and is only to be dropped. What was printed since the last asking
    /// isn't shown yet.
    pub fn step<W: World>(&mut self, world: &mut W) -> Result<bool, Stop>
        ensures does { IsTurn self.old.state result self.new.state (W.told world.old) (W.told world.new)
            (W.read_faults world.old) (W.read_faults world.new) (W.write_faults world.old) (W.write_faults world.new) }
        ensures less { OnOk result (work self.new.state < work self.old.state) }
        ensures steps { self.new.steps ≡ self.old.steps }
    {
        self.step_from::<Brand, W>(world)
    }

    /// The same, by what the world told at the start.
    fn step_from<F: Told, W: World>(&mut self, world: &mut W) -> Result<bool, Stop>
        requires told { W.told world.old ≡ F.told }
        ensures does { IsTurn self.old.state result self.new.state (W.told world.old) (W.told world.new)
            (W.read_faults world.old) (W.read_faults world.new) (W.write_faults world.old) (W.write_faults world.new) }
        ensures less { OnOk result (work self.new.state < work self.old.state) }
        ensures steps { self.new.steps ≡ self.old.steps }
    {
        let mut library = Known::<F, &mut W>::new(world);
        self.state.turn(self.alloc, &mut library)
    }

    /// All turns, and the ending.
    pub fn run<W: World>(self, world: &mut W) -> Ended
        ensures runs { RunsFrom self.state self.steps result (W.told world.old) (W.told world.new) (W.read_faults world.old) (W.read_faults world.new) }
        ensures steps { result.steps ≤ self.steps }
        ensures read_fault { ReadFaultWhere (tells (W.told world.old)) result.exit (W.read_faults world.old) (W.read_faults world.new) }
        ensures write_fault { WriteFaultWhere (tells (W.told world.old)) result.exit (W.write_faults world.old) (W.write_faults world.new) }
        ensures files { SameFiles (W.told world.old) (W.told world.new) }
    {
        self.run_from::<Brand, W>(world)
    }

    /// The same, by what the world told at the start.
    fn run_from<F: Told, W: World>(mut self, world: &mut W) -> Ended
        requires told { W.told world.old ≡ F.told }
        ensures runs { RunsFrom self.state self.steps result (W.told world.old) (W.told world.new) (W.read_faults world.old) (W.read_faults world.new) }
        ensures steps { result.steps ≤ self.steps }
        ensures read_fault { ReadFaultWhere (tells (W.told world.old)) result.exit (W.read_faults world.old) (W.read_faults world.new) }
        ensures write_fault { WriteFaultWhere (tells (W.told world.old)) result.exit (W.write_faults world.old) (W.write_faults world.new) }
        ensures files { SameFiles (W.told world.old) (W.told world.new) }
    {
        let mut library = Known::<F, &mut W>::new(world);
        let exit = self.state.finish(self.alloc, &mut library, self.steps);
        Ended {
            exit,
            steps: self.state.budget.used().min(self.steps),
            fetches: library.asked(),
        }
    }
}

impl State {
    /// All turns, and the ending, over a library.
    fn finish<L: Library>(&mut self, alloc: Global, library: &mut L, given: u64) -> Exit
        ensures runs { Runs L.outside (L.seen library.old) (L.seen library.new) result (min self.new.budget.used given) given (turn L.outside) self.old }
    {
        let ending = self.turns(alloc, library);
        self.show_ending(alloc, library, &ending, given)
    }

    /// All turns. Each leaves less work to be done.
    #[tactic(auto, using(asking::specs::Turns::turning))]
    fn turns<L: Library>(&mut self, alloc: Global, library: &mut L) -> Result<(), Stop>
        ensures does { DoesAll L.outside (L.seen library.old) (L.seen library.new) result self.new (turn L.outside) self.old }
    {
        'turns: loop {
            match self.turn(alloc, library) {
                Ok(true) => {}
                Ok(false) => return Ok(()),
                Err(stop) => return Err(stop),
            }
        }
    }

    /// Shows the ending of turns. Behind a refused write, and where memory ran out, nothing more is shown.
    fn show_ending<L: Library>(
        &mut self,
        alloc: Global,
        library: &mut L,
        ending: &Result<(), Stop>,
        given: u64,
    ) -> Exit
        ensures runs { (old : Seen) (once : State → Meant State Bool) (first : State) → DoesAll L.outside old (L.seen library.old) ending.now self.old once first
            → Runs L.outside old (L.seen library.new) result (min self.new.budget.used given) given once first }
    {
        if let Some(exit) = cut_short(ending) {
            return exit;
        }
        let Ok(exit) = self.conclude(alloc, ending) else {
            return Exit::OutOfMemory;
        };
        exit_after(exit, library.show(&mut self.printer))
    }

    /// Prints the ending, and tells the exit.
    fn conclude(&mut self, alloc: Global, ending: &Result<(), Stop>) -> Result<Exit, AllocError>
        ensures exit { IfOk result (λ exit. exit ≡ exit_by ending.now) }
        ensures output { OnOk result (self.new.printer ≡ output_by ending.now self.old) }
        ensures budget { self.new.budget ≡ self.old.budget }
    {
        match ending {
            Ok(()) => {
                self.end_well()?;
                Ok(Exit::Done)
            }
            Err(stop) => {
                self.end_early(alloc, stop)?;
                Ok(exit_of(stop))
            }
        }
    }
}

/// The exit of turns behind which nothing more is shown.
fn cut_short(ending: &Result<(), Stop>) -> Option<Exit>
    ensures value { result ≡ cut_short ending.now }
{
    match ending {
        Ok(()) => None,
        Err(Stop::Trouble(_)) => None,
        Err(Stop::Capacity(_)) => None,
        Err(Stop::Spent) => None,
        Err(Stop::ReadFault) => None,
        Err(Stop::WriteFault) => Some(Exit::WriteFault),
        Err(Stop::OutOfMemory) => Some(Exit::OutOfMemory),
    }
}

/// The exit of a run, by how it ended and whether its ending was shown.
fn exit_after(exit: Exit, shown: Result<(), WorldError>) -> Exit
    ensures value { result ≡ exit_after exit shown }
{
    match shown {
        Ok(()) => exit,
        Err(WorldError::Failed) => Exit::WriteFault,
        Err(WorldError::OutOfMemory) => Exit::OutOfMemory,
    }
}

/// The state with which a run begins.
#[tactic(auto, using(asking::specs::Asked::asking), unfolding(crate::specs::Machine::beginning))]
fn beginning(alloc: Global, line: Vec<u8>, budget: u64) -> Result<State, AllocError>
    ensures begins { IfOk result (λ state. state ≡ beginning line.items budget) }
{
    let names_file = begins_with_name(&line);
    let eye = Eye::new(alloc, line, -1, true);
    let mut pending = Pending::new(alloc);
    pending.read_from(Source {
        eye,
        is_file: false,
    })?;
    Ok(State {
        names: primitive_table(alloc)?,
        categories: CatTable::initial(),
        pending,
        printer: Printer::new(alloc),
        budget: Budget::new(budget),
        names_file,
        job: Text::new(Vec::new(alloc)),
        asked: Text::new(Vec::new(alloc)),
    })
}

/// Whether the first line names a file: it isn't empty, and doesn't begin with an escape character.
fn begins_with_name(line: &[u8]) -> bool
    ensures value { result ≡ begins_with_name line.now }
{
    match line {
        [] => false,
        [first, ..] => *first != b'\\',
    }
}

/// The laws of turns: once the run is over, more turns mean the same, and show no more.
pub fn turns_law()
    ensures law { TurnsLaw }
{}
