//! A run of TeX on the words of a command line.
ghost use Rattle.std.specs.Prelude.{◌≡◌, IfOk, map, option_copied};
ghost use Rattle.std.specs.String.{string_bytes};
ghost use Rattle.stomach.specs.Faults.{ReadFaultWhere, WriteFaultWhere};
ghost use Rattle.stomach.specs.Machine.{SameFiles, new_run, tells};
ghost use Rattle.etex_cli.specs.Words.{first_line, line_of, usage, Runs, RunsOn, ShowsUsage};

use std::alloc::{AllocError, Global};
use stomach::{Ended, Exit, Machine, Start};
use world::{World, WorldError};

/// How many steps a run may take.
const STEPS: u64 = 1_000_000_000;

/// Runs TeX on the words behind the program's name. There is one word, the first line.
#[tactic(auto, using(crate::proofs::Runs::runs_on))]
pub fn etex_main<W: World>(alloc: Global, words: &[String], world: &mut W) -> Exit
    ensures machine { RunsOn (first_line (map string_bytes words.now)) result (W.told world.old) (W.told world.new)
        (W.read_faults world.old) (W.read_faults world.new) }
    ensures read_fault { ReadFaultWhere (tells (W.told world.old)) result (W.read_faults world.old) (W.read_faults world.new) }
    ensures write_fault { WriteFaultWhere (tells (W.told world.old)) result (W.write_faults world.old) (W.write_faults world.new) }
    ensures files { SameFiles (W.told world.old) (W.told world.new) }
{
    match first_line(words) {
        Some(line) => run(alloc, line, world).exit,
        None => show_usage(world),
    }
}

/// The first line, where there is one word.
#[tactic(auto, using(crate::proofs::Runs::one_word, crate::proofs::Runs::no_words, crate::proofs::Runs::several_words))]
fn first_line(words: &[String]) -> Option<&[u8]>
    ensures value { option_copied result ≡ first_line (map string_bytes words.now) }
{
    match words {
        [word] => Some(line_of(word.as_str().as_bytes())),
        _ => None,
    }
}

/// A word without its asterisk, which asks for the extended mode.
fn line_of(word: &[u8]) -> &[u8]
    ensures value { result.now ≡ line_of word.now }
{
    match word {
        [b'*', line @ ..] => line,
        _ => word,
    }
}

/// Runs TeX on a first line.
#[tactic(auto, using(crate::proofs::Runs::no_run))]
fn run<W: World>(alloc: Global, line: &[u8], world: &mut W) -> Ended
    ensures runs { Runs line.now 1000000000 result (W.told world.old) (W.told world.new) (W.read_faults world.old) (W.read_faults world.new) }
    ensures read_fault { ReadFaultWhere (tells (W.told world.old)) result.exit (W.read_faults world.old) (W.read_faults world.new) }
    ensures write_fault { WriteFaultWhere (tells (W.told world.old)) result.exit (W.write_faults world.old) (W.write_faults world.new) }
    ensures files { SameFiles (W.told world.old) (W.told world.new) }
{
    match machine_on(alloc, line) {
        Ok(machine) => machine.run(world),
        Err(_) => Ended {
            exit: Exit::OutOfMemory,
            steps: 0,
            fetches: 0,
        },
    }
}

/// The machine before its first turn.
fn machine_on(alloc: Global, line: &[u8]) -> Result<Machine, AllocError>
    ensures begins { IfOk result (λ machine. machine ≡ new_run line.now 1000000000) }
{
    let line = line.to_vec(alloc)?;
    Machine::new(
        alloc,
        Start {
            line,
            budget: STEPS,
        },
    )
}

/// Shows how the program is called.
fn show_usage<W: World>(world: &mut W) -> Exit
    ensures shows { ShowsUsage result (W.told world.old) (W.told world.new) }
    ensures reads_nothing { W.read_faults world.new ≡ W.read_faults world.old }
    ensures write_fault { WriteFaultWhere (tells (W.told world.old)) result (W.write_faults world.old) (W.write_faults world.new) }
    ensures files { SameFiles (W.told world.old) (W.told world.new) }
{
    match world.show(USAGE) {
        Ok(()) => Exit::Usage,
        Err(WorldError::Failed) => Exit::WriteFault,
        Err(WorldError::OutOfMemory) => Exit::OutOfMemory,
    }
}

const USAGE: &[u8] =
    b"usage: etex_cli [--steps N] [--stamp YYYYMMDDHHMM] [--generate N] [WORD ...]\n";
