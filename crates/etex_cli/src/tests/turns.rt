//! A machine that makes single turns.
use std::alloc::Global;
use std::test::Fail;
use stomach::{Machine, Start};
use world::MemWorld;

/// A first line, the number of the world's call that fails (0 for none), what the turns answer one after the
/// other, and what the terminal shows then. An end of the run is told by its number: 1 for trouble, 4 for a
/// failed read, 5 for a refused write.
const ROWS: &[(&str, u64, &[Result<bool, u8>], &str)] = &[
    ("\\relax\\end", 0, &[Ok(true), Ok(false)], ""),
    ("a", 0, &[Ok(true), Ok(true), Ok(false)], "(a.tex"),
    ("a", 4, &[Ok(true), Err(4)], "(a.tex"),
    ("a", 3, &[Ok(true), Err(5)], ""),
    ("c", 0, &[Err(1)], ""),
];

/// The machine on a first line.
fn machine(alloc: Global, line: &str) -> Result<Machine, Fail> {
    let line = line.as_bytes().to_vec(alloc)?;
    Ok(Machine::new(alloc, Start { line, budget: 100 })?)
}

/// A world in which one file opens another, and one call fails.
fn two_files(alloc: Global, call: u64) -> Result<MemWorld, Fail> {
    let mut world = MemWorld::new(alloc);
    world.put(b"a.tex", b"\\input b \n")?;
    world.put(b"b.tex", b"\\end\n")?;
    world.fail(call)?;
    Ok(world)
}

fn turn(machine: &mut Machine, world: &mut MemWorld) -> Result<bool, u8> {
    machine.step(world).map_err(|stop| stop.number())
}

#[test]
fn turns_are_made_one_by_one(rt: HostRuntime) -> Result<(), Fail> {
    for (line, call, answers, text) in ROWS {
        let mut world = two_files(rt.alloc(), *call)?;
        let mut machine = machine(rt.alloc(), line)?;
        for answer in *answers {
            assert_eq!(rt; turn(&mut machine, &mut world), *answer);
        }
        assert_eq!(rt; world.shown(), text.as_bytes());
    }
    Ok(())
}
