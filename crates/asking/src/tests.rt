//! Files asked of a world in memory: what is answered, and what the terminal shows then.
ghost use Rattle.std.specs.Prelude.{◌≡◌};

use super::{Known, Library, Part, Start, Whole};
use std::alloc::Global;
use std::marker::Brand;
use std::test::Fail;
use tokens::Stop;
use world::{MemWorld, Printer, Target, World, is_good_name};

/// What a call answered.
#[derive(Clone, Copy, Debug, PartialEq, Eq)]
enum Answer {
    Bytes,
    Nothing,
    ReadFault,
    WriteFault,
    Other,
}

/// A name, the number of the call that fails (0 for none), the answer and the terminal's text.
const ROWS: &[(&[u8], u64, Answer, &[u8])] = &[
    (b"a.tex", 0, Answer::Bytes, b"hi"),
    (b"b.tex", 0, Answer::Nothing, b"hi"),
    (b"a.tex", 1, Answer::WriteFault, b""),
    (b"a.tex", 2, Answer::ReadFault, b"hi"),
    (b"", 0, Answer::Other, b""),
];

/// A world with one file of one byte.
fn one_file(alloc: Global) -> Result<MemWorld, Fail> {
    let mut world = MemWorld::new(alloc);
    world.put(b"a.tex", b"x")?;
    Ok(world)
}

/// Prints two bytes, and asks for a file.
fn ask<F: Start, W: World>(alloc: Global, world: &mut W, name: &[u8]) -> Result<bool, Stop>
    requires told { W.told world.old ≡ F.told }
{
    let mut library = Known::<F, &mut W>::new(world);
    let mut printer = Printer::new(alloc);
    if printer.print(Target::Both, b"hi", 0).is_err() || !is_good_name(name) {
        return Err(Stop::OutOfMemory);
    }
    match library.fetch(alloc, &mut printer, name) {
        Ok(Some(bytes)) => Ok(bytes.as_slice() == b"x".as_slice()),
        Ok(None) => Ok(false),
        Err(stop) => Err(stop),
    }
}

/// The same, of what the world tells now.
fn ask_now<W: World>(alloc: Global, world: &mut W, name: &[u8]) -> Answer {
    match ask::<Brand, W>(alloc, world, name) {
        Ok(true) => Answer::Bytes,
        Ok(false) => Answer::Nothing,
        Err(Stop::ReadFault) => Answer::ReadFault,
        Err(Stop::WriteFault) => Answer::WriteFault,
        Err(_) => Answer::Other,
    }
}

#[test]
fn text_is_shown_before_a_file_is_read(rt: HostRuntime) -> Result<(), Fail> {
    let alloc = rt.alloc();
    for (name, call, wanted, text) in ROWS {
        let mut world = one_file(alloc)?;
        world.fail(*call)?;
        assert_eq!(rt; ask_now(alloc, &mut world, name), *wanted);
        assert_eq!(rt; world.shown(), *text);
    }
    Ok(())
}

/// Asks three times on a part of a state: how many files were there, and how many were asked for.
fn count<F: Start, W: World>(alloc: Global, world: &mut W) -> Result<(u64, u64), Stop>
    requires told { W.told world.old ≡ F.told }
{
    let mut library = Known::<F, &mut W>::new(world);
    let mut whole = Whole {
        part: Part {
            printer: Printer::new(alloc),
            found: 0,
        },
        calls: 0,
    };
    whole.counted_files(alloc, &mut library, b"a.tex", b"b.tex")?;
    Ok((whole.part.found, library.asked()))
}

/// The same, of what the world tells now.
fn counted<W: World>(alloc: Global, world: &mut W) -> Option<(u64, u64)> {
    count::<Brand, W>(alloc, world).ok()
}

#[test]
fn files_are_counted_on_a_part(rt: HostRuntime) -> Result<(), Fail> {
    let alloc = rt.alloc();
    let mut world = one_file(alloc)?;
    assert_eq!(rt; counted(alloc, &mut world), Some((2, 3)));
    Ok(())
}
