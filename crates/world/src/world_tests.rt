//! The worlds at work: large names and files, and calls that were told to fail.
use super::*;
use std::alloc::Global;
use std::fs;
use std::process::Abort;
use std::test::Fail;

/// A good name of the greatest length.
const LONG_NAME: [u8; 200] = [b'x'; 200];

/// How many bytes the larger of two appends adds.
const MANY: usize = 1 << 20;

fn many_bytes(alloc: Global) -> Result<Vec<u8>, Fail> {
    Ok(vec![in alloc; b'y'; MANY]?)
}

/// Makes a large file under a long name, in two portions, and fetches it.
fn keeps_large_files<W: World>(rt: &impl Abort, alloc: Global, world: &mut W) -> Result<(), Fail> {
    let name = LONG_NAME;
    assert!(rt; is_good_name(&name));
    world.create(&name)?;
    world.append(&name, &[b'a'; 255])?;
    world.append(&name, &many_bytes(alloc)?)?;
    let fetched = world.fetch(alloc, &name)?.ok_or("absent")?;
    assert_eq!(rt; fetched.len(), 255 + MANY);
    assert_eq!(rt; fetched.iter().filter(|byte| **byte == b'a').count(), 255);
    Ok(())
}

#[test]
fn honest_world_keeps_large_files(rt: HostRuntime) -> Result<(), Fail> {
    let alloc = rt.alloc();
    let mut world = HonestWorld::new(alloc);
    keeps_large_files(&rt, alloc, &mut world)?;
    let many = many_bytes(alloc)?;
    world.show(&many)?;
    assert_eq!(rt; world.shown().len(), MANY);
    world.put(&LONG_NAME, &many)?;
    assert_eq!(rt; world.file(&LONG_NAME), Some(many.as_slice()));
    Ok(())
}

#[test]
fn a_borrowed_world_is_the_world(rt: HostRuntime) -> Result<(), Fail> {
    let alloc = rt.alloc();
    let mut world = HonestWorld::new(alloc);
    let mut borrowed = &mut world;
    keeps_large_files(&rt, alloc, &mut borrowed)?;
    borrowed.create(b"a.log")?;
    borrowed.show(b"shown")?;
    assert_eq!(rt; world.file(b"a.log"), Some(b"".as_slice()));
    assert_eq!(rt; world.shown(), b"shown".as_slice());
    Ok(())
}

#[test]
fn memory_world_keeps_large_files(rt: HostRuntime) -> Result<(), Fail> {
    let alloc = rt.alloc();
    let mut world = MemWorld::new(alloc);
    keeps_large_files(&rt, alloc, &mut world)?;
    let many = many_bytes(alloc)?;
    world.show(&many)?;
    assert_eq!(rt; world.shown().len(), MANY);
    world.put(&LONG_NAME, &many)?;
    assert_eq!(rt; world.file(&LONG_NAME), Some(many.as_slice()));
    assert_eq!(rt; world.name(0), Some(LONG_NAME.as_slice()));
    assert_eq!(rt; world.name(1), None);
    Ok(())
}

#[test]
fn folder_keeps_large_files(rt: HostRuntime) -> Result<(), Fail> {
    let alloc = rt.alloc();
    let mut world = DirWorld::new(rt.clone()?, alloc);
    keeps_large_files(&rt, alloc, &mut world)?;
    let text = str::from_utf8(&LONG_NAME).map_err(|_| "no text")?;
    fs::remove_file(&rt, text)?;
    Ok(())
}

/// What one call answers: a fetch, a creation, an append or else a text that is shown. `.` is for
/// Ok, `!` for Failed, `?` for want of memory.
fn answer(world: &mut MemWorld, alloc: Global, call: u8) -> u8 {
    let answer = match call {
        b'f' => match world.fetch(alloc, b"a.tex") {
            Ok(_) => Ok(()),
            Err(refusal) => Err(refusal),
        },
        b'c' => world.create(b"b.log"),
        b'a' => world.append(b"a.tex", b"more"),
        _ => world.show(b"text"),
    };
    match answer {
        Ok(()) => b'.',
        Err(WorldError::Failed) => b'!',
        Err(WorldError::OutOfMemory) => b'?',
    }
}

/// Makes calls one after another, and looks at their answers.
fn answers(
    rt: &impl Abort,
    alloc: Global,
    world: &mut MemWorld,
    calls: &[u8],
    want: &[u8],
) -> Result<(), Fail> {
    let mut found = Vec::new(alloc);
    for call in calls {
        found.push(answer(world, alloc, *call))?;
    }
    assert_eq!(rt; found.as_slice(), want);
    Ok(())
}

#[test]
fn calls_fail_by_their_numbers(rt: HostRuntime) -> Result<(), Fail> {
    let alloc = rt.alloc();
    let mut world = MemWorld::new(alloc);
    world.fail(2)?;
    world.fail(5)?;
    answers(&rt, alloc, &mut world, b"fcascs", b".!..!.")?;
    assert_eq!(rt; world.file(b"b.log"), None);
    assert_eq!(rt; world.shown(), b"texttext".as_slice());
    Ok(())
}

#[test]
fn fetches_and_appends_have_numbers_of_their_own(rt: HostRuntime) -> Result<(), Fail> {
    let alloc = rt.alloc();
    let mut world = MemWorld::new(alloc);
    world.fail_fetch(2)?;
    world.fail_append(1)?;
    world.fail(7)?;
    answers(&rt, alloc, &mut world, b"afsaffaf", b"!...!.!.")?;
    assert_eq!(rt; world.file(b"a.tex"), Some(b"more".as_slice()));
    Ok(())
}

#[test]
fn a_thousand_numbers_are_kept(rt: HostRuntime) -> Result<(), Fail> {
    let alloc = rt.alloc();
    let mut world = MemWorld::new(alloc);
    for number in 2..1_002 {
        world.fail(number)?;
        world.fail_fetch(number)?;
        world.fail_append(number)?;
    }
    answers(&rt, alloc, &mut world, b"fcas", b".!!!")
}
