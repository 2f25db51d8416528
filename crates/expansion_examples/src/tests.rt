//! Lines and what expansion leaves of them.
use macros::Definition;
use std::alloc::Global;
use std::test::Fail;
use tex::{Tex, with_macros};
use world::HonestWorld;

mod arguments;
mod branches;
mod conditions;
mod definitions;
mod depth;
mod ends;
mod executing;
mod files;
mod groups;
mod letters;
mod macros;
mod messages;
mod names;
mod numbers;
mod raw;
mod reading;
mod showing;
mod shown;
mod tex;
mod texts;

/// A file by its name, and its bytes.
type File = (&'static [u8], &'static [u8]);

/// A world with these files.
fn world_of(alloc: Global, files: &[File]) -> Result<HonestWorld, Fail> {
    let mut world = HonestWorld::new(alloc);
    for (name, bytes) in files {
        world.put(name, bytes)?;
    }
    Ok(world)
}

/// What expansion leaves of a line, with the trouble in which it ends behind it, and how many troubles it passes over.
fn leaves(
    alloc: Global,
    macros: &[Definition],
    files: &[File],
    line: &[u8],
) -> Result<(Vec<u8>, u64), Fail> {
    let mut tex = with_macros(alloc, macros, line)?;
    let mut world = world_of(alloc, files)?;
    let text = reading::expanded(&mut tex, &mut world)?;
    Ok((text, tex.passed()))
}
