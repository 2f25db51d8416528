//! What the commands of a line show, one carried out behind the other.
ghost use Rattle.std.specs.Prelude.{◌≡◌};

use super::macros::{Definition, fill, name_more};
use super::reading::shown;
use super::tex::{Tex, in_mode};
use super::world_of;
use asking::{Known, Library, Start};
use commands::{Next, execute};
use std::alloc::{AllocError, Global};
use std::marker::Brand;
use std::test::Fail;
use tokens::{Stop, Token};
use world::{HonestWorld, World};

/// More commands than any line has.
const MOST_COMMANDS: u32 = 2000;

/// Carries a token out. False where that was `\end`.
fn carry_out<L: Library>(
    tex: &mut Tex,
    library: &mut L,
    token: Token,
    noexpand: bool,
) -> Result<bool, Stop> {
    match execute(
        tex.alloc,
        token,
        noexpand,
        &mut tex.gullet,
        &mut tex.site,
        library,
    ) {
        Ok(Next::GoesOn) => Ok(true),
        Ok(Next::Ended) => Ok(false),
        Err(stop) => Err(stop),
    }
}

/// Carries the next command out. False where nothing is left, and behind `\end`.
fn carry_next<L: Library>(tex: &mut Tex, library: &mut L) -> Result<bool, Stop> {
    match tex.gullet.next_unexpandable(&mut tex.site, library) {
        Ok(Some((token, noexpand))) => carry_out(tex, library, token, noexpand),
        Ok(None) => Ok(false),
        Err(stop) => Err(stop),
    }
}

/// Carries all commands of a line out, and counts them.
fn carry_all<L: Library>(tex: &mut Tex, library: &mut L) -> Result<u32, Stop> {
    let mut count: u32 = 0;
    'commands: for _ in 0..MOST_COMMANDS {
        if !carry_next(tex, library)? {
            break 'commands;
        }
        count = count.saturating_add(1);
    }
    Ok(count)
}

fn carry_over<F: Start, W: World>(tex: &mut Tex, world: &mut W) -> Result<u32, Stop>
    requires told { W.told world.old ≡ F.told }
{
    let mut library = Known::<F, &mut W>::new(world);
    carry_all(tex, &mut library)
}

fn carry<W: World>(tex: &mut Tex, world: &mut W) -> Result<u32, Stop> {
    carry_over::<Brand, W>(tex, world)
}

/// What was shown, with the trouble behind it in which the line ended, if it did.
fn with_end(
    alloc: Global,
    world: &HonestWorld,
    ended: Result<u32, Stop>,
) -> Result<Vec<u8>, AllocError> {
    let mut text = world.shown().to_vec(alloc)?;
    if let Err(stop) = ended {
        text.extend_from_slice(b"! ")?;
        text.extend_from_slice(&shown(alloc, stop)?)?;
    }
    Ok(text)
}

/// A line whose commands are carried out, with further names and codes, and with a text in `\toks0`.
fn prepared(
    alloc: Global,
    extended: bool,
    macros: &[Definition],
    line: &[u8],
) -> Result<Tex, Fail> {
    let mut tex = in_mode(alloc, extended, macros, line)?;
    name_more(&mut tex)?;
    fill(&mut tex, b"a\\e{#}")?;
    Ok(tex)
}

/// What the commands of a line show in a mode, with the trouble in which they end behind it, and how many troubles are passed
/// over.
pub fn shows_in(
    alloc: Global,
    extended: bool,
    macros: &[Definition],
    line: &[u8],
) -> Result<(Vec<u8>, u64), Fail> {
    let mut tex = prepared(alloc, extended, macros, line)?;
    let mut world = world_of(alloc, &[])?;
    let ended = carry(&mut tex, &mut world);
    tex.site.out.flush(&mut world)?;
    Ok((with_end(alloc, &world, ended)?, tex.passed()))
}

/// The same in extended mode.
pub fn shows(alloc: Global, macros: &[Definition], line: &[u8]) -> Result<(Vec<u8>, u64), Fail> {
    shows_in(alloc, true, macros, line)
}

/// How many commands a line has, none where it ends in a trouble.
pub fn commands_in(alloc: Global, macros: &[Definition], line: &[u8]) -> Result<u32, Fail> {
    let mut tex = prepared(alloc, true, macros, line)?;
    let mut world = world_of(alloc, &[])?;
    Ok(carry(&mut tex, &mut world).unwrap_or(0))
}
