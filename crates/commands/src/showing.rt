//! `\show` and `\showthe` (The TeXbook, page 279; `tex.web` 1293, 1294 and 1297).
#![tactic(auto, using(asking::specs::Asked::asking), unfolding(crate::specs::Showing::show, crate::specs::Showing::show_the))]

ghost use Rattle.std.specs.Prelude.{◌≡◌, IfOk, OnOk};
ghost use Rattle.asking.specs.Did.{Does};
ghost use Rattle.asking.specs.Seen.{DoesBeside};
ghost use Rattle.save_groups.specs.Standing.{copies_of};
ghost use Rattle.gullet.specs.Meanings.{HasFixed, taken_meaning};
ghost use Rattle.gullet.specs.State.{state_of};
ghost use Rattle.commands.specs.Showing.{line_of, tail_of, with_tail, meaning_told, show_by, show_raw, show, text_told, list_told, show_the};

use crate::messages::text_of;
use asking::Library;
use gullet::{
    Gullet, Site, categories, escape, fixed_meaning, font_shown, new_line, show as show_bytes,
    string_text, taken_meaning,
};
use std::alloc::{AllocError, Global};
use tokens::{Meaning, Stop, Token, has_tail, meaning_head, meaning_tail};
use world::{Printer, Target};

/// `\show`, behind its token.
pub(crate) fn show(alloc: Global, gullet: &mut Gullet, site: &mut Site) -> Result<(), Stop>
    ensures does { Does result (state_of gullet.new site.new) (show (state_of gullet.old site.old)) }
{
    let (token, noexpand) = gullet.one_token(site)?;
    match show_raw(alloc, gullet, site, token, noexpand) {
        Ok(()) => Ok(()),
        Err(_) => Err(Stop::OutOfMemory),
    }
}

/// Tells what a token means that was taken so.
fn show_raw(
    alloc: Global,
    gullet: &Gullet,
    site: &mut Site,
    token: Token,
    noexpand: bool,
) -> Result<(), AllocError>
    ensures ok { OnOk result (state_of gullet.now site.new ≡ show_by token (taken_meaning (copies_of site.old.env) token noexpand) (state_of gullet.now site.old)) }
{
    let fixed = fixed_meaning(&site.env, token, noexpand);
    let meaning = taken_meaning(&site.env, &fixed, token, noexpand);
    let line = line_of(alloc, gullet, site, token, meaning)?;
    let tail = tail_of(alloc, gullet, site, meaning)?;
    let has = has_tail(meaning);
    let newline = new_line(&site.env);
    tell(&mut site.out, &line, has, &tail, newline)
}

/// The token, an equals sign, and the meaning up to its colon, if it has one.
fn line_of(
    alloc: Global,
    _gullet: &Gullet,
    site: &Site,
    token: Token,
    meaning: &Meaning,
) -> Result<Vec<u8>, AllocError>
    ensures { IfOk result (λ line. line.items ≡ line_of (state_of _gullet.now site.now) token meaning.now) }
{
    let escape = escape(&site.env);
    let shown = string_text(alloc, token, &site.names, escape)?;
    let font = font_shown(alloc, meaning, &site.facts)?;
    let head = meaning_head(alloc, meaning, escape, &font)?;
    let mut line = Vec::new(alloc);
    line.extend_from_slice(b"> ")?;
    line.extend_from_slice(&shown)?;
    line.extend_from_slice(b"=")?;
    line.extend_from_slice(&head)?;
    Ok(line)
}

/// What stands behind the colon.
fn tail_of(
    alloc: Global,
    _gullet: &Gullet,
    site: &Site,
    meaning: &Meaning,
) -> Result<Vec<u8>, AllocError>
    ensures { IfOk result (λ tail. tail.items ≡ tail_of (state_of _gullet.now site.now) meaning.now) }
{
    let escape = escape(&site.env);
    let font = font_shown(alloc, meaning, &site.facts)?;
    meaning_tail(
        alloc,
        meaning,
        &site.names,
        categories(&site.env),
        escape,
        &font,
    )
}

/// Tells a meaning on lines of its own.
fn tell(
    printer: &mut Printer,
    line: &[u8],
    has: bool,
    tail: &[u8],
    newline: i32,
) -> Result<(), AllocError>
    ensures ok { OnOk result (printer.new ≡ meaning_told line.now has tail.now newline printer.old) }
{
    printer.fresh_line(Target::Both)?;
    show_bytes(printer, line, newline)?;
    tell_tail(printer, has, tail, newline)?;
    show_bytes(printer, b".", newline)?;
    printer.end_line(Target::Both)
}

fn tell_tail(printer: &mut Printer, has: bool, tail: &[u8], newline: i32) -> Result<(), AllocError>
    ensures ok { OnOk result (printer.new ≡ with_tail has tail.now newline printer.old) }
{
    if has {
        printer.end_line(Target::Both)?;
        show_bytes(printer, tail, newline)
    } else {
        Ok(())
    }
}

/// `\showthe`, behind its token.
pub(crate) fn show_the<L: Library>(
    alloc: Global,
    gullet: &mut Gullet,
    site: &mut Site,
    library: &mut L,
) -> Result<(), Stop>
    ensures does { DoesBeside L.outside (L.seen library.old) (L.seen library.new) result (state_of gullet.new site.new)
        (show_the L.outside (state_of gullet.old site.old)) }
{
    let list = gullet.value_text(site, library)?;
    tell_list(alloc, gullet, site, list.as_slice())
}

/// Tells a list as its text.
fn tell_list(alloc: Global, gullet: &Gullet, site: &mut Site, list: &[Token]) -> Result<(), Stop>
    ensures does { Does result (state_of gullet.now site.new) (list_told (list.now, state_of gullet.now site.old)) }
{
    match text_of(alloc, gullet, site, list) {
        Ok(text) => match tell_text(&mut site.out, &text, new_line(&site.env)) {
            Ok(()) => Ok(()),
            Err(_) => Err(Stop::OutOfMemory),
        },
        Err(_) => Err(Stop::OutOfMemory),
    }
}

/// Tells a text on a line of its own.
fn tell_text(printer: &mut Printer, text: &[u8], newline: i32) -> Result<(), AllocError>
    ensures ok { OnOk result (printer.new ≡ text_told text.now newline printer.old) }
{
    printer.fresh_line(Target::Both)?;
    show_bytes(printer, b"> ", newline)?;
    show_bytes(printer, text, newline)?;
    show_bytes(printer, b".", newline)?;
    printer.end_line(Target::Both)
}
