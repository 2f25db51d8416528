//! `\message` and `\errmessage` (The TeXbook, page 279; `tex.web` 1279 to 1283).
#![tactic(auto, using(asking::specs::Asked::asking), unfolding(crate::specs::Messages::message, crate::specs::Messages::error_message))]

ghost use Rattle.std.specs.Prelude.{◌≡◌, IfOk, OnOk};
ghost use Rattle.asking.specs.Did.{Does};
ghost use Rattle.asking.specs.Seen.{DoesBeside};
ghost use Rattle.gullet.specs.State.{state_of};
ghost use Rattle.commands.specs.Messages.{text_of, with_message, show_message, message, raise, error_message};

use asking::Library;
use gullet::{Gullet, Site, categories, escape, make_gap, new_line, show};
use std::alloc::{AllocError, Global};
use tokens::{Kind, Stop, Text, Token, tokens_text};

/// `\message`, behind its token.
pub(crate) fn message<L: Library>(
    alloc: Global,
    gullet: &mut Gullet,
    site: &mut Site,
    library: &mut L,
) -> Result<(), Stop>
    ensures does { DoesBeside L.outside (L.seen library.old) (L.seen library.new) result (state_of gullet.new site.new)
        (message L.outside (state_of gullet.old site.old)) }
{
    let list = gullet.expanded_text(site, library)?;
    show_message(alloc, gullet, site, list.as_slice())
}

/// Shows a text, with room in front of it.
fn show_message(alloc: Global, gullet: &Gullet, site: &mut Site, list: &[Token]) -> Result<(), Stop>
    ensures does { Does result (state_of gullet.now site.new) (show_message (list.now, state_of gullet.now site.old)) }
{
    match text_of(alloc, gullet, site, list) {
        Ok(text) => match show_text(gullet, site, &text) {
            Ok(()) => Ok(()),
            Err(_) => Err(Stop::OutOfMemory),
        },
        Err(_) => Err(Stop::OutOfMemory),
    }
}

fn show_text(gullet: &Gullet, site: &mut Site, text: &[u8]) -> Result<(), AllocError>
    ensures ok { OnOk result (state_of gullet.now site.new ≡ with_message text.now (state_of gullet.now site.old)) }
{
    let newline = new_line(&site.env);
    make_gap(&mut site.out, text.len(), newline)?;
    show(&mut site.out, text, newline)
}

/// A list as bytes, with the names, categories and the escape character of now.
pub(crate) fn text_of(
    alloc: Global,
    _gullet: &Gullet,
    site: &Site,
    list: &[Token],
) -> Result<Vec<u8>, AllocError>
    ensures { IfOk result (λ text. text.items ≡ text_of list.now (state_of _gullet.now site.now)) }
{
    tokens_text(
        alloc,
        list,
        &site.names,
        categories(&site.env),
        escape(&site.env),
    )
}

/// `\errmessage`, behind its token: the document's own trouble ends the run.
pub(crate) fn error_message<L: Library>(
    alloc: Global,
    gullet: &mut Gullet,
    site: &mut Site,
    library: &mut L,
) -> Result<(), Stop>
    ensures does { DoesBeside L.outside (L.seen library.old) (L.seen library.new) result (state_of gullet.new site.new)
        (error_message L.outside (state_of gullet.old site.old)) }
{
    let list = gullet.expanded_text(site, library)?;
    raise(alloc, gullet, site, list.as_slice())
}

/// Ends the run in a trouble that is this text.
fn raise(alloc: Global, gullet: &Gullet, site: &Site, list: &[Token]) -> Result<(), Stop>
    ensures does { Does result (state_of gullet.now site.now) (raise (list.now, state_of gullet.now site.now)) }
{
    match text_of(alloc, gullet, site, list) {
        Ok(text) => Err(Stop::Trouble(Kind::UserMessage(Text::new(text)))),
        Err(_) => Err(Stop::OutOfMemory),
    }
}
