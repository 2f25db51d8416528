//! `\ignorespaces` (The TeXbook, page 279; `tex.web` 406 and 1045).
#![tactic(auto, using(asking::specs::Asked::asking), unfolding(crate::specs::Spaces::pass_space))]

ghost use Rattle.std.specs.Prelude.{◌≡◌};
ghost use Rattle.asking.specs.Did.{Does};
ghost use Rattle.asking.specs.Seen.{DoesBeside};
ghost use Rattle.save_groups.specs.Standing.{copies_of};
ghost use Rattle.gullet.specs.Meanings.{taken_meaning};
ghost use Rattle.gullet.specs.State.{state_of};
ghost use Rattle.commands.specs.Spaces.{is_space, space_by, pass_space, ignore_spaces};

use asking::Library;
use gullet::{Gullet, Site, fixed_meaning, taken_meaning};
use save_groups::Env;
use tokens::{Meaning, Stop, Token};

/// How many looks a call takes at most, as many as turns are counted.
const MOST_LOOKS: u64 = u64::MAX;

/// Passes spaces, with expansion, up to another token, which is put back as it was taken, with its step paid.
#[tactic(auto, using(crate::proofs::Passing::passing))]
pub(crate) fn ignore_spaces<L: Library>(
    gullet: &mut Gullet,
    site: &mut Site,
    library: &mut L,
) -> Result<(), Stop>
    ensures does { DoesBeside L.outside (L.seen library.old) (L.seen library.new) result (state_of gullet.new site.new)
        (ignore_spaces L.outside (state_of gullet.old site.old)) }
{
    let mut left = MOST_LOOKS;
    'looks: while left > 0 {
        left -= 1;
        match pass_space(gullet, site, library) {
            Ok(passed) => {
                if !passed {
                    return Ok(());
                }
            }
            Err(stop) => return Err(stop),
        }
    }
    Err(Stop::OutOfMemory)
}

/// Passes a space. The answer is whether there was one.
fn pass_space<L: Library>(
    gullet: &mut Gullet,
    site: &mut Site,
    library: &mut L,
) -> Result<bool, Stop>
    ensures does { DoesBeside L.outside (L.seen library.old) (L.seen library.new) result (state_of gullet.new site.new)
        (pass_space L.outside (state_of gullet.old site.old)) }
{
    match gullet.next_unexpandable(site, library) {
        Ok(next) => pass_next(gullet, site, next),
        Err(stop) => Err(stop),
    }
}

/// By what came next.
fn pass_next(gullet: &mut Gullet, site: &Site, next: Option<(Token, bool)>) -> Result<bool, Stop>
    ensures does { Does result (state_of gullet.new site.now) (space_by (next, state_of gullet.old site.now)) }
{
    match next {
        None => Ok(false),
        Some((token, noexpand)) => pass_token(gullet, site, token, noexpand),
    }
}

fn pass_token(gullet: &mut Gullet, site: &Site, token: Token, noexpand: bool) -> Result<bool, Stop>
    ensures does { Does result (state_of gullet.new site.now) (space_by (Some (token, noexpand), state_of gullet.old site.now)) }
{
    if is_space_now(&site.env, token, noexpand) {
        return Ok(true);
    }
    match gullet.back_as_taken(token, noexpand) {
        Ok(()) => Ok(false),
        Err(_) => Err(Stop::OutOfMemory),
    }
}

/// Whether a token that was taken means a space.
fn is_space_now(env: &Env, token: Token, noexpand: bool) -> bool
    ensures { result ≡ is_space (taken_meaning (copies_of env.now) token noexpand) }
{
    let fixed = fixed_meaning(env, token, noexpand);
    is_space(taken_meaning(env, &fixed, token, noexpand))
}

fn is_space(meaning: &Meaning) -> bool
    ensures { result ≡ is_space meaning.now }
{
    match meaning {
        Meaning::Char { cat, .. } => *cat == 10,
        Meaning::Undefined
        | Meaning::Primitive(_)
        | Meaning::Macro(_)
        | Meaning::CharDef(_)
        | Meaning::MathCharDef(_)
        | Meaning::Register { .. }
        | Meaning::Font(_) => false,
    }
}
