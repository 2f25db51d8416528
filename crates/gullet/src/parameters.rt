//! What is read off the environment that is in force while tokens are taken and texts are printed.
#![tactic(auto, unfolding(crate::specs::Parameters::categories))]

ghost use Rattle.std.specs.Prelude.{◌≡◌, ◌<◌, ℕ};
ghost use Rattle.tokens.specs.Parameters.{endlinechar_place, newlinechar_place, escapechar_place};
ghost use Rattle.save_groups.specs.Standing.{copies_of};
ghost use Rattle.gullet.specs.Parameters.{parameter, end_line, new_line, escape, categories};

use save_groups::{Env, Key};
use tokens::CatTable;

/// The places of parameters among all of them.
const END_LINE_PLACE: u8 = 48;

const NEW_LINE_PLACE: u8 = 49;

const ESCAPE_PLACE: u8 = 45;

/// An integer parameter by its place.
fn parameter(env: &Env, place: u8) -> i32
    requires { place < 55 }
    ensures { result ≡ parameter (copies_of env.now) place }
{
    env.number(Key::Parameter(place))
}

/// `\endlinechar`.
pub fn end_line(env: &Env) -> i32
    ensures { result ≡ end_line (copies_of env.now) }
{
    parameter(env, END_LINE_PLACE)
}

/// `\newlinechar`.
pub fn new_line(env: &Env) -> i32
    ensures { result ≡ new_line (copies_of env.now) }
{
    parameter(env, NEW_LINE_PLACE)
}

/// `\escapechar`.
pub fn escape(env: &Env) -> i32
    ensures { result ≡ escape (copies_of env.now) }
{
    parameter(env, ESCAPE_PLACE)
}

/// The categories of all bytes.
pub fn categories(env: &Env) -> &CatTable
    ensures { result.now ≡ categories (copies_of env.now) }
{
    let cats = env.cats();
    let _ = cats.get(0);
    cats
}
