//! What TeX's rules say of groups, on values by hand (The TeXbook, chapters 20 and 24, and appendix B; the e-TeX
//! manual, on assignments that change nothing).
ghost use Rattle.std.specs.Prelude.{◌≡◌, ◌<◌, Bool, false, IsTrue};
ghost use Rattle.save_groups.specs.Keys.{is_key, holds_number, holds_glue, holds_tokens, holds_meaning};
ghost use Rattle.save_groups.specs.Values.{fits, is_in_mode};

use crate::{Env, Key, Left, Scope, Value};
use scaled::Glue;
use std::alloc::{AllocError, Global};
use std::sync::ledger::{Blank, Ledger};
use std::test::Fail;
use steps::Steps;
use tokens::{Meaning, NameId, RegKind, Stop, Token, TokenList};

mod boxes;
mod content;
mod entries;
mod field;
mod nesting;
mod same_values;
mod scopes;
mod script;
mod start;

/// A kind of group, that of `\begingroup`.
const SEMI_SIMPLE: u8 = 14;

const COUNT: Key = Key::Register {
    kind: RegKind::Count,
    number: 1,
};

/// An environment, and the count that its calls take.
#[derive(Drop)]
struct Groups<L: Ledger> {
    env: Env,
    steps: Steps<L>,
}

impl<L: Ledger> Groups<L> {
    fn new(alloc: Global, extended: bool, blank: Blank) -> Result<Groups<L>, AllocError>
        requires name { blank.name ≡ L.name }
        requires parts { blank.parts ≡ L.parts }
        requires some { 0 < L.parts }
    {
        Ok(Groups {
            env: Env::new(alloc, extended)?,
            steps: Steps::new(blank),
        })
    }

    fn begin(&mut self) -> Result<(), Stop> {
        self.env.enter(SEMI_SIMPLE, 0)
    }

    /// Ends the innermost group, if there is one.
    fn leave(&mut self) -> Option<Left> {
        if self.env.level() == 1 {
            return None;
        }
        Some(self.env.leave(&mut self.steps))
    }

    /// Ends the innermost group.
    fn end(&mut self) -> Result<(), Fail> {
        self.leave().ok_or("no group")?;
        Ok(())
    }

    /// Lets a token wait for the end of the innermost group.
    fn wait(&mut self, token: Token) -> Result<(), Fail> {
        if self.env.level() == 1 {
            return Err("no group".into());
        }
        self.env.after_group(token)?;
        Ok(())
    }

    /// Assigns to an entry that both modes have.
    fn set(&mut self, key: Key, value: Value, scope: Scope) -> Result<(), AllocError>
        requires key { IsTrue (is_key false key) }
        requires kind { IsTrue (fits key value) }
        requires mode { (extended : Bool) → IsTrue (is_in_mode extended value) }
    {
        self.env.assign(key, value, scope, &mut self.steps)
    }
}

/// A number of an entry that both modes have.
fn number(env: &Env, key: Key) -> i32
    requires key { IsTrue (is_key false key) }
    requires kind { IsTrue (holds_number key) }
{
    env.number(key)
}

fn glue(env: &Env, key: Key) -> Glue
    requires key { IsTrue (is_key false key) }
    requires kind { IsTrue (holds_glue key) }
{
    env.glue(key)
}

fn list(env: &Env, key: Key) -> &TokenList
    requires key { IsTrue (is_key false key) }
    requires kind { IsTrue (holds_tokens key) }
{
    env.toks(key)
}

/// Whether this is the meaning of an entry that both modes have.
fn means(env: &Env, key: Key, wanted: &Meaning) -> bool
    requires key { IsTrue (is_key false key) }
    requires kind { IsTrue (holds_meaning key) }
{
    env.meaning(key).is_same(wanted)
}

/// A name.
fn name(id: u64) -> Key
    ensures key { IsTrue (is_key false result) }
    ensures kind { IsTrue (holds_meaning result) }
{
    Key::Name(NameId(id))
}
