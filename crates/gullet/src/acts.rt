//! What is done for phrases (The TeXbook, chapter 20; `tex.web`, parts 25 to 29).
#![tactic(auto, using(asking::specs::Asked::asking), unfolding(crate::specs::Acts::perform, crate::specs::Acts::make_name))]

ghost use Rattle.std.specs.Prelude.{◌≡◌, ◌<◌, map, OnOk, IfOk};
ghost use Rattle.asking.specs.Did.{Does};
ghost use Rattle.asking.specs.Seen.{DoesBeside, DoesBesideBy};
ghost use Rattle.tokens.specs.Codes.{relax_code};
ghost use Rattle.tokens.specs.Names.{interned};
ghost use Rattle.save_groups.specs.Assignment.{assigned};
ghost use Rattle.save_groups.specs.Standing.{copies_of};
ghost use Rattle.gullet.specs.State.{state_of};
ghost use Rattle.gullet.specs.Acts.{perform, passing, told_done, with_token, with_some, with_bytes, digits, with_digits, with_text, with_name, with_meaning, is_undefined, make_name, other, IsDone};

use crate::digits::digits;
use crate::gullet::Gullet;
use crate::raw::is_marked;
use crate::simple::mode_holds;
use crate::site::Site;
use crate::task::{Act, Numerals, Told};
use asking::Library;
use save_groups::{Env, Key, Scope, Value};
use scan_nums::Number;
use std::alloc::{AllocError, Global};
use std::marker::Brand;
use std::sync::ledger::{Blank, Ledger};
use steps::Steps;
use tokens::{Cap, Kind, Meaning, NameId, Stop, Token, TokenList, codes};

impl Gullet {
    /// Does what a phrase wants to be done.
    pub(crate) fn perform<L: Library>(
        &mut self,
        site: &mut Site,
        library: &mut L,
        act: Act,
    ) -> Result<Told, Stop>
        ensures does { DoesBeside L.outside (L.seen library.old) (L.seen library.new) result (state_of self.new site.new)
            (perform L.outside act (state_of self.old site.old)) }
    {
        match act {
            Act::Return(token) => done(self.put_back(site, token)),
            Act::InsertRelax(token) => done(self.insert_relax(site, token)),
            Act::Pass { kind, back } => self.pass_and_return(site, kind, back),
            Act::PassUndefined(token) => {
                self.pass_undefined(site, token)?;
                Ok(Told::Done)
            }
            Act::Look(quantity) => self.look(site, quantity),
            Act::LookNumbered { code, number } => self.look_numbered(site, code, number.first()),
            Act::PutRegister(number) => self.put_register(site, number.first()),
            Act::PutParameter(code) => done(self.put_parameter(site, code)),
            Act::TellRegister(number) => self.tell_register(site, number.first()),
            Act::TellParameter(code) => self.tell_parameter(site, code),
            Act::CantUse(token) => self.cant_use(site, token),
            Act::Digits { numerals, number } => self.push_digits(site, numerals, number),
            Act::Text { body, arguments } => done(self.push_text(
                site,
                body,
                arguments.into_lists(),
            )),
            Act::Refuse { name, refusal } => self.refuse(site, name, refusal),
            Act::Full => Err(Stop::Capacity(Cap::Items)),
            Act::Open(kind) => self.open_condition(site, kind),
            Act::Choose(level) => {
                self.choose(site, level);
                Ok(Told::Done)
            }
            Act::Leave { word, level } => self.leave(site, word, level),
            Act::Close => {
                self.close(site);
                Ok(Told::Done)
            }
            Act::Meet { token, word } => self.meet(site, token, word),
            Act::MakeName(text) => self.make_name(site, text.bytes()),
            Act::ReadFile(name) => self.read_file(site, library, name.bytes()),
            Act::AskMode(asked) => Ok(Told::Holds(mode_holds(asked, &site.facts))),
            Act::AskMarked(token) => Ok(Told::Holds(is_marked(&site.env, token, true))),
            Act::AskSame => self.compare_meanings(site),
            Act::Simple(simple) => self.simply(site, simple),
        }
    }
}

/// The category of characters that are neither letters nor special.
const OTHER: u8 = 12;

/// The category of spaces.
const SPACE: u8 = 10;

/// A character of a text that expansion makes.
fn other(byte: &u8) -> Token
    ensures { result ≡ other byte.now }
{
    let cat = if *byte == b' ' { SPACE } else { OTHER };
    Token::Char { cat, byte: *byte }
}

/// The characters of a text that expansion makes: spaces, and all others of category 12.
fn others(alloc: Global, text: &[u8]) -> Result<Vec<Token>, AllocError>
    ensures { IfOk result (λ tokens. tokens.items ≡ map other text.now) }
{
    text.iter().map(other).collect(alloc)
}

/// The list of some tokens. So few can't be too many.
pub fn list_from(alloc: Global, tokens: &[Token]) -> Result<TokenList, AllocError>
    ensures { IfOk result (λ list. list ≡ tokens.now) }
{
    match TokenList::from_slice(alloc, tokens) {
        Ok(list) => Ok(list),
        Err(_) => Err(AllocError),
    }
}

/// The list of the characters of a text that expansion makes.
pub fn list_of_bytes(alloc: Global, text: &[u8]) -> Result<TokenList, AllocError>
    ensures { IfOk result (λ list. list ≡ map other text.now) }
{
    let tokens = others(alloc, text)?;
    list_from(alloc, &tokens)
}

/// What tells nothing but that it was done.
pub fn done(pushed: Result<(), AllocError>) -> Result<Told, Stop>
    ensures { IsDone pushed result }
{
    match pushed {
        Ok(()) => Ok(Told::Done),
        Err(_) => Err(Stop::OutOfMemory),
    }
}

impl Gullet {
    /// Puts a token back, whose step is paid.
    pub(crate) fn put_back(&mut self, site: &Site, token: Token) -> Result<(), AllocError>
        ensures ok { OnOk result (state_of self.new site.now ≡ with_token token (state_of self.old site.now)) }
    {
        self.pending.back(token, false, true)
    }

    /// Puts a token back, if there is one.
    pub(crate) fn put_back_some(
        &mut self,
        site: &Site,
        back: Option<Token>,
    ) -> Result<(), AllocError>
        ensures ok { OnOk result (state_of self.new site.now ≡ with_some back (state_of self.old site.now)) }
    {
        match back {
            None => Ok(()),
            Some(token) => self.put_back(site, token),
        }
    }

    /// Passes a trouble over, and then puts a token back.
    fn pass_and_return(
        &mut self,
        site: &mut Site,
        kind: Kind,
        back: Option<Token>,
    ) -> Result<Told, Stop>
        ensures does { Does result (state_of self.new site.new) (passing kind back (state_of self.old site.old)) }
    {
        self.pass(site, kind)?;
        match self.put_back_some(site, back) {
            Ok(()) => Ok(Told::Done),
            Err(_) => Err(Stop::OutOfMemory),
        }
    }

    /// Puts a macro's text in front.
    pub(crate) fn push_text(
        &mut self,
        site: &Site,
        body: TokenList,
        arguments: Vec<TokenList>,
    ) -> Result<(), AllocError>
        ensures ok { OnOk result (state_of self.new site.now ≡ with_text body arguments.items (state_of self.old site.now)) }
    {
        self.pending.push_macro(body, arguments)
    }

    /// Puts a text in front, as new tokens.
    pub(crate) fn push_bytes(&mut self, site: &Site, text: &[u8]) -> Result<(), AllocError>
        ensures ok { OnOk result (state_of self.new site.now ≡ with_bytes text.now (state_of self.old site.now)) }
    {
        let list = list_of_bytes(self.alloc, text)?;
        self.pending.push_list(list)
    }

    /// Puts the digits of a number in front.
    fn push_digits(&mut self, site: &Site, numerals: Numerals, number: Number) -> Result<Told, Stop>
        ensures does { Does result (state_of self.new site.now) (told_done (with_digits numerals number (state_of self.old site.now))) }
    {
        match digits(self.alloc, numerals, number) {
            Ok(text) => done(self.push_bytes(site, &text)),
            Err(_) => Err(Stop::OutOfMemory),
        }
    }

    /// A name without meaning becomes `\relax` in this group; the name is put in front.
    fn make_name(&mut self, site: &mut Site, text: &[u8]) -> Result<Told, Stop>
        ensures does { Does result (state_of self.new site.new) (make_name text.now (state_of self.old site.old)) }
    {
        match self.put_name(site, text) {
            Ok(()) => Ok(Told::Done),
            Err(_) => Err(Stop::OutOfMemory),
        }
    }

    fn put_name(&mut self, site: &mut Site, text: &[u8]) -> Result<(), AllocError>
        ensures ok { OnOk result (state_of self.new site.new ≡ with_name (interned site.old.names text.now) (state_of self.old site.old)) }
    {
        let id = site.names.intern(text)?;
        give_meaning(&mut site.env, id)?;
        self.pending.back(Token::Name(id), false, false)
    }
}

/// A name without meaning becomes `\relax` in this group.
fn give_meaning(env: &mut Env, id: NameId) -> Result<(), AllocError>
    ensures ok { OnOk result (copies_of env.new ≡ with_meaning (Key.Name id) (copies_of env.old)) }
{
    if is_undefined(env.meaning(Key::Name(id))) {
        assign_relax(env, id)
    } else {
        Ok(())
    }
}

/// The name becomes `\relax` in this group.
#[tactic(auto)]
fn assign_relax(env: &mut Env, id: NameId) -> Result<(), AllocError>
    ensures ok { OnOk result (copies_of env.new ≡ assigned (Key.Name id) (Value.Meaning (Meaning.Primitive relax_code)) Scope.Local (copies_of env.old)) }
{
    counted::<Brand>(env, id, Blank::new(1))
}

/// Whether a meaning is none.
fn is_undefined(meaning: &Meaning) -> bool
    ensures { result ≡ is_undefined (Value.Meaning meaning.now) }
{
    match meaning {
        Meaning::Undefined => true,
        Meaning::Primitive(_)
        | Meaning::Macro(_)
        | Meaning::Char { .. }
        | Meaning::CharDef(_)
        | Meaning::MathCharDef(_)
        | Meaning::Register { .. }
        | Meaning::Font(_) => false,
    }
}

/// The assignment, with a count of its own.
fn counted<L: Ledger>(env: &mut Env, id: NameId, blank: Blank) -> Result<(), AllocError>
    requires name { blank.name ≡ L.name }
    requires parts { blank.parts ≡ L.parts }
    requires some { 0 < L.parts }
    ensures ok { OnOk result (copies_of env.new ≡ assigned (Key.Name id) (Value.Meaning (Meaning.Primitive relax_code)) Scope.Local (copies_of env.old)) }
{
    let mut steps: Steps<L> = Steps::new(blank);
    env.assign(
        Key::Name(id),
        Value::Meaning(Meaning::Primitive(codes::RELAX)),
        Scope::Local,
        &mut steps,
    )
}
