//! Lists of tokens that `\the` puts in front as they stand (The TeXbook, page 215; `tex.web` 415, 428 and 465).
#![tactic(auto, using(asking::specs::Asked::asking), unfolding(crate::specs::Acts::put_register, crate::specs::Acts::tell_register, crate::specs::Acts::tell_parameter, crate::specs::Acts::cant_use))]

ghost use Rattle.std.specs.Prelude.{◌≡◌, ◌≤◌, OnOk, IfOk};
ghost use Rattle.asking.specs.Did.{Does};
ghost use Rattle.save_groups.specs.Keys.{register_limit};
ghost use Rattle.save_groups.specs.Standing.{copies_of};
ghost use Rattle.gullet.specs.Acts.{put_register, tell_register, tell_parameter, with_held, with_parameter_list, list_at, parameter_list, cant_use, TellsList};
ghost use Rattle.gullet.specs.State.{state_of};

use crate::acts::done;
use crate::gullet::Gullet;
use crate::parameters::escape;
use crate::quantities::register_number;
use crate::site::Site;
use crate::task::Told;
use save_groups::{Env, Key};
use std::alloc::AllocError;
use tokens::{Kind, RegKind, Stop, Text, Token, TokenList, codes, token_shown};

impl Gullet {
    /// Puts the list of a token register in front. Where the mode has none of this number, that is a trouble, and 0
    /// stands for it.
    pub(crate) fn put_register(&mut self, site: &mut Site, number: i32) -> Result<Told, Stop>
        ensures does { Does result (state_of self.new site.new) (put_register number (state_of self.old site.old)) }
    {
        match register_number(&site.env, number) {
            Some(place) => done(self.push_register(site, place)),
            None => {
                self.pass_register(site, number)?;
                done(self.push_register(site, 0))
            }
        }
    }

    fn push_register(&mut self, site: &Site, number: u16) -> Result<(), AllocError>
        requires { number ≤ register_limit (copies_of site.now.env).extended }
        ensures ok { OnOk result (state_of self.new site.now ≡ with_held (Key.Register RegKind.Toks number) (state_of self.old site.now)) }
    {
        let list = site
            .env
            .toks(Key::Register {
                kind: RegKind::Toks,
                number,
            })
            .share()?;
        self.pending.push_list(list)
    }

    /// Puts the list of a token parameter in front.
    pub(crate) fn put_parameter(&mut self, site: &Site, code: u16) -> Result<(), AllocError>
        ensures ok { OnOk result (state_of self.new site.now ≡ with_parameter_list code (state_of self.old site.now)) }
    {
        if codes::OUTPUT <= code && code <= codes::ERRHELP {
            let place = (code - codes::PRETOLERANCE) as u8;
            let list = site.env.toks(Key::Parameter(place)).share()?;
            self.pending.push_list(list)
        } else {
            Ok(())
        }
    }

    /// Tells the list of a token register. Where the mode has none of this number, that is a trouble, and 0 stands for it.
    pub(crate) fn tell_register(&mut self, site: &mut Site, number: i32) -> Result<Told, Stop>
        ensures does { Does result (state_of self.new site.new) (tell_register number (state_of self.old site.old)) }
    {
        match register_number(&site.env, number) {
            Some(place) => tokens(register_list(&site.env, place)),
            None => {
                self.pass_register(site, number)?;
                tokens(register_list(&site.env, 0))
            }
        }
    }

    /// Tells the list of a token parameter.
    pub(crate) fn tell_parameter(&mut self, site: &Site, code: u16) -> Result<Told, Stop>
        ensures does { Does result (state_of self.new site.now) (tell_parameter code (state_of self.old site.now)) }
    {
        tokens(parameter_list(&site.env, code))
    }

    /// The end of the run at a token that may not stand behind `\the`.
    pub(crate) fn cant_use(&mut self, site: &Site, token: Token) -> Result<Told, Stop>
        ensures does { Does result (state_of self.new site.now) (cant_use token (state_of self.old site.now)) }
    {
        let escape = escape(&site.env);
        match token_shown(self.alloc, token, &site.names, escape) {
            Ok(text) => Err(Stop::Trouble(Kind::CantUse(Text::new(text)))),
            Err(_) => Err(Stop::OutOfMemory),
        }
    }
}

/// The list of a token register.
fn register_list(env: &Env, number: u16) -> Result<TokenList, AllocError>
    requires { number ≤ register_limit (copies_of env.now).extended }
    ensures { IfOk result (λ list. list ≡ list_at (copies_of env.now) (Key.Register RegKind.Toks number)) }
{
    env.toks(Key::Register {
        kind: RegKind::Toks,
        number,
    })
    .share()
}

/// The list of a token parameter, by the code of its name; no other code is one.
fn parameter_list(env: &Env, code: u16) -> Result<TokenList, AllocError>
    ensures { IfOk result (λ list. list ≡ parameter_list (copies_of env.now) code) }
{
    if codes::OUTPUT <= code && code <= codes::ERRHELP {
        let place = (code - codes::PRETOLERANCE) as u8;
        env.toks(Key::Parameter(place)).share()
    } else {
        Ok(TokenList::empty())
    }
}

/// A list is told.
fn tokens(list: Result<TokenList, AllocError>) -> Result<Told, Stop>
    ensures { TellsList list result }
{
    match list {
        Ok(list) => Ok(Told::Tokens(list)),
        Err(_) => Err(Stop::OutOfMemory),
    }
}
