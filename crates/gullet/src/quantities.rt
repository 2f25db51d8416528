//! The values of quantities (The TeXbook, chapter 24; `tex.web` 413, 427 and 433).
#![tactic(auto, using(asking::specs::Asked::asking), unfolding(crate::specs::Acts::look_numbered, crate::specs::Acts::look_code, crate::specs::Acts::look_register, crate::specs::Acts::pass_register, crate::specs::Acts::look_parameter))]

ghost use Rattle.std.specs.Prelude.{◌≡◌, ◌≤◌, pos, min};
ghost use Rattle.asking.specs.Did.{Does};
ghost use Rattle.pending.specs.Pending.{line_number};
ghost use Rattle.tokens.specs.Codes.{catcode_code, delcode_code};
ghost use Rattle.save_groups.specs.Keys.{register_limit};
ghost use Rattle.save_groups.specs.Standing.{copies_of};
ghost use Rattle.gullet.specs.State.{state_of};
ghost use Rattle.gullet.specs.Acts.{look_numbered, look_code, register_kind, register_value, look_by, look_register, pass_register, look_parameter, parameter_of, HasRegister};

use crate::gullet::Gullet;
use crate::site::Site;
use crate::task::Told;
use save_groups::{Env, Key};
use scan_nums::{Number, Quantity};
use tokens::{Kind, RegKind, Stop, Text, codes};

/// The kind of a register by the code of `\count` and its mates.
fn register_kind(code: u16) -> RegKind
    ensures { result ≡ register_kind code }
{
    if code == codes::COUNT {
        RegKind::Count
    } else if code == codes::DIMEN {
        RegKind::Dimen
    } else if code == codes::SKIP {
        RegKind::Skip
    } else {
        RegKind::Muskip
    }
}

/// What a register holds.
fn register_value(env: &Env, code: u16, number: u16) -> Number
    requires { number ≤ register_limit (copies_of env.now).extended }
    ensures { result ≡ register_value (copies_of env.now) code number }
{
    let kind = register_kind(code);
    let key = Key::Register { kind, number };
    match kind {
        RegKind::Count => Number::Int(env.number(key)),
        RegKind::Dimen => Number::Dimen(env.number(key)),
        RegKind::Skip => Number::Glue(env.glue(key)),
        RegKind::Muskip => Number::MuGlue(env.glue(key)),
        RegKind::Box | RegKind::Toks => Number::Int(0),
    }
}

/// Whether the mode has a register of this number, and which one it is.
pub fn register_number(env: &Env, number: i32) -> Option<u16>
    ensures { HasRegister (copies_of env.now).extended number result }
{
    let limit: i32 = if env.is_extended() { 32767 } else { 255 };
    if 0 <= number && number <= limit {
        Some(number as u16)
    } else {
        None
    }
}

impl Gullet {
    /// The value of a quantity whose operands were read.
    pub(crate) fn look(&mut self, site: &mut Site, quantity: Quantity) -> Result<Told, Stop>
        ensures does { Does result (state_of self.new site.new) (look_by quantity.code quantity.index (state_of self.old site.old)) }
    {
        match quantity.index {
            None => self.look_parameter(site, quantity.code),
            Some(number) => self.look_register(site, quantity.code, i32::from(number)),
        }
    }

    /// The value of a register, or a code of a character, by the code of its name and a number.
    pub(crate) fn look_numbered(
        &mut self,
        site: &mut Site,
        code: u16,
        number: i32,
    ) -> Result<Told, Stop>
        ensures does { Does result (state_of self.new site.new) (look_numbered code number (state_of self.old site.old)) }
    {
        if codes::CATCODE <= code && code <= codes::DELCODE {
            self.look_code(site, code, number)
        } else {
            self.look_register(site, code, number)
        }
    }

    /// A code of a character. Another number than that of a character ends the run.
    fn look_code(&mut self, site: &Site, code: u16, number: i32) -> Result<Told, Stop>
        requires from { catcode_code ≤ code }
        requires to { code ≤ delcode_code }
        ensures does { Does result (state_of self.new site.now) (look_code code number (state_of self.old site.now)) }
    {
        match u8::try_from(number) {
            Ok(byte) => {
                let table = (code - codes::CATCODE) as u8;
                let key = Key::Code { table, byte };
                Ok(Told::Number(Number::Int(site.env.number(key))))
            }
            Err(_) => match format!(in self.alloc; "{number}") {
                Ok(text) => Err(Stop::Trouble(Kind::BadCharCode(Text::new(text.into_bytes())))),
                Err(_) => Err(Stop::OutOfMemory),
            },
        }
    }

    /// The value of a register. Where the mode has none of this number, that is a trouble, and 0 stands for it.
    pub(crate) fn look_register(
        &mut self,
        site: &mut Site,
        code: u16,
        number: i32,
    ) -> Result<Told, Stop>
        ensures does { Does result (state_of self.new site.new) (look_register code number (state_of self.old site.old)) }
    {
        match register_number(&site.env, number) {
            Some(place) => Ok(Told::Number(register_value(&site.env, code, place))),
            None => {
                self.pass_register(site, number)?;
                Ok(Told::Number(register_value(&site.env, code, 0)))
            }
        }
    }

    /// Passes over that a number isn't that of a register.
    pub(crate) fn pass_register(&mut self, site: &mut Site, number: i32) -> Result<(), Stop>
        ensures does { Does result (state_of self.new site.new) (pass_register number (state_of self.old site.old)) }
    {
        match format!(in self.alloc; "{number}") {
            Ok(text) => self.pass(site, Kind::BadRegister(Text::new(text.into_bytes()))),
            Err(_) => Err(Stop::OutOfMemory),
        }
    }

    /// The number of the line that is read, up to the greatest number.
    fn line_shown(&self) -> i32
        ensures { result ≡ pos (min (line_number self.now.pending) 2147483647) }
    {
        i32::try_from(self.pending.line()).unwrap_or(i32::MAX)
    }

    /// The value of an integer parameter, or the number of the line, by the code of its name.
    fn look_parameter(&mut self, site: &mut Site, code: u16) -> Result<Told, Stop>
        ensures does { Does result (state_of self.new site.new) (look_parameter code (state_of self.old site.old)) }
    {
        let value = if code == codes::INPUTLINENO {
            self.line_shown()
        } else {
            parameter_of(&site.env, code)
        };
        Ok(Told::Number(Number::Int(value)))
    }
}

/// An integer parameter by the code of its name; 0 for every other code.
fn parameter_of(env: &Env, code: u16) -> i32
    ensures { result ≡ parameter_of (copies_of env.now) code }
{
    if codes::PRETOLERANCE <= code && code <= codes::ERRORCONTEXTLINES {
        env.number(Key::Parameter((code - codes::PRETOLERANCE) as u8))
    } else {
        0
    }
}
