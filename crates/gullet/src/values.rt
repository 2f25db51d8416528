//! What `\the` shows, as a list (The TeXbook, pages 214 to 216; `tex.web` 413 to 419 and 465 to 467).
#![tactic(auto, using(asking::specs::Asked::asking), unfolding(crate::specs::ValueText::value_text))]

ghost use Rattle.std.specs.Prelude.{◌≡◌, IfOk};
ghost use Rattle.asking.specs.Did.{Does};
ghost use Rattle.asking.specs.Seen.{DoesBeside};
ghost use Rattle.save_groups.specs.Standing.{copies_of};
ghost use Rattle.gullet.specs.Meanings.{taken_meaning};
ghost use Rattle.gullet.specs.State.{state_of};
ghost use Rattle.gullet.specs.ValueText.{shown_code, shown_register, shown_of, digit_tokens, numbered_list, value_by, value_at, value_text, IsListed, IsInMemory};

use crate::acts::list_of_bytes;
use crate::context::OUTERMOST;
use crate::digits::digits;
use crate::gathering::tokens_told;
use crate::gullet::Gullet;
use crate::meanings::{fixed_meaning, is_looked_at, taken_meaning};
use crate::site::Site;
use crate::step::number_told;
use crate::task::{Numerals, Task, Told};
use asking::Library;
use save_groups::Env;
use scan_nums::{Number, Quantity};
use std::alloc::{AllocError, Global};
use tokens::{Meaning, RegKind, Stop, Token, TokenList, codes};

/// What `\the` shows of a token.
#[derive(Clone, Copy, Debug)]
pub(crate) enum Shown {
    /// The value of a quantity, whose operands may still come.
    Quantity(Quantity),
    /// The number that a name stands for.
    Given(i32),
    /// The list of the token register whose number comes next.
    NumberedList,
    /// The list of this token register.
    List(u16),
    /// The list of a token parameter, by the code of its name.
    Parameter(u16),
    /// Nothing: it may not stand there.
    Nothing,
}

impl Gullet {
    /// What `\the` would put in front where it stood here, as a list: digits as characters, or the tokens of a list.
    ///
    /// # Errors
    ///
    /// Those of `one_unexpandable`; a token that may not stand behind `\the`, and the troubles of the numbers that belong to
    /// what is shown.
    pub fn value_text<L: Library>(
        &mut self,
        site: &mut Site,
        library: &mut L,
    ) -> Result<TokenList, Stop>
        ensures does { DoesBeside L.outside (L.seen library.old) (L.seen library.new) result (state_of self.new site.new)
            (value_text L.outside (state_of self.old site.old)) }
    {
        match self.one_unexpandable(site, library) {
            Ok((token, noexpand)) => self.value_at(site, library, token, noexpand),
            Err(stop) => Err(stop),
        }
    }

    /// What is shown of a token that was taken.
    fn value_at<L: Library>(
        &mut self,
        site: &mut Site,
        library: &mut L,
        token: Token,
        noexpand: bool,
    ) -> Result<TokenList, Stop>
        ensures does { DoesBeside L.outside (L.seen library.old) (L.seen library.new) result (state_of self.new site.new)
            (value_at L.outside ((token, noexpand), state_of self.old site.old)) }
    {
        let shown = shown_at(&site.env, token, noexpand);
        self.value_by(site, library, token, shown)
    }

    /// One line for each kind of what is shown.
    fn value_by<L: Library>(
        &mut self,
        site: &mut Site,
        library: &mut L,
        token: Token,
        shown: Shown,
    ) -> Result<TokenList, Stop>
        ensures does { DoesBeside L.outside (L.seen library.old) (L.seen library.new) result (state_of self.new site.new)
            (value_by L.outside token shown (state_of self.old site.old)) }
    {
        match shown {
            Shown::Quantity(quantity) => self.quantity_list(site, library, quantity),
            Shown::Given(number) => in_memory(digit_tokens(self.alloc, Number::Int(number))),
            Shown::NumberedList => self.next_list(site, library),
            Shown::List(place) => self.numbered_list(site, Number::Int(i32::from(place))),
            Shown::Parameter(code) => listed(self.tell_parameter(site, code)),
            Shown::Nothing => listed(self.cant_use(site, token)),
        }
    }

    /// The digits of a quantity.
    fn quantity_list<L: Library>(
        &mut self,
        site: &mut Site,
        library: &mut L,
        quantity: Quantity,
    ) -> Result<TokenList, Stop>
        ensures does { DoesBeside L.outside (L.seen library.old) (L.seen library.new) result (state_of self.new site.new)
            (value_by L.outside (Token.Frozen 0) (Shown.Quantity quantity) (state_of self.old site.old)) }
    {
        match self.read(site, library, OUTERMOST, Task::QuantityValue(quantity)) {
            Ok(told) => in_memory(digit_tokens(self.alloc, number_told(&told))),
            Err(stop) => Err(stop),
        }
    }

    /// The list of the token register whose number comes next.
    fn next_list<L: Library>(&mut self, site: &mut Site, library: &mut L) -> Result<TokenList, Stop>
        ensures does { DoesBeside L.outside (L.seen library.old) (L.seen library.new) result (state_of self.new site.new)
            (value_by L.outside (Token.Frozen 0) Shown.NumberedList (state_of self.old site.old)) }
    {
        match self.read(site, library, OUTERMOST, Task::WholeNumber) {
            Ok(told) => self.numbered_list(site, number_told(&told)),
            Err(stop) => Err(stop),
        }
    }

    /// The list of a token register.
    fn numbered_list(&mut self, site: &mut Site, number: Number) -> Result<TokenList, Stop>
        ensures does { Does result (state_of self.new site.new) (numbered_list number (state_of self.old site.old)) }
    {
        listed(self.tell_register(site, number.first()))
    }
}

/// What is shown of a token that was taken.
fn shown_at(env: &Env, token: Token, noexpand: bool) -> Shown
    ensures { result ≡ shown_of (taken_meaning (copies_of env.now) token noexpand) }
{
    let fixed = fixed_meaning(env, token, noexpand);
    shown_of(taken_meaning(env, &fixed, token, noexpand))
}

/// What is shown of a token that means this.
fn shown_of(meaning: &Meaning) -> Shown
    ensures { result ≡ shown_of meaning.now }
{
    match meaning {
        Meaning::Primitive(code) => shown_code(*code),
        Meaning::CharDef(byte) => Shown::Given(i32::from(*byte)),
        Meaning::MathCharDef(number) => Shown::Given(i32::from(*number)),
        Meaning::Register { kind, number } => shown_register(*kind, *number),
        Meaning::Undefined | Meaning::Macro(_) | Meaning::Char { .. } | Meaning::Font(_) =>
            Shown::Nothing,
    }
}

fn shown_code(code: u16) -> Shown
    ensures { result ≡ shown_code code }
{
    if is_looked_at(code) {
        Shown::Quantity(Quantity { code, index: None })
    } else if code == codes::TOKS {
        Shown::NumberedList
    } else if codes::OUTPUT <= code && code <= codes::ERRHELP {
        Shown::Parameter(code)
    } else {
        Shown::Nothing
    }
}

fn shown_register(kind: RegKind, place: u16) -> Shown
    ensures { result ≡ shown_register kind place }
{
    match kind {
        RegKind::Count => numbered(codes::COUNT, place),
        RegKind::Dimen => numbered(codes::DIMEN, place),
        RegKind::Skip => numbered(codes::SKIP, place),
        RegKind::Muskip => numbered(codes::MUSKIP, place),
        RegKind::Box => Shown::Nothing,
        RegKind::Toks => Shown::List(place),
    }
}

/// The value of a register of numbers or glue.
fn numbered(code: u16, place: u16) -> Shown
    ensures { result ≡ Shown.Quantity (record { code = code; index = Some place }) }
{
    Shown::Quantity(Quantity {
        code,
        index: Some(place),
    })
}

/// The digits of a number, as tokens.
fn digit_tokens(alloc: Global, number: Number) -> Result<TokenList, AllocError>
    ensures { IfOk result (λ list. list ≡ digit_tokens number) }
{
    let text = digits(alloc, Numerals::Decimal, number)?;
    list_of_bytes(alloc, &text)
}

/// A list for which there was memory.
fn in_memory(list: Result<TokenList, AllocError>) -> Result<TokenList, Stop>
    ensures { IsInMemory list result }
{
    match list {
        Ok(list) => Ok(list),
        Err(_) => Err(Stop::OutOfMemory),
    }
}

/// The list that was told.
fn listed(told: Result<Told, Stop>) -> Result<TokenList, Stop>
    ensures { IsListed told result }
{
    match told {
        Ok(told) => Ok(tokens_told(told)),
        Err(stop) => Err(stop),
    }
}
