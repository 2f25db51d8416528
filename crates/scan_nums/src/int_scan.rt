//! The automaton that reads a whole number (The TeXbook, chapter 24: number; `tex.web` 440 to 446).
ghost use Rattle.std.specs.Prelude.{◌≡◌, List, [], ◌∷◌, ◌++◌, ◌&&◌, false};
ghost use Rattle.scan_nums.specs.Awaited.{awaited_after, NextToken, Answer, Resumption, Nothing, WhileOpen};
ghost use Rattle.scan_nums.specs.Constants.{is_leading, character, rest_of_constant, optional_space};
ghost use Rattle.scan_nums.specs.IntStanding.{is_at_signs, is_at_character, state_awaits, state_rest, StateSteps, grown_state, grown_verdict};
ghost use Rattle.scan_nums.specs.Number.{IsNegatable, IsAboveLowest};
ghost use Rattle.scan_nums.specs.Starts.{start_of};
ghost use Rattle.scan_nums.specs.Taken.{Taken, Seen, Told, Resumed};
ghost use Rattle.scan_nums.specs.WholeNumber.{whole_number, wants_character, is_accent, signed_number, constant_end, whole_of, with_sign};

use crate::constant::{Constant, GREATEST, Radix, TOO_BIG};
use crate::number::Number;
use crate::start::Start;
use crate::verdict::{Phrase, Verdict};
use crate::{constant, start};
use tokens::{Kind, Meaning, Token};

/// How far a whole number was read.
#[derive(Clone, Copy)]
pub enum IntState {
    /// Nothing but signs and spaces.
    Signs { negative: bool },
    /// The mark of a character constant.
    Character { negative: bool },
    /// Digits, or their mark.
    Digits { negative: bool, constant: Constant },
    /// A character constant, behind which a space may stand.
    Space { number: i32 },
    /// A quantity whose value was asked for.
    Asked { negative: bool },
    /// Digits that passed the bound just now.
    TooBig { negative: bool, radix: Radix },
    /// A token where a number should stand.
    Missing,
    Ended,
}

/// A reader of one whole number, for which it takes no memory. The number is `Number::Int`.
#[derive(Clone, Copy)]
pub struct IntScan {
    state: IntState,
}

impl IntScan {
    ghost use Rattle.scan_nums.specs.IntScan.{awaits, Stands};

    /// A reader to which nothing was handed.
    pub fn new() -> IntScan
        ensures next { awaits result ≡ NextToken }
        ensures stands { Stands result [] }
    {
        IntScan {
            state: IntState::Signs { negative: false },
        }
    }

    /// Whether the next token is that of a character constant, which is taken without expansion. A name of
    /// one byte is handed in as a character of category 12.
    pub fn wants_character(&self) -> bool
        ensures { (taken : List Taken) → Stands self.now taken → result ≡ wants_character taken }
    {
        is_character(self.state)
    }

    /// Takes the next token, expanded, with its meaning.
    pub fn take(&mut self, token: Token, meaning: &Meaning) -> Verdict
        requires { awaits self.old ≡ NextToken }
        ensures next { awaits self.new ≡ awaited_after result }
        ensures verdict { (taken : List Taken) → Stands self.old taken → result ≡ whole_number (taken ++ Seen token meaning.now ∷ []) }
        ensures kept { (taken : List Taken) → Stands self.old taken → WhileOpen result (Stands self.new (taken ++ Seen token meaning.now ∷ [])) }
    {
        let (state, verdict) = take_token(self.state, token, meaning);
        self.state = state;
        verdict
    }

    /// Takes the value that was asked for.
    pub fn answer(&mut self, n: Number) -> Verdict
        requires asked { awaits self.old ≡ Answer }
        requires negatable { IsNegatable n }
        ensures next { awaits self.new ≡ awaited_after result }
        ensures verdict { (taken : List Taken) → Stands self.old taken → result ≡ whole_number (taken ++ Told n ∷ []) }
        ensures kept { (taken : List Taken) → Stands self.old taken → WhileOpen result (Stands self.new (taken ++ Told n ∷ [])) }
    {
        let (state, verdict) = take_value(self.state, n);
        self.state = state;
        verdict
    }

    /// Goes on behind a trouble that was passed over.
    pub fn resume(&mut self) -> Verdict
        requires { awaits self.old ≡ Resumption }
        ensures next { awaits self.new ≡ awaited_after result }
        ensures verdict { (taken : List Taken) → Stands self.old taken → result ≡ whole_number (taken ++ Resumed ∷ []) }
        ensures kept { (taken : List Taken) → Stands self.old taken → WhileOpen result (Stands self.new (taken ++ Resumed ∷ [])) }
    {
        let (state, verdict) = go_on(self.state);
        self.state = state;
        verdict
    }
}

fn is_character(state: IntState) -> bool
    ensures { result ≡ is_at_character state }
{
    match state {
        IntState::Character { .. } => true,
        IntState::Signs { .. }
        | IntState::Digits { .. }
        | IntState::Space { .. }
        | IntState::Asked { .. }
        | IntState::TooBig { .. }
        | IntState::Missing
        | IntState::Ended => false,
    }
}

fn take_token(state: IntState, token: Token, meaning: &Meaning) -> (IntState, Verdict)
    requires { state_awaits state ≡ NextToken }
    ensures next { state_awaits result.0 ≡ awaited_after result.1 }
    ensures verdict { result.1 ≡ state_rest state (Seen token meaning.now) [] }
    ensures kept { WhileOpen result.1 (StateSteps state (Seen token meaning.now) result.0) }
    ensures signs { is_at_signs result.0 ≡ (is_at_signs state && is_leading (Seen token meaning.now)) }
    ensures character { is_at_character result.0 ≡ (is_at_signs state && is_accent (Seen token meaning.now)) }
{
    match state {
        IntState::Signs { negative } => begin(
            negative,
            start::start_of(token, meaning),
            token,
            meaning,
        ),
        IntState::Character { negative } => take_character(negative, token, meaning),
        IntState::Digits { negative, constant } => take_digit(negative, constant, token, meaning),
        IntState::Space { number } => end_by(number, token, meaning),
        IntState::Asked { .. } | IntState::TooBig { .. } | IntState::Missing | IntState::Ended =>
            unreachable!(),
    }
}

// The token behind signs and spaces.
fn begin(negative: bool, start: Start, token: Token, meaning: &Meaning) -> (IntState, Verdict)
    requires { start ≡ start_of token meaning.now }
    ensures next { state_awaits result.0 ≡ awaited_after result.1 }
    ensures verdict { result.1 ≡ signed_number negative (Seen token meaning.now ∷ []) }
    ensures kept { WhileOpen result.1 (StateSteps (IntState.Signs negative) (Seen token meaning.now) result.0) }
    ensures signs { is_at_signs result.0 ≡ is_leading (Seen token meaning.now) }
    ensures character { is_at_character result.0 ≡ is_accent (Seen token meaning.now) }
{
    match start {
        Start::Space | Start::Plus => (IntState::Signs { negative }, Verdict::Need),
        Start::Minus => (
            IntState::Signs {
                negative: !negative,
            },
            Verdict::Need,
        ),
        Start::Accent => (IntState::Character { negative }, Verdict::Need),
        Start::Octal => digits(negative, Radix::Base8),
        Start::Hexadecimal => digits(negative, Radix::Base16),
        Start::Given(n) => (
            IntState::Ended,
            Verdict::Done(Number::Int(constant::signed(negative, u32::from(n)))),
        ),
        Start::Wanted(quantity) => (IntState::Asked { negative }, Verdict::Ask(quantity)),
        Start::Expression(k) => (IntState::Asked { negative }, Verdict::Sub(Phrase::Expr(k))),
        Start::Other => {
            let constant = Constant {
                radix: Radix::Base10,
                has_digit: false,
                value: 0,
            };
            take_digit(negative, constant, token, meaning)
        }
    }
}

// A constant is expected behind its mark.
fn digits(negative: bool, radix: Radix) -> (IntState, Verdict)
    ensures state { result.0 ≡ IntState.Digits negative (record { radix = radix; has_digit = false; value = 0 }) }
    ensures verdict { result.1 ≡ Verdict.Need }
{
    (
        IntState::Digits {
            negative,
            constant: Constant {
                radix,
                has_digit: false,
                value: 0,
            },
        },
        Verdict::Need,
    )
}

// The token behind the mark of a character constant.
fn take_character(negative: bool, token: Token, meaning: &Meaning) -> (IntState, Verdict)
    ensures next { state_awaits result.0 ≡ awaited_after result.1 }
    ensures verdict { result.1 ≡ character (constant_end negative) (Seen token meaning.now ∷ []) }
    ensures kept { WhileOpen result.1 (StateSteps (IntState.Character negative) (Seen token meaning.now) result.0) }
    ensures signs { is_at_signs result.0 ≡ false }
    ensures character { is_at_character result.0 ≡ false }
{
    match start::byte_of(token) {
        Some(byte) => (
            IntState::Space {
                number: constant::signed(negative, u32::from(byte)),
            },
            Verdict::Need,
        ),
        None => missing(),
    }
}

// A token where a number should stand.
fn missing() -> (IntState, Verdict)
    ensures state { result.0 ≡ IntState.Missing }
    ensures verdict { result.1 ≡ Verdict.Pass Kind.MissingNumber 1 }
{
    (
        IntState::Missing,
        Verdict::Pass {
            kind: Kind::MissingNumber,
            back: 1,
        },
    )
}

// The token behind digits or their mark.
fn take_digit(
    negative: bool,
    constant: Constant,
    token: Token,
    meaning: &Meaning,
) -> (IntState, Verdict)
    ensures next { state_awaits result.0 ≡ awaited_after result.1 }
    ensures verdict { result.1 ≡ rest_of_constant constant.radix constant.has_digit constant.value (constant_end negative) (Seen token meaning.now ∷ []) }
    ensures kept { WhileOpen result.1 (StateSteps (IntState.Digits negative constant) (Seen token meaning.now) result.0) }
    ensures signs { is_at_signs result.0 ≡ false }
    ensures character { is_at_character result.0 ≡ false }
{
    match constant::digit_of(constant.radix, token) {
        Some(digit) => grow(negative, constant, digit),
        None => {
            if constant.has_digit {
                end_by(constant::signed(negative, constant.value), token, meaning)
            } else {
                missing()
            }
        }
    }
}

// One more digit.
fn grow(negative: bool, constant: Constant, digit: u8) -> (IntState, Verdict)
    ensures state { result.0 ≡ grown_state negative constant digit }
    ensures verdict { result.1 ≡ grown_verdict constant digit }
    ensures signs { is_at_signs result.0 ≡ false }
    ensures character { is_at_character result.0 ≡ false }
{
    let grown = constant.with_digit(digit);
    if constant.value <= GREATEST && grown.value > GREATEST {
        (
            IntState::TooBig {
                negative,
                radix: constant.radix,
            },
            Verdict::Pass {
                kind: Kind::NumberTooBig,
                back: 0,
            },
        )
    } else {
        (
            IntState::Digits {
                negative,
                constant: grown,
            },
            Verdict::Need,
        )
    }
}

// The token behind a whole constant: a space is part of it.
fn end_by(number: i32, token: Token, meaning: &Meaning) -> (IntState, Verdict)
    ensures state { result.0 ≡ IntState.Ended }
    ensures verdict { result.1 ≡ optional_space (Number.Int number) (Seen token meaning.now ∷ []) }
    ensures last { awaited_after result.1 ≡ Nothing }
{
    let number = Number::Int(number);
    if start::is_space(meaning) {
        (IntState::Ended, Verdict::Done(number))
    } else {
        (IntState::Ended, Verdict::DoneBefore { number, back: 1 })
    }
}

fn take_value(state: IntState, n: Number) -> (IntState, Verdict)
    requires asked { state_awaits state ≡ Answer }
    requires negatable { IsNegatable n }
    ensures next { state_awaits result.0 ≡ awaited_after result.1 }
    ensures verdict { result.1 ≡ state_rest state (Told n) [] }
    ensures kept { WhileOpen result.1 (StateSteps state (Told n) result.0) }
    ensures signs { is_at_signs result.0 ≡ (is_at_signs state && is_leading (Told n)) }
    ensures character { is_at_character result.0 ≡ (is_at_signs state && is_accent (Told n)) }
{
    match state {
        IntState::Asked { negative } => (IntState::Ended, whole(negative, n)),
        IntState::Signs { .. }
        | IntState::Character { .. }
        | IntState::Digits { .. }
        | IntState::Space { .. }
        | IntState::TooBig { .. }
        | IntState::Missing
        | IntState::Ended => unreachable!(),
    }
}

// The value of a quantity as a whole number.
fn whole(negative: bool, n: Number) -> Verdict
    requires { IsNegatable n }
    ensures verdict { result ≡ whole_of negative n }
    ensures last { awaited_after result ≡ Nothing }
{
    match n {
        Number::Int(n) => Verdict::Done(Number::Int(with_sign(negative, n))),
        Number::Dimen(n) => Verdict::Done(Number::Int(with_sign(negative, n))),
        Number::Glue(glue) => Verdict::Done(Number::Int(with_sign(negative, glue.width))),
        Number::MuGlue(_) => Verdict::Trouble(Kind::IncompatibleGlue),
    }
}

/// The number with the sign.
pub fn with_sign(negative: bool, n: i32) -> i32
    requires { IsAboveLowest n }
    ensures { result ≡ with_sign negative n }
{
    if negative { -n } else { n }
}

fn go_on(state: IntState) -> (IntState, Verdict)
    requires { state_awaits state ≡ Resumption }
    ensures next { state_awaits result.0 ≡ awaited_after result.1 }
    ensures verdict { result.1 ≡ state_rest state Resumed [] }
    ensures kept { WhileOpen result.1 (StateSteps state Resumed result.0) }
    ensures signs { is_at_signs result.0 ≡ (is_at_signs state && is_leading Resumed) }
    ensures character { is_at_character result.0 ≡ (is_at_signs state && is_accent Resumed) }
{
    match state {
        IntState::TooBig { negative, radix } => (
            IntState::Digits {
                negative,
                constant: Constant {
                    radix,
                    has_digit: true,
                    value: TOO_BIG,
                },
            },
            Verdict::Need,
        ),
        IntState::Missing => (IntState::Ended, Verdict::Done(Number::Int(0))),
        IntState::Signs { .. }
        | IntState::Character { .. }
        | IntState::Digits { .. }
        | IntState::Space { .. }
        | IntState::Asked { .. }
        | IntState::Ended => unreachable!(),
    }
}
