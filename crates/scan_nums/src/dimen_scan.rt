//! The automaton that reads a dimension (The TeXbook, chapter 24: dimen; `tex.web` 448 to 460).
ghost use Rattle.std.specs.Prelude.{◌≡◌, Bool, true, false, Some, List, [], ◌∷◌, ◌++◌, ◌&&◌};
ghost use Rattle.scan_nums.specs.Awaited.{awaited_after, NextToken, Answer, Resumption, WhileOpen};
ghost use Rattle.scan_nums.specs.Constants.{is_leading, character, rest_of_constant};
ghost use Rattle.scan_nums.specs.DimenStanding.{is_at_character, is_at_signs, grown_step, state_awaits, state_rest, step_at_character, step_at_signs, IsSettled, Leads, StepAwaits};
ghost use Rattle.scan_nums.specs.Dimension.{begins_with, behind_constant, decimal, fraction, greatest, integer_end, signed_dimension, value_ends};
ghost use Rattle.scan_nums.specs.Units.{width_in};
ghost use Rattle.scan_nums.specs.Number.{IsNegatable};
ghost use Rattle.scan_nums.specs.Starts.{start_of};
ghost use Rattle.scan_nums.specs.Decimals.{digits_of};
ghost use Rattle.scan_nums.specs.Taken.{Taken, Seen, Told, Resumed};
ghost use Rattle.scan_nums.specs.WholeNumber.{is_accent, wants_character};

use crate::constant::{self, Constant, GREATEST, Radix, TOO_BIG};
use crate::decimals::Decimals;
use crate::dimen_state::{DimenKind, DimenState, DimenStep};
use crate::dimen_unit;
use crate::number::Number;
use crate::start::{self, Start};
use crate::unit::{self, Factor};
use crate::verdict::{Phrase, Verdict};
use scaled::Order;
use tokens::{Kind, Meaning, Token};

/// A reader of one dimension, for which it takes no memory. The number is `Number::Dimen`, in sp, or in 65536ths of a
/// mu or of `fil` and its mates.
#[derive(Clone, Copy)]
pub struct DimenScan {
    kind: DimenKind,
    state: DimenState,
    order: Order,
}

impl DimenScan {
    ghost use Rattle.scan_nums.specs.DimenScan.{awaits, kind_of, phrase, IsFollowed, OrderIs, Stands};

    /// A reader to which nothing was handed: of a dimension in mu, or of one that isn't; and of one that may have an order
    /// of infinity, as in the stretch of glue.
    pub fn new(mu: bool, orders: bool) -> DimenScan
        ensures next { awaits result ≡ NextToken }
        ensures kind { kind_of result ≡ record { mu = mu; orders = orders } }
        ensures stands { Stands result [] }
    {
        DimenScan {
            kind: DimenKind { mu, orders },
            state: DimenState::Signs { negative: false },
            order: Order::Normal,
        }
    }

    /// The order of the dimension that has ended: the unit is `fil` or one of its mates unless it is `Normal`.
    pub fn order(&self) -> Order
        ensures { result ≡ self.now.order }
    {
        self.order
    }

    /// Whether the next token is that of a character constant, which is taken without expansion. A name of
    /// one byte is handed in as a character of category 12.
    pub fn wants_character(&self) -> bool
        ensures { (taken : List Taken) → Stands self.now taken → result ≡ wants_character taken }
    {
        is_character(self.state)
    }

    /// Takes the next token, expanded, with its meaning.
    pub fn take(&mut self, token: Token, meaning: &Meaning) -> Verdict
        requires { awaits self.old ≡ NextToken }
        ensures next { awaits self.new ≡ awaited_after result }
        ensures kind { kind_of self.new ≡ kind_of self.old }
        ensures verdict { (taken : List Taken) → Stands self.old taken → result ≡ phrase (kind_of self.old) (taken ++ Seen token meaning.now ∷ []) }
        ensures kept { (taken : List Taken) → Stands self.old taken → WhileOpen result (Stands self.new (taken ++ Seen token meaning.now ∷ [])) }
        ensures order { (taken : List Taken) → Stands self.old taken → OrderIs self.new (kind_of self.old) result (taken ++ Seen token meaning.now ∷ []) }
    {
        let step = take_token(self.kind, self.state, token, meaning);
        self.follow(step)
    }

    /// Takes the value that was asked for.
    pub fn answer(&mut self, n: Number) -> Verdict
        requires asked { awaits self.old ≡ Answer }
        requires negatable { IsNegatable n }
        ensures next { awaits self.new ≡ awaited_after result }
        ensures kind { kind_of self.new ≡ kind_of self.old }
        ensures verdict { (taken : List Taken) → Stands self.old taken → result ≡ phrase (kind_of self.old) (taken ++ Told n ∷ []) }
        ensures kept { (taken : List Taken) → Stands self.old taken → WhileOpen result (Stands self.new (taken ++ Told n ∷ [])) }
        ensures order { (taken : List Taken) → Stands self.old taken → OrderIs self.new (kind_of self.old) result (taken ++ Told n ∷ []) }
    {
        let step = take_value(self.kind, self.state, n);
        self.follow(step)
    }

    /// Goes on behind a trouble that was passed over.
    pub fn resume(&mut self) -> Verdict
        requires { awaits self.old ≡ Resumption }
        ensures next { awaits self.new ≡ awaited_after result }
        ensures kind { kind_of self.new ≡ kind_of self.old }
        ensures verdict { (taken : List Taken) → Stands self.old taken → result ≡ phrase (kind_of self.old) (taken ++ Resumed ∷ []) }
        ensures kept { (taken : List Taken) → Stands self.old taken → WhileOpen result (Stands self.new (taken ++ Resumed ∷ [])) }
        ensures order { (taken : List Taken) → Stands self.old taken → OrderIs self.new (kind_of self.old) result (taken ++ Resumed ∷ []) }
    {
        let step = go_on(self.state);
        self.follow(step)
    }

    // Goes to the state behind the step.
    fn follow(&mut self, step: DimenStep) -> Verdict
        requires { StepAwaits step }
        ensures next { awaits self.new ≡ awaited_after result }
        ensures kind { kind_of self.new ≡ kind_of self.old }
        ensures followed { IsFollowed step self.new result }
    {
        match step {
            DimenStep::Going { state, verdict } => {
                self.state = state;
                verdict
            }
            DimenStep::Finished {
                value,
                order,
                given_back,
            } => {
                self.state = DimenState::Ended;
                self.order = order;
                let number = Number::Dimen(value);
                if given_back {
                    Verdict::DoneBefore { number, back: 1 }
                } else {
                    Verdict::Done(number)
                }
            }
        }
    }
}

/// Whether the mark of a character constant was taken.
pub fn is_character(state: DimenState) -> bool
    ensures { result ≡ is_at_character state }
{
    match state {
        DimenState::Character { .. } => true,
        DimenState::Signs { .. }
        | DimenState::Digits { .. }
        | DimenState::TooBig { .. }
        | DimenState::Missing { .. }
        | DimenState::Fraction { .. }
        | DimenState::Asked { .. }
        | DimenState::AtUnit { .. }
        | DimenState::Word { .. }
        | DimenState::UnitAsked { .. }
        | DimenState::FontAsked { .. }
        | DimenState::MagAsked { .. }
        | DimenState::Physical { .. }
        | DimenState::PhysicalWord { .. }
        | DimenState::Fil { .. }
        | DimenState::Space { .. }
        | DimenState::NoUnit { .. }
        | DimenState::TooLarge { .. }
        | DimenState::Ended => false,
    }
}

// The reader goes on, and wants the next token.
fn at(state: DimenState) -> DimenStep
    ensures { result ≡ DimenStep.Going state Verdict.Need }
{
    DimenStep::Going {
        state,
        verdict: Verdict::Need,
    }
}

// ---- tokens

/// What the next token leads to.
pub fn take_token(kind: DimenKind, state: DimenState, token: Token, meaning: &Meaning) -> DimenStep
    requires { state_awaits state ≡ NextToken }
    ensures leads { Leads kind.mu kind.orders (λ next more. state_rest kind.mu kind.orders state next (Seen token meaning.now) more) (Seen token meaning.now) result }
    ensures awaits { StepAwaits result }
    ensures signs { step_at_signs result ≡ (is_at_signs state && is_leading (Seen token meaning.now)) }
    ensures character { step_at_character result ≡ (is_at_signs state && is_accent (Seen token meaning.now)) }
{
    match state {
        DimenState::Signs { negative } => begin(
            kind,
            negative,
            start::start_of(token, meaning),
            token,
            meaning,
        ),
        DimenState::Character { negative } => take_character(negative, token, meaning),
        DimenState::Digits { negative, constant } => take_digit(
            kind, negative, constant, token, meaning,
        ),
        DimenState::Fraction {
            negative,
            whole,
            decimals,
        } => take_figure(kind, negative, whole, decimals, token, meaning),
        DimenState::AtUnit { negative, factor } => dimen_unit::take_unit(
            kind, negative, factor, token, meaning,
        ),
        DimenState::Word {
            negative,
            factor,
            letters,
        } => dimen_unit::take_letter(negative, factor, letters, token, meaning),
        DimenState::Physical { negative, factor } => dimen_unit::take_physical(
            negative, factor, token, meaning,
        ),
        DimenState::PhysicalWord {
            negative,
            factor,
            letters,
        } => dimen_unit::take_physical_letter(negative, factor, letters, token, meaning),
        DimenState::Fil { extent, order } => dimen_unit::take_fil(extent, order, token, meaning),
        DimenState::Space { extent, order } => dimen_unit::take_space(
            extent, order, token, meaning,
        ),
        DimenState::TooBig { .. }
        | DimenState::Missing { .. }
        | DimenState::Asked { .. }
        | DimenState::UnitAsked { .. }
        | DimenState::FontAsked { .. }
        | DimenState::MagAsked { .. }
        | DimenState::NoUnit { .. }
        | DimenState::TooLarge { .. }
        | DimenState::Ended => unreachable!(),
    }
}

// The token behind signs and spaces.
fn begin(
    kind: DimenKind,
    negative: bool,
    start: Start,
    token: Token,
    meaning: &Meaning,
) -> DimenStep
    requires { start ≡ start_of token meaning.now }
    ensures leads { Leads kind.mu kind.orders (λ next more. signed_dimension kind.mu kind.orders negative next (Seen token meaning.now ∷ more)) (Seen token meaning.now) result }
    ensures awaits { StepAwaits result }
    ensures signs { step_at_signs result ≡ is_leading (Seen token meaning.now) }
    ensures character { step_at_character result ≡ is_accent (Seen token meaning.now) }
{
    match start {
        Start::Space | Start::Plus => at(DimenState::Signs { negative }),
        Start::Minus => at(DimenState::Signs {
            negative: !negative,
        }),
        Start::Accent => at(DimenState::Character { negative }),
        Start::Octal => at(no_digits(negative, Radix::Base8)),
        Start::Hexadecimal => at(no_digits(negative, Radix::Base16)),
        Start::Given(n) => at(whole_units(negative, u32::from(n))),
        Start::Wanted(quantity) => DimenStep::Going {
            state: DimenState::Asked { negative },
            verdict: Verdict::Ask(quantity),
        },
        Start::Expression(k) => DimenStep::Going {
            state: DimenState::Asked { negative },
            verdict: Verdict::Sub(Phrase::Expr(k)),
        },
        Start::Other => begin_decimal(kind, negative, token, meaning),
    }
}

// A constant is expected behind its mark.
fn no_digits(negative: bool, radix: Radix) -> DimenState
    ensures { result ≡ DimenState.Digits negative (record { radix = radix; has_digit = false; value = 0 }) }
{
    DimenState::Digits {
        negative,
        constant: Constant {
            radix,
            has_digit: false,
            value: 0,
        },
    }
}

// A factor that is a whole number.
fn whole_units(negative: bool, whole: u32) -> DimenState
    ensures { result ≡ DimenState.AtUnit negative (record { whole = whole; fraction = 0 }) }
{
    DimenState::AtUnit {
        negative,
        factor: Factor { whole, fraction: 0 },
    }
}

// The first token of a decimal constant.
fn begin_decimal(kind: DimenKind, negative: bool, token: Token, meaning: &Meaning) -> DimenStep
    ensures leads { Leads kind.mu kind.orders (λ next more. decimal kind.mu kind.orders negative next (Seen token meaning.now) more) (Seen token meaning.now) result }
    ensures settled { IsSettled result }
{
    if start::is_point(token) {
        behind_point(negative, 0)
    } else {
        let constant = Constant {
            radix: Radix::Base10,
            has_digit: false,
            value: 0,
        };
        take_digit(kind, negative, constant, token, meaning)
    }
}

// The point was taken.
fn behind_point(negative: bool, whole: u32) -> DimenStep
    ensures leads { (mu orders : Bool) (x : Taken) → Leads mu orders (λ next more. fraction mu orders negative whole [] next more) x result }
    ensures settled { IsSettled result }
{
    at(DimenState::Fraction {
        negative,
        whole,
        decimals: Decimals::new(),
    })
}

// The token behind the mark of a character constant.
fn take_character(negative: bool, token: Token, meaning: &Meaning) -> DimenStep
    ensures leads { (mu orders : Bool) → Leads mu orders (λ next more. character (integer_end mu orders negative next) (Seen token meaning.now ∷ more)) (Seen token meaning.now) result }
    ensures settled { IsSettled result }
{
    match start::byte_of(token) {
        Some(byte) => at(whole_units(negative, u32::from(byte))),
        None => missing(negative),
    }
}

// A token where a number should stand.
fn missing(negative: bool) -> DimenStep
    ensures { result ≡ DimenStep.Going (DimenState.Missing negative) (Verdict.Pass Kind.MissingNumber 1) }
{
    DimenStep::Going {
        state: DimenState::Missing { negative },
        verdict: Verdict::Pass {
            kind: Kind::MissingNumber,
            back: 1,
        },
    }
}

// The token behind digits or their mark.
fn take_digit(
    kind: DimenKind,
    negative: bool,
    constant: Constant,
    token: Token,
    meaning: &Meaning,
) -> DimenStep
    ensures leads { Leads kind.mu kind.orders (λ next more. rest_of_constant constant.radix constant.has_digit constant.value (behind_constant constant.radix kind.mu kind.orders negative next) (Seen token meaning.now ∷ more)) (Seen token meaning.now) result }
    ensures settled { IsSettled result }
{
    match constant::digit_of(constant.radix, token) {
        Some(digit) => grow(negative, constant, digit),
        None => {
            if constant.has_digit {
                let whole = constant.value.min(GREATEST);
                end_constant(kind, negative, constant.radix, whole, token, meaning)
            } else {
                missing(negative)
            }
        }
    }
}

// One more digit.
fn grow(negative: bool, constant: Constant, digit: u8) -> DimenStep
    ensures step { result ≡ grown_step negative constant digit }
    ensures settled { IsSettled result }
{
    let grown = constant.with_digit(digit);
    if constant.value <= GREATEST && grown.value > GREATEST {
        DimenStep::Going {
            state: DimenState::TooBig {
                negative,
                radix: constant.radix,
            },
            verdict: Verdict::Pass {
                kind: Kind::NumberTooBig,
                back: 0,
            },
        }
    } else {
        at(DimenState::Digits {
            negative,
            constant: grown,
        })
    }
}

// The token behind the digits of a whole number.
fn end_constant(
    kind: DimenKind,
    negative: bool,
    radix: Radix,
    whole: u32,
    token: Token,
    meaning: &Meaning,
) -> DimenStep
    ensures leads { Leads kind.mu kind.orders (λ next more. behind_constant radix kind.mu kind.orders negative next (Some whole) (Seen token meaning.now ∷ more)) (Seen token meaning.now) result }
    ensures settled { IsSettled result }
{
    let factor = Factor { whole, fraction: 0 };
    match radix {
        Radix::Base8 | Radix::Base16 => dimen_unit::take_unit(
            kind, negative, factor, token, meaning,
        ),
        Radix::Base10 => {
            if start::is_point(token) {
                behind_point(negative, whole)
            } else {
                dimen_unit::take_unit(kind, negative, factor, token, meaning)
            }
        }
    }
}

// The token behind the point and digits behind it.
fn take_figure(
    kind: DimenKind,
    negative: bool,
    whole: u32,
    decimals: Decimals,
    token: Token,
    meaning: &Meaning,
) -> DimenStep
    ensures leads { Leads kind.mu kind.orders (λ next more. fraction kind.mu kind.orders negative whole (digits_of decimals) next (Seen token meaning.now ∷ more)) (Seen token meaning.now) result }
    ensures settled { IsSettled result }
{
    match constant::figure_of(token) {
        Some(digit) => at(DimenState::Fraction {
            negative,
            whole,
            decimals: decimals.with_digit(digit),
        }),
        None => {
            let factor = Factor {
                whole,
                fraction: decimals.fraction(),
            };
            dimen_unit::take_unit(kind, negative, factor, token, meaning)
        }
    }
}

// ---- answers and resumptions

/// What the value that was asked for leads to.
pub fn take_value(kind: DimenKind, state: DimenState, n: Number) -> DimenStep
    requires asked { state_awaits state ≡ Answer }
    ensures leads { Leads kind.mu kind.orders (λ next more. state_rest kind.mu kind.orders state next (Told n) more) (Told n) result }
    ensures settled { IsSettled result }
{
    match state {
        DimenState::Asked { negative } => begin_with(kind, negative, n),
        DimenState::UnitAsked { negative, factor } => dimen_unit::multiple_ends(
            negative,
            factor,
            unit::width_in(kind.mu, n),
        ),
        DimenState::FontAsked { negative, factor } => dimen_unit::font_unit(negative, factor, n),
        DimenState::MagAsked { negative, factor } => at(DimenState::Physical {
            negative,
            factor: unit::magnified(factor, unit::magnification_of(n.first())),
        }),
        DimenState::Signs { .. }
        | DimenState::Character { .. }
        | DimenState::Digits { .. }
        | DimenState::TooBig { .. }
        | DimenState::Missing { .. }
        | DimenState::Fraction { .. }
        | DimenState::AtUnit { .. }
        | DimenState::Word { .. }
        | DimenState::Physical { .. }
        | DimenState::PhysicalWord { .. }
        | DimenState::Fil { .. }
        | DimenState::Space { .. }
        | DimenState::NoUnit { .. }
        | DimenState::TooLarge { .. }
        | DimenState::Ended => unreachable!(),
    }
}

// The value of a quantity with which the dimension began.
fn begin_with(kind: DimenKind, negative: bool, n: Number) -> DimenStep
    ensures leads { (x : Taken) → Leads kind.mu kind.orders (λ next more. begins_with kind.mu kind.orders negative next n more) x result }
    ensures settled { IsSettled result }
{
    match n {
        Number::Int(n) => at(whole_units(unit::flipped(negative, n), n.unsigned_abs())),
        Number::Dimen(_) => begin_with_width(kind, negative, n),
        Number::Glue(_) => begin_with_width(kind, negative, n),
        Number::MuGlue(_) => begin_with_width(kind, negative, n),
    }
}

// The value of a quantity that is the dimension.
fn begin_with_width(kind: DimenKind, negative: bool, n: Number) -> DimenStep
    ensures leads { (x : Taken) → Leads kind.mu kind.orders (λ next more. value_ends negative next (width_in kind.mu n) more) x result }
    ensures settled { IsSettled result }
{
    dimen_unit::value_ends(negative, unit::width_in(kind.mu, n))
}

/// What the word to go on leads to.
pub fn go_on(state: DimenState) -> DimenStep
    requires { state_awaits state ≡ Resumption }
    ensures leads { (mu orders : Bool) → Leads mu orders (λ next more. state_rest mu orders state next Resumed more) Resumed result }
    ensures settled { IsSettled result }
{
    match state {
        DimenState::TooBig { negative, radix } => at(DimenState::Digits {
            negative,
            constant: Constant {
                radix,
                has_digit: true,
                value: TOO_BIG,
            },
        }),
        DimenState::Missing { negative } => at(whole_units(negative, 0)),
        DimenState::NoUnit { extent } => dimen_unit::ends(extent, Order::Normal),
        DimenState::TooLarge { negative, order } => DimenStep::Finished {
            value: greatest(negative),
            order,
            given_back: false,
        },
        DimenState::Signs { .. }
        | DimenState::Character { .. }
        | DimenState::Digits { .. }
        | DimenState::Fraction { .. }
        | DimenState::Asked { .. }
        | DimenState::AtUnit { .. }
        | DimenState::Word { .. }
        | DimenState::UnitAsked { .. }
        | DimenState::FontAsked { .. }
        | DimenState::MagAsked { .. }
        | DimenState::Physical { .. }
        | DimenState::PhysicalWord { .. }
        | DimenState::Fil { .. }
        | DimenState::Space { .. }
        | DimenState::Ended => unreachable!(),
    }
}

// What stands for a dimension that is too large.
fn greatest(negative: bool) -> i32
    ensures { result ≡ greatest negative }
{
    if negative {
        -1_073_741_823
    } else {
        1_073_741_823
    }
}
