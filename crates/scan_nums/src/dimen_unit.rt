//! The unit of a dimension, and its end (The TeXbook, chapter 24: unit of measure; `tex.web` 453 to 460).
ghost use Rattle.std.specs.Prelude.{◌≡◌, Bool, ◌&&◌, pos, Some, ◌∷◌};
ghost use Rattle.tokens.specs.Codes.{fontdimen_code};
ghost use Rattle.scan_nums.specs.Taken.{Taken, Seen};
ghost use Rattle.scan_nums.specs.Keywords.{after_letter, keyword, letter_of};
ghost use Rattle.scan_nums.specs.UnitWords.{followed_words, letters_read, words_behind, ReadsUpTo};
ghost use Rattle.scan_nums.specs.Dimension.{can_rise, ends, ends_before, fil, font_unit, is_l, multiple_ends, no_unit, physical_found, physical_unit, quantity_unit, risen, space_ends, unit, unit_found, unit_from, value_ends, word_unit};
ghost use Rattle.scan_nums.specs.Units.{extent};
ghost use Rattle.scan_nums.specs.DimenStanding.{IsSettled, Leads};

use crate::dimen_state::{DimenKind, DimenState, DimenStep};
use crate::keyword::{self, Followed, Letters, UnitName};
use crate::number::{Number, Quantity};
use crate::start::{self, Start};
use crate::unit::{self, Extent, Factor, TrueFactor};
use crate::verdict::{Phrase, Verdict};
use scaled::Order;
use tokens::{Kind, Meaning, Token, codes};

/// The size of a quad and that of an x-height among the parameters of a font.
const QUAD: u16 = 6;

const X_HEIGHT: u16 = 5;

// ---- the end

/// It has ended with what was handed in last.
pub fn ends(extent: Extent, order: Order) -> DimenStep
    ensures leads { (mu orders : Bool) (x : Taken) → Leads mu orders (λ next more. ends extent order next more) x result }
    ensures settled { IsSettled result }
{
    match extent {
        Extent::Within(value) => DimenStep::Finished {
            value,
            order,
            given_back: false,
        },
        Extent::Beyond { negative } => too_large(negative, order, 0),
    }
}

// A token was handed in that isn't part of it.
fn ends_before(extent: Extent, order: Order) -> DimenStep
    ensures leads { (mu orders : Bool) (x : Taken) → Leads mu orders (λ next more. ends_before extent order next x more) x result }
    ensures settled { IsSettled result }
{
    match extent {
        Extent::Within(value) => DimenStep::Finished {
            value,
            order,
            given_back: true,
        },
        Extent::Beyond { negative } => too_large(negative, order, 1),
    }
}

fn too_large(negative: bool, order: Order, back: u8) -> DimenStep
    ensures { result ≡ DimenStep.Going (DimenState.TooLarge negative order) (Verdict.Pass Kind.DimensionTooLarge back) }
{
    DimenStep::Going {
        state: DimenState::TooLarge { negative, order },
        verdict: Verdict::Pass {
            kind: Kind::DimensionTooLarge,
            back,
        },
    }
}

/// The token behind a whole dimension: a space is part of it.
pub fn take_space(extent: Extent, order: Order, token: Token, meaning: &Meaning) -> DimenStep
    ensures leads { (mu orders : Bool) → Leads mu orders (λ next more. space_ends extent order next (Seen token meaning.now ∷ more)) (Seen token meaning.now) result }
    ensures settled { IsSettled result }
{
    if start::is_space(meaning) {
        ends(extent, order)
    } else {
        ends_before(extent, order)
    }
}

/// The token behind `fil`.
pub fn take_fil(extent: Extent, order: Order, token: Token, meaning: &Meaning) -> DimenStep
    ensures leads { (mu orders : Bool) → Leads mu orders (λ next more. fil extent order next (Seen token meaning.now ∷ more)) (Seen token meaning.now) result }
    ensures settled { IsSettled result }
{
    if start::is_space(meaning) {
        behind_fil(extent, order)
    } else if rises(order, token) {
        behind_fil(extent, risen(order))
    } else {
        ends_before(extent, order)
    }
}

fn behind_fil(extent: Extent, order: Order) -> DimenStep
    ensures { result ≡ DimenStep.Going (DimenState.Fil extent order) Verdict.Need }
{
    DimenStep::Going {
        state: DimenState::Fil { extent, order },
        verdict: Verdict::Need,
    }
}

// Whether the token is a letter l that makes the order higher.
fn rises(order: Order, token: Token) -> bool
    ensures { result ≡ (is_l (letter_of token) && can_rise order) }
{
    keyword::is_l(token) && can_rise(order)
}

// Whether there is a higher order.
fn can_rise(order: Order) -> bool
    ensures { result ≡ can_rise order }
{
    match order {
        Order::Normal | Order::Fil | Order::Fill => true,
        Order::Filll => false,
    }
}

fn risen(order: Order) -> Order
    ensures { result ≡ risen order }
{
    match order {
        Order::Normal => Order::Fil,
        Order::Fil => Order::Fill,
        Order::Fill | Order::Filll => Order::Filll,
    }
}

fn incompatible() -> DimenStep
    ensures { result ≡ DimenStep.Going DimenState.Ended (Verdict.Trouble Kind.IncompatibleGlue) }
{
    DimenStep::Going {
        state: DimenState::Ended,
        verdict: Verdict::Trouble(Kind::IncompatibleGlue),
    }
}

/// The value of a quantity with which a dimension began, where it has a width.
pub fn value_ends(negative: bool, width: Option<i32>) -> DimenStep
    ensures leads { (mu orders : Bool) (x : Taken) → Leads mu orders (λ next more. value_ends negative next width more) x result }
    ensures settled { IsSettled result }
{
    match width {
        Some(width) => ends(unit::extent_of(negative, i128::from(width)), Order::Normal),
        None => incompatible(),
    }
}

/// A quantity as the unit, where it has a width.
pub fn multiple_ends(negative: bool, factor: Factor, width: Option<i32>) -> DimenStep
    ensures leads { (mu orders : Bool) (x : Taken) → Leads mu orders (λ next more. multiple_ends negative factor.whole factor.fraction next width more) x result }
    ensures settled { IsSettled result }
{
    match width {
        Some(width) => ends(
            unit::extent_of(negative, unit::multiple(factor, width)),
            Order::Normal,
        ),
        None => incompatible(),
    }
}

// ---- words

// No unit: the tokens so far are given back.
fn no_unit(negative: bool, whole: u64, fraction: u32, read: u8) -> DimenStep
    ensures leads { (mu orders : Bool) (x : Taken) → Leads mu orders (λ next more. no_unit negative whole fraction next read more) x result }
    ensures settled { IsSettled result }
{
    DimenStep::Going {
        state: DimenState::NoUnit {
            extent: unit::extent_of_size(negative, unit::in_units(whole, fraction)),
        },
        verdict: Verdict::Pass {
            kind: Kind::BadUnit,
            back: read,
        },
    }
}

// A dimension of this size, behind which a space may stand.
fn sized(negative: bool, size: u128) -> DimenStep
    ensures leads { (mu orders : Bool) (x : Taken) → Leads mu orders (λ next more. space_ends (extent negative (pos size)) Order.Normal next more) x result }
    ensures settled { IsSettled result }
{
    DimenStep::Going {
        state: DimenState::Space {
            extent: unit::extent_of_size(negative, size),
            order: Order::Normal,
        },
        verdict: Verdict::Need,
    }
}

// The unit behind a factor.
fn unit_found(negative: bool, factor: Factor, name: UnitName) -> DimenStep
    ensures leads { (mu orders : Bool) (x : Taken) → Leads mu orders (λ next more. unit_found negative factor.whole factor.fraction next name more) x result }
    ensures settled { IsSettled result }
{
    match name {
        UnitName::Em => font_size(negative, factor, QUAD),
        UnitName::Ex => font_size(negative, factor, X_HEIGHT),
        UnitName::True => DimenStep::Going {
            state: DimenState::MagAsked { negative, factor },
            verdict: Verdict::Ask(Quantity {
                code: codes::MAG,
                index: Some(0),
            }),
        },
        UnitName::Fil => behind_fil(
            unit::extent_of_size(
                negative,
                unit::in_units(u64::from(factor.whole), factor.fraction),
            ),
            Order::Fil,
        ),
        UnitName::Mu => sized(
            negative,
            unit::in_units(u64::from(factor.whole), factor.fraction),
        ),
        UnitName::Physical(physical) => sized(
            negative,
            unit::physical_size(physical, u64::from(factor.whole), factor.fraction),
        ),
    }
}

// A parameter of the current font.
fn font_size(negative: bool, factor: Factor, parameter: u16) -> DimenStep
    ensures { result ≡ DimenStep.Going (DimenState.FontAsked negative factor) (Verdict.Ask (record { code = fontdimen_code; index = Some parameter })) }
{
    DimenStep::Going {
        state: DimenState::FontAsked { negative, factor },
        verdict: Verdict::Ask(Quantity {
            code: codes::FONTDIMEN,
            index: Some(parameter),
        }),
    }
}

/// The size that `em` or `ex` has.
pub fn font_unit(negative: bool, factor: Factor, size: Number) -> DimenStep
    ensures leads { (mu orders : Bool) (x : Taken) → Leads mu orders (λ next more. font_unit negative factor.whole factor.fraction next size more) x result }
    ensures settled { IsSettled result }
{
    DimenStep::Going {
        state: DimenState::Space {
            extent: unit::extent_of(negative, unit::multiple(factor, size.first())),
            order: Order::Normal,
        },
        verdict: Verdict::Need,
    }
}

// The unit behind `true`. Other keywords aren't looked for there.
fn physical_found(negative: bool, factor: TrueFactor, name: UnitName) -> DimenStep
    ensures leads { (mu orders : Bool) (x : Taken) → Leads mu orders (λ next more. physical_found negative factor.whole factor.fraction next name more) x result }
    ensures settled { IsSettled result }
{
    match name {
        UnitName::Physical(physical) => sized(
            negative,
            unit::physical_size(physical, factor.whole, factor.fraction),
        ),
        UnitName::Em => no_unit(negative, factor.whole, factor.fraction, 2),
        UnitName::Ex => no_unit(negative, factor.whole, factor.fraction, 2),
        UnitName::Mu => no_unit(negative, factor.whole, factor.fraction, 2),
        UnitName::Fil => no_unit(negative, factor.whole, factor.fraction, 3),
        UnitName::True => no_unit(negative, factor.whole, factor.fraction, 4),
    }
}

// What the letters of the unit behind a factor have led to, which are so many with the last one.
fn follow(negative: bool, factor: Factor, followed: Followed, read: u8) -> DimenStep
    requires { ReadsUpTo read followed }
    ensures leads { (mu orders : Bool) (x : Taken) → Leads mu orders (λ next more. after_letter (followed_words followed) (no_unit negative factor.whole factor.fraction next read more) (λ name. unit_found negative factor.whole factor.fraction next name more) (keyword (followed_words followed) read (unit_found negative factor.whole factor.fraction next) (no_unit negative factor.whole factor.fraction next) more)) x result }
    ensures settled { IsSettled result }
{
    match followed {
        Followed::More(letters) => DimenStep::Going {
            state: DimenState::Word {
                negative,
                factor,
                letters,
            },
            verdict: Verdict::Need,
        },
        Followed::Whole(name) => unit_found(negative, factor, name),
        Followed::Broken => no_unit(negative, u64::from(factor.whole), factor.fraction, read),
    }
}

// What the letters of the unit behind `true` have led to, which are so many with the last one.
fn follow_physical(negative: bool, factor: TrueFactor, followed: Followed, read: u8) -> DimenStep
    requires { ReadsUpTo read followed }
    ensures leads { (mu orders : Bool) (x : Taken) → Leads mu orders (λ next more. after_letter (followed_words followed) (no_unit negative factor.whole factor.fraction next read more) (λ name. physical_found negative factor.whole factor.fraction next name more) (keyword (followed_words followed) read (physical_found negative factor.whole factor.fraction next) (no_unit negative factor.whole factor.fraction next) more)) x result }
    ensures settled { IsSettled result }
{
    match followed {
        Followed::More(letters) => DimenStep::Going {
            state: DimenState::PhysicalWord {
                negative,
                factor,
                letters,
            },
            verdict: Verdict::Need,
        },
        Followed::Whole(name) => physical_found(negative, factor, name),
        Followed::Broken => no_unit(negative, factor.whole, factor.fraction, read),
    }
}

/// A further letter of the unit behind a factor.
pub fn take_letter(
    negative: bool,
    factor: Factor,
    letters: Letters,
    token: Token,
    meaning: &Meaning,
) -> DimenStep
    ensures leads { (mu orders : Bool) → Leads mu orders (λ next more. keyword (words_behind letters) (letters_read letters) (unit_found negative factor.whole factor.fraction next) (no_unit negative factor.whole factor.fraction next) (Seen token meaning.now ∷ more)) (Seen token meaning.now) result }
    ensures settled { IsSettled result }
{
    follow(
        negative,
        factor,
        keyword::next_letter(letters, token),
        letters.count() + 1,
    )
}

/// A further letter of the unit behind `true`.
pub fn take_physical_letter(
    negative: bool,
    factor: TrueFactor,
    letters: Letters,
    token: Token,
    meaning: &Meaning,
) -> DimenStep
    ensures leads { (mu orders : Bool) → Leads mu orders (λ next more. keyword (words_behind letters) (letters_read letters) (physical_found negative factor.whole factor.fraction next) (no_unit negative factor.whole factor.fraction next) (Seen token meaning.now ∷ more)) (Seen token meaning.now) result }
    ensures settled { IsSettled result }
{
    follow_physical(
        negative,
        factor,
        keyword::next_letter(letters, token),
        letters.count() + 1,
    )
}

/// The token behind `true`.
pub fn take_physical(
    negative: bool,
    factor: TrueFactor,
    token: Token,
    meaning: &Meaning,
) -> DimenStep
    ensures leads { (mu orders : Bool) → Leads mu orders (λ next more. physical_unit negative factor.whole factor.fraction next (Seen token meaning.now ∷ more)) (Seen token meaning.now) result }
    ensures settled { IsSettled result }
{
    if start::is_space(meaning) {
        DimenStep::Going {
            state: DimenState::Physical { negative, factor },
            verdict: Verdict::Need,
        }
    } else {
        follow_physical(negative, factor, keyword::first_physical_letter(token), 1)
    }
}

// ---- all units

/// The token behind a factor.
pub fn take_unit(
    kind: DimenKind,
    negative: bool,
    factor: Factor,
    token: Token,
    meaning: &Meaning,
) -> DimenStep
    ensures leads { Leads kind.mu kind.orders (λ next more. unit kind.mu kind.orders negative factor.whole factor.fraction next (Seen token meaning.now ∷ more)) (Seen token meaning.now) result }
    ensures settled { IsSettled result }
{
    if start::is_space(meaning) {
        DimenStep::Going {
            state: DimenState::AtUnit { negative, factor },
            verdict: Verdict::Need,
        }
    } else {
        begin_unit(
            kind,
            negative,
            factor,
            start::start_of(token, meaning),
            token,
            meaning,
        )
    }
}

// The token with which a unit begins.
fn begin_unit(
    kind: DimenKind,
    negative: bool,
    factor: Factor,
    start: Start,
    token: Token,
    meaning: &Meaning,
) -> DimenStep
    ensures leads { Leads kind.mu kind.orders (λ next more. unit_from start kind.mu kind.orders negative factor.whole factor.fraction next (Seen token meaning.now) more) (Seen token meaning.now) result }
    ensures settled { IsSettled result }
{
    match start {
        Start::Given(n) => multiple_ends(
            negative,
            factor,
            unit::width_in(kind.mu, Number::Int(i32::from(n))),
        ),
        Start::Wanted(quantity) => DimenStep::Going {
            state: DimenState::UnitAsked { negative, factor },
            verdict: Verdict::Ask(quantity),
        },
        Start::Expression(k) => DimenStep::Going {
            state: DimenState::UnitAsked { negative, factor },
            verdict: Verdict::Sub(Phrase::Expr(k)),
        },
        Start::Space => begin_word(kind, negative, factor, token, meaning),
        Start::Plus => begin_word(kind, negative, factor, token, meaning),
        Start::Minus => begin_word(kind, negative, factor, token, meaning),
        Start::Accent => begin_word(kind, negative, factor, token, meaning),
        Start::Octal => begin_word(kind, negative, factor, token, meaning),
        Start::Hexadecimal => begin_word(kind, negative, factor, token, meaning),
        Start::Other => begin_word(kind, negative, factor, token, meaning),
    }
}

// The first letter of a unit.
fn begin_word(
    kind: DimenKind,
    negative: bool,
    factor: Factor,
    token: Token,
    meaning: &Meaning,
) -> DimenStep
    ensures leads { Leads kind.mu kind.orders (λ next more. word_unit kind.mu kind.orders negative factor.whole factor.fraction next (Seen token meaning.now ∷ more)) (Seen token meaning.now) result }
    ensures settled { IsSettled result }
{
    follow(
        negative,
        factor,
        keyword::first_letter(kind.mu, kind.orders, token),
        1,
    )
}
