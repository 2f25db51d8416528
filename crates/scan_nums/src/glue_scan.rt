//! The automaton that reads a glue (The TeXbook, chapter 24: glue; `tex.web` 461 and 462).
ghost use Rattle.std.specs.Prelude.{◌≡◌, false, List, [], ◌∷◌, ◌++◌};
ghost use Rattle.scan_nums.specs.Awaited.{awaited_after, Answer, NextToken, Resumption, WhileOpen};
ghost use Rattle.scan_nums.specs.DimenStanding.{state_awaits, state_rest, StepAwaits};
ghost use Rattle.scan_nums.specs.Dimension.{signed_dimension};
ghost use Rattle.scan_nums.specs.Glue.{behind_width, glue, glue_begins_with, glue_of, glue_with_sign, in_unit, signed_glue};
ghost use Rattle.scan_nums.specs.GlueStanding.{broken_step, ended_before_step, ended_step, followed_step, following_step, glue_at_character, glue_awaits, glue_rest, glue_without, next_of, orders_of, stretch_step, width_step, word_step, GlueLeads};
ghost use Rattle.scan_nums.specs.Number.{IsNegatable, IsNegatableGlue};
ghost use Rattle.scan_nums.specs.Starts.{start_of};
ghost use Rattle.scan_nums.specs.Taken.{Taken, Seen, Told, Resumed};

use crate::dimen_state::{DimenKind, DimenState, DimenStep};
use crate::glue_state::{GluePart, GlueState, PartLetters};
use crate::number::Number;
use crate::start::{self, Start};
use crate::verdict::{Phrase, Verdict};
use crate::{dimen_scan, int_scan, keyword};
use scaled::{Glue, Order};
use tokens::{Kind, Meaning, Token};

/// A reader of one glue, for which it takes no memory. The number is `Number::Glue`, or `Number::MuGlue` where the unit is
/// mu.
#[derive(Clone, Copy)]
pub struct GlueScan {
    mu: bool,
    state: GlueState,
}

impl GlueScan {
    ghost use Rattle.scan_nums.specs.GlueScan.{awaits, is_mu, wants_character, Stands};

    /// A reader to which nothing was handed: of a glue in mu, or of one that isn't.
    pub fn new(mu: bool) -> GlueScan
        ensures next { awaits result ≡ NextToken }
        ensures unit { is_mu result ≡ mu }
        ensures stands { Stands result [] }
    {
        GlueScan {
            mu,
            state: GlueState::Signs { negative: false },
        }
    }

    /// Whether the next token is that of a character constant, which is taken without expansion. A name of
    /// one byte is handed in as a character of category 12.
    pub fn wants_character(&self) -> bool
        ensures { (taken : List Taken) → Stands self.now taken → result ≡ wants_character (is_mu self.now) taken }
    {
        is_character(self.state)
    }

    /// Takes the next token, expanded, with its meaning.
    pub fn take(&mut self, token: Token, meaning: &Meaning) -> Verdict
        requires { awaits self.old ≡ NextToken }
        ensures next { awaits self.new ≡ awaited_after result }
        ensures unit { is_mu self.new ≡ is_mu self.old }
        ensures verdict { (taken : List Taken) → Stands self.old taken → result ≡ glue (is_mu self.old) (taken ++ Seen token meaning.now ∷ []) }
        ensures kept { (taken : List Taken) → Stands self.old taken → WhileOpen result (Stands self.new (taken ++ Seen token meaning.now ∷ [])) }
    {
        let (state, verdict) = take_token(self.mu, self.state, token, meaning);
        self.state = state;
        verdict
    }

    /// Takes the value that was asked for.
    pub fn answer(&mut self, n: Number) -> Verdict
        requires asked { awaits self.old ≡ Answer }
        requires negatable { IsNegatable n }
        ensures next { awaits self.new ≡ awaited_after result }
        ensures unit { is_mu self.new ≡ is_mu self.old }
        ensures verdict { (taken : List Taken) → Stands self.old taken → result ≡ glue (is_mu self.old) (taken ++ Told n ∷ []) }
        ensures kept { (taken : List Taken) → Stands self.old taken → WhileOpen result (Stands self.new (taken ++ Told n ∷ [])) }
    {
        let (state, verdict) = take_value(self.mu, self.state, n);
        self.state = state;
        verdict
    }

    /// Goes on behind a trouble that was passed over.
    pub fn resume(&mut self) -> Verdict
        requires { awaits self.old ≡ Resumption }
        ensures next { awaits self.new ≡ awaited_after result }
        ensures unit { is_mu self.new ≡ is_mu self.old }
        ensures verdict { (taken : List Taken) → Stands self.old taken → result ≡ glue (is_mu self.old) (taken ++ Resumed ∷ []) }
        ensures kept { (taken : List Taken) → Stands self.old taken → WhileOpen result (Stands self.new (taken ++ Resumed ∷ [])) }
    {
        let (state, verdict) = go_on(self.mu, self.state);
        self.state = state;
        verdict
    }
}

fn is_character(state: GlueState) -> bool
    ensures { result ≡ glue_at_character state }
{
    match state {
        GlueState::Part { part: _, state } => dimen_scan::is_character(state),
        GlueState::Signs { .. }
        | GlueState::Asked { .. }
        | GlueState::BehindWidth { .. }
        | GlueState::BehindStretch { .. }
        | GlueState::Word { .. }
        | GlueState::Ended => false,
    }
}

// ---- values

fn in_unit(mu: bool, glue: Glue) -> Number
    ensures { result ≡ in_unit mu glue }
{
    if mu {
        Number::MuGlue(glue)
    } else {
        Number::Glue(glue)
    }
}

// Each part with the sign.
fn with_sign(negative: bool, glue: Glue) -> Glue
    requires { IsNegatableGlue glue }
    ensures { result ≡ glue_with_sign negative glue }
{
    Glue {
        width: int_scan::with_sign(negative, glue.width),
        stretch: int_scan::with_sign(negative, glue.stretch),
        stretch_order: glue.stretch_order,
        shrink: int_scan::with_sign(negative, glue.shrink),
        shrink_order: glue.shrink_order,
    }
}

// The glue with its last part.
fn whole(
    mu: bool,
    width: i32,
    stretch: i32,
    stretch_order: Order,
    shrink: i32,
    shrink_order: Order,
) -> Number
    ensures { result ≡ glue_of mu width stretch stretch_order shrink shrink_order }
{
    in_unit(
        mu,
        Glue {
            width,
            stretch,
            stretch_order,
            shrink,
            shrink_order,
        },
    )
}

// The glue without the part.
fn without(mu: bool, part: GluePart) -> Number
    ensures { result ≡ glue_without mu part }
{
    match part {
        GluePart::Width => whole(mu, 0, 0, Order::Normal, 0, Order::Normal),
        GluePart::Stretch { width } => whole(mu, width, 0, Order::Normal, 0, Order::Normal),
        GluePart::Shrink {
            width,
            stretch,
            order,
        } => whole(mu, width, stretch, order, 0, Order::Normal),
    }
}

// ---- keywords

// No keyword goes on so: the glue has ended, and so many tokens are given back.
fn broken(mu: bool, part: GluePart, back: u8) -> (GlueState, Verdict)
    ensures { result ≡ broken_step mu part back }
{
    (
        GlueState::Ended,
        Verdict::DoneBefore {
            number: without(mu, part),
            back,
        },
    )
}

// What stands behind the width: a space, a letter, or anything else.
fn behind_width(mu: bool, width: i32, is_space: bool, letter: Option<u8>) -> (GlueState, Verdict)
    ensures { result ≡ width_step mu width is_space letter }
{
    if is_space {
        return (GlueState::BehindWidth { width }, Verdict::Need);
    }
    let stretch = GluePart::Stretch { width };
    match letter {
        Some(letter) => {
            if letter == b'p' {
                (
                    GlueState::Word {
                        part: stretch,
                        letters: PartLetters::P,
                    },
                    Verdict::Need,
                )
            } else if letter == b'm' {
                (
                    GlueState::Word {
                        part: GluePart::Shrink {
                            width,
                            stretch: 0,
                            order: Order::Normal,
                        },
                        letters: PartLetters::M,
                    },
                    Verdict::Need,
                )
            } else {
                broken(mu, stretch, 1)
            }
        }
        None => broken(mu, stretch, 1),
    }
}

// What stands behind the stretch.
fn behind_stretch(
    mu: bool,
    width: i32,
    stretch: i32,
    order: Order,
    is_space: bool,
    letter: Option<u8>,
) -> (GlueState, Verdict)
    ensures { result ≡ stretch_step mu width stretch order is_space letter }
{
    if is_space {
        return (
            GlueState::BehindStretch {
                width,
                stretch,
                order,
            },
            Verdict::Need,
        );
    }
    let shrink = GluePart::Shrink {
        width,
        stretch,
        order,
    };
    match letter {
        Some(letter) => {
            if letter == b'm' {
                (
                    GlueState::Word {
                        part: shrink,
                        letters: PartLetters::M,
                    },
                    Verdict::Need,
                )
            } else {
                broken(mu, shrink, 1)
            }
        }
        None => broken(mu, shrink, 1),
    }
}

// What stands behind letters of a keyword.
fn behind_letters(
    mu: bool,
    part: GluePart,
    letters: PartLetters,
    letter: Option<u8>,
) -> (GlueState, Verdict)
    ensures { result ≡ word_step mu part letters letter }
{
    match letter {
        Some(letter) => {
            if letter == letters.expected() {
                behind_letter(part, letters.following())
            } else {
                broken(mu, part, letters.given_back())
            }
        }
        None => broken(mu, part, letters.given_back()),
    }
}

// The keyword goes on, or the part begins.
fn behind_letter(part: GluePart, letters: Option<PartLetters>) -> (GlueState, Verdict)
    ensures { result ≡ following_step part letters }
{
    match letters {
        Some(letters) => (GlueState::Word { part, letters }, Verdict::Need),
        None => (
            GlueState::Part {
                part,
                state: DimenState::Signs { negative: false },
            },
            Verdict::Need,
        ),
    }
}

// ---- parts

// A part has ended.
fn ended(mu: bool, part: GluePart, value: i32, order: Order) -> (GlueState, Verdict)
    ensures { result ≡ ended_step mu part value order }
{
    match part {
        GluePart::Width => (GlueState::BehindWidth { width: value }, Verdict::Need),
        GluePart::Stretch { width } => (
            GlueState::BehindStretch {
                width,
                stretch: value,
                order,
            },
            Verdict::Need,
        ),
        GluePart::Shrink {
            width,
            stretch,
            order: stretch_order,
        } => (
            GlueState::Ended,
            Verdict::Done(whole(mu, width, stretch, stretch_order, value, order)),
        ),
    }
}

// A part has ended in front of a space, a letter, or anything else.
fn ended_before(
    mu: bool,
    part: GluePart,
    value: i32,
    order: Order,
    is_space: bool,
    letter: Option<u8>,
) -> (GlueState, Verdict)
    ensures { result ≡ ended_before_step mu part value order is_space letter }
{
    match part {
        GluePart::Width => behind_width(mu, value, is_space, letter),
        GluePart::Stretch { width } => behind_stretch(mu, width, value, order, is_space, letter),
        GluePart::Shrink {
            width,
            stretch,
            order: stretch_order,
        } => (
            GlueState::Ended,
            Verdict::DoneBefore {
                number: whole(mu, width, stretch, stretch_order, value, order),
                back: 1,
            },
        ),
    }
}

// Where a step of a part leads, if this was taken: a space, a letter, or anything else.
fn follow(
    mu: bool,
    part: GluePart,
    step: DimenStep,
    is_space: bool,
    letter: Option<u8>,
) -> (GlueState, Verdict)
    ensures { result ≡ followed_step mu part step is_space letter }
{
    match step {
        DimenStep::Going { state, verdict } => (GlueState::Part { part, state }, verdict),
        DimenStep::Finished {
            value,
            order,
            given_back,
        } => {
            if given_back {
                ended_before(mu, part, value, order, is_space, letter)
            } else {
                ended(mu, part, value, order)
            }
        }
    }
}

fn kind_of(mu: bool, part: GluePart) -> DimenKind
    ensures { result ≡ record { mu = mu; orders = orders_of part } }
{
    DimenKind {
        mu,
        orders: part.orders(),
    }
}

// A token of a part, or behind it.
fn take_in_part(
    mu: bool,
    part: GluePart,
    state: DimenState,
    token: Token,
    meaning: &Meaning,
) -> (GlueState, Verdict)
    requires { state_awaits state ≡ NextToken }
    ensures leads { GlueLeads mu (λ more. state_rest mu (orders_of part) state (next_of mu part) (Seen token meaning.now) more) result }
    ensures awaits { glue_awaits result.0 ≡ awaited_after result.1 }
{
    let kind = kind_of(mu, part);
    let step = dimen_scan::take_token(kind, state, token, meaning);
    follow(
        mu,
        part,
        step,
        start::is_space(meaning),
        keyword::letter_of(token),
    )
}

// A value for a part.
fn answer_in_part(mu: bool, part: GluePart, state: DimenState, n: Number) -> (GlueState, Verdict)
    requires { state_awaits state ≡ Answer }
    ensures leads { GlueLeads mu (λ more. state_rest mu (orders_of part) state (next_of mu part) (Told n) more) result }
    ensures awaits { glue_awaits result.0 ≡ awaited_after result.1 }
{
    let kind = kind_of(mu, part);
    let step = dimen_scan::take_value(kind, state, n);
    follow(mu, part, step, false, None)
}

// The word to go on for a part.
fn resume_in_part(mu: bool, part: GluePart, state: DimenState) -> (GlueState, Verdict)
    requires { state_awaits state ≡ Resumption }
    ensures leads { GlueLeads mu (λ more. state_rest mu (orders_of part) state (next_of mu part) Resumed more) result }
    ensures awaits { glue_awaits result.0 ≡ awaited_after result.1 }
{
    let step = dimen_scan::go_on(state);
    follow(mu, part, step, false, None)
}

// ---- tokens, answers and resumptions

// The token behind signs and spaces.
fn begin(
    mu: bool,
    negative: bool,
    start: Start,
    token: Token,
    meaning: &Meaning,
) -> (GlueState, Verdict)
    requires { start ≡ start_of token meaning.now }
    ensures leads { GlueLeads mu (λ more. signed_glue mu negative (Seen token meaning.now ∷ more)) result }
    ensures awaits { glue_awaits result.0 ≡ awaited_after result.1 }
{
    match start {
        Start::Space => (GlueState::Signs { negative }, Verdict::Need),
        Start::Plus => (GlueState::Signs { negative }, Verdict::Need),
        Start::Minus => (
            GlueState::Signs {
                negative: !negative,
            },
            Verdict::Need,
        ),
        Start::Wanted(quantity) => (GlueState::Asked { negative }, Verdict::Ask(quantity)),
        Start::Expression(k) => (GlueState::Asked { negative }, Verdict::Sub(Phrase::Expr(k))),
        Start::Accent => begin_width(mu, negative, token, meaning),
        Start::Octal => begin_width(mu, negative, token, meaning),
        Start::Hexadecimal => begin_width(mu, negative, token, meaning),
        Start::Given(_) => begin_width(mu, negative, token, meaning),
        Start::Other => begin_width(mu, negative, token, meaning),
    }
}

// The first token of a width that doesn't begin with a quantity to be asked for.
fn begin_width(mu: bool, negative: bool, token: Token, meaning: &Meaning) -> (GlueState, Verdict)
    ensures leads { GlueLeads mu (λ more. signed_dimension mu false negative (behind_width mu) (Seen token meaning.now ∷ more)) result }
    ensures awaits { glue_awaits result.0 ≡ awaited_after result.1 }
{
    take_in_part(
        mu,
        GluePart::Width,
        DimenState::Signs { negative },
        token,
        meaning,
    )
}

// The value of a quantity with which the glue begins.
fn begin_with(mu: bool, negative: bool, n: Number) -> (GlueState, Verdict)
    requires { IsNegatable n }
    ensures leads { GlueLeads mu (λ more. glue_begins_with mu negative n more) result }
    ensures awaits { glue_awaits result.0 ≡ awaited_after result.1 }
{
    match n {
        Number::Int(_) => answer_in_part(mu, GluePart::Width, DimenState::Asked { negative }, n),
        Number::Dimen(_) => answer_in_part(mu, GluePart::Width, DimenState::Asked { negative }, n),
        Number::Glue(glue) => {
            if mu {
                incompatible()
            } else {
                (
                    GlueState::Ended,
                    Verdict::Done(Number::Glue(with_sign(negative, glue))),
                )
            }
        }
        Number::MuGlue(glue) => {
            if mu {
                (
                    GlueState::Ended,
                    Verdict::Done(Number::MuGlue(with_sign(negative, glue))),
                )
            } else {
                incompatible()
            }
        }
    }
}

fn incompatible() -> (GlueState, Verdict)
    ensures { result ≡ (GlueState.Ended, Verdict.Trouble Kind.IncompatibleGlue) }
{
    (GlueState::Ended, Verdict::Trouble(Kind::IncompatibleGlue))
}

fn take_token(mu: bool, state: GlueState, token: Token, meaning: &Meaning) -> (GlueState, Verdict)
    requires { glue_awaits state ≡ NextToken }
    ensures leads { GlueLeads mu (λ more. glue_rest mu state (Seen token meaning.now) more) result }
    ensures awaits { glue_awaits result.0 ≡ awaited_after result.1 }
{
    match state {
        GlueState::Signs { negative } => begin(
            mu,
            negative,
            start::start_of(token, meaning),
            token,
            meaning,
        ),
        GlueState::Part { part, state } => take_in_part(mu, part, state, token, meaning),
        GlueState::BehindWidth { width } => behind_width(
            mu,
            width,
            start::is_space(meaning),
            keyword::letter_of(token),
        ),
        GlueState::BehindStretch {
            width,
            stretch,
            order,
        } => behind_stretch(
            mu,
            width,
            stretch,
            order,
            start::is_space(meaning),
            keyword::letter_of(token),
        ),
        GlueState::Word { part, letters } => behind_letters(
            mu,
            part,
            letters,
            keyword::letter_of(token),
        ),
        GlueState::Asked { .. } | GlueState::Ended => unreachable!(),
    }
}

fn take_value(mu: bool, state: GlueState, n: Number) -> (GlueState, Verdict)
    requires asked { glue_awaits state ≡ Answer }
    requires negatable { IsNegatable n }
    ensures leads { GlueLeads mu (λ more. glue_rest mu state (Told n) more) result }
    ensures awaits { glue_awaits result.0 ≡ awaited_after result.1 }
{
    match state {
        GlueState::Asked { negative } => begin_with(mu, negative, n),
        GlueState::Part { part, state } => answer_in_part(mu, part, state, n),
        GlueState::Signs { .. }
        | GlueState::BehindWidth { .. }
        | GlueState::BehindStretch { .. }
        | GlueState::Word { .. }
        | GlueState::Ended => unreachable!(),
    }
}

fn go_on(mu: bool, state: GlueState) -> (GlueState, Verdict)
    requires { glue_awaits state ≡ Resumption }
    ensures leads { GlueLeads mu (λ more. glue_rest mu state Resumed more) result }
    ensures awaits { glue_awaits result.0 ≡ awaited_after result.1 }
{
    match state {
        GlueState::Part { part, state } => resume_in_part(mu, part, state),
        GlueState::Signs { .. }
        | GlueState::Asked { .. }
        | GlueState::BehindWidth { .. }
        | GlueState::BehindStretch { .. }
        | GlueState::Word { .. }
        | GlueState::Ended => unreachable!(),
    }
}
