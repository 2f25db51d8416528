//! A phrase takes one thing more, and says what it wants next.
#![tactic(auto, using(asking::specs::Asked::asking))]

ghost use Rattle.std.specs.Prelude.{◌≡◌, ◌==◌, [], ◌∷◌, List, Option, IfOk, if◌then◌else◌, true, false};
ghost use Rattle.scan_nums.specs.Number.{first_number};
ghost use Rattle.scan_nums.specs.Starts.{is_space};
ghost use Rattle.gullet.specs.Progress.{rest, rest_behind, WhileOpen, Steps, is_plain, is_deciding};
ghost use Rattle.gullet.specs.Wants.{Taken, done, only, number_told, level_told, word_told, goes_on, holds_told, is_odd, quantity, the_value, the_primitive, the_register, register_list_want, parameter_list_want, test_want, is_relax, may_be_marked, glyph_of, glyph_if, alike, first_by, second_by, cases_before, is_reached, one_less, case_of, cases_want, text_told, second_want, relation_of, holds, decided, false_want, to_fi_want, byte_of, name_by, name_from, letter_of, file_by, file_from, is_end_of_name};

use crate::gathering::take_text;
use crate::meanings::{expansion, is_looked_at};
use crate::progress::Progress;
use crate::task::{Act, Glyph, Numerals, Part, Task, Test, Told, Want};
use scan_nums::{Number, Quantity};
use std::alloc::{AllocError, Global};
use tokens::{Kind, Meaning, RegKind, Text, Token, codes};

/// The number that is told, 0 where none is.
pub fn number_told(told: &Told) -> Number
    ensures { result ≡ number_told told.now }
{
    match told {
        Told::Number(number) => *number,
        Told::Done
        | Told::Word(_)
        | Told::Level(_)
        | Told::GoOn
        | Told::Text(_)
        | Told::Holds(_)
        | Told::Tokens(_)
        | Told::Definition { .. } => Number::Int(0),
    }
}

/// How many conditions are open, 0 where that isn't told.
fn level_told(told: &Told) -> u32
    ensures { result ≡ level_told told.now }
{
    match told {
        Told::Level(level) => *level,
        Told::Done
        | Told::Number(_)
        | Told::Word(_)
        | Told::GoOn
        | Told::Text(_)
        | Told::Holds(_)
        | Told::Tokens(_)
        | Told::Definition { .. } => 0,
    }
}

/// The word that ended a text, that of `\fi` where none is told.
fn word_told(told: &Told) -> u8
    ensures { result ≡ word_told told.now }
{
    match told {
        Told::Word(word) => *word,
        Told::Done
        | Told::Number(_)
        | Told::Level(_)
        | Told::GoOn
        | Told::Text(_)
        | Told::Holds(_)
        | Told::Tokens(_)
        | Told::Definition { .. } => 0,
    }
}

/// Whether there is more to pass over.
fn goes_on(told: &Told) -> bool
    ensures { result ≡ goes_on told.now }
{
    match told {
        Told::GoOn => true,
        Told::Done
        | Told::Number(_)
        | Told::Word(_)
        | Told::Level(_)
        | Told::Text(_)
        | Told::Holds(_)
        | Told::Tokens(_)
        | Told::Definition { .. } => false,
    }
}

/// Whether what was asked is so.
fn holds_told(told: &Told) -> bool
    ensures { result ≡ holds_told told.now }
{
    match told {
        Told::Holds(holds) => *holds,
        Told::Done
        | Told::Number(_)
        | Told::Word(_)
        | Told::Level(_)
        | Told::GoOn
        | Told::Text(_)
        | Told::Tokens(_)
        | Told::Definition { .. } => false,
    }
}

/// The text that is told, without bytes where none is.
pub fn text_told(alloc: Global, told: Told) -> Text
    ensures { result ≡ text_told told }
{
    match told {
        Told::Text(text) => text,
        Told::Done
        | Told::Number(_)
        | Told::Word(_)
        | Told::Level(_)
        | Told::GoOn
        | Told::Holds(_)
        | Told::Tokens(_)
        | Told::Definition { .. } => Text::new(Vec::new(alloc)),
    }
}

/// The phrase is at its end, and tells nothing.
fn finished() -> (Progress, Want)
    ensures want { result.1 ≡ Want.Gives Told.Done Option.None }
    ensures plain { is_plain result.0 ≡ true }
{
    (
        Progress::Telling,
        Want::Gives {
            told: Told::Done,
            back: None,
        },
    )
}

/// Something is done, and that is all.
pub fn last_act(act: Act) -> (Progress, Want)
    ensures progress { result.0 ≡ Progress.Finishing Option.None }
    ensures want { result.1 ≡ Want.Act act }
{
    (Progress::Finishing { back: None }, Want::Act(act))
}

/// A phrase other than a number, a text that is passed over and a macro's call takes one thing more: a token with its
/// meaning, or what is told. What the phrase doesn't look at is of no account.
pub fn step(
    alloc: Global,
    progress: Progress,
    token: Token,
    meaning: &Meaning,
    told: Told,
) -> Result<(Progress, Want), AllocError>
    requires { is_plain progress ≡ true }
    ensures want { IfOk result (λ r. r.1 ≡ rest progress token meaning.now told []) }
    ensures steps { IfOk result (λ r. WhileOpen r.1 (Steps progress token meaning.now told r.0)) }
    ensures plain { IfOk result (λ r. is_plain r.0 ≡ true) }
{
    if is_deciding(&progress) {
        Ok(decide(progress, token, meaning, &told))
    } else {
        take_one(alloc, progress, token, meaning, told)
    }
}

/// The same of any other phrase than a condition.
fn take_one(
    alloc: Global,
    progress: Progress,
    token: Token,
    meaning: &Meaning,
    told: Told,
) -> Result<(Progress, Want), AllocError>
    requires plain { is_plain progress ≡ true }
    requires other { is_deciding progress ≡ false }
    ensures want { IfOk result (λ r. r.1 ≡ rest progress token meaning.now told []) }
    ensures steps { IfOk result (λ r. WhileOpen r.1 (Steps progress token meaning.now told r.0)) }
    ensures plain { IfOk result (λ r. is_plain r.0 ≡ true) }
{
    match progress {
        Progress::Number(_)
        | Progress::Passing { .. }
        | Progress::Call(_)
        | Progress::Opened(_)
        | Progress::OddNumber { .. }
        | Progress::Asked { .. }
        | Progress::FirstGlyph { .. }
        | Progress::FirstActive { .. }
        | Progress::SecondGlyph { .. }
        | Progress::SecondActive { .. }
        | Progress::CaseNumber { .. }
        | Progress::Cases { .. }
        | Progress::CasesLeft { .. }
        | Progress::FirstNumber { .. }
        | Progress::Relation { .. }
        | Progress::SecondNumber { .. }
        | Progress::PassedOver { .. }
        | Progress::Left { .. } => unreachable!(),
        Progress::Finishing { back } => Ok((
            Progress::Telling,
            Want::Gives {
                told: Told::Done,
                back,
            },
        )),
        Progress::Telling => Ok((Progress::Telling, Want::Gives { told, back: None })),
        Progress::ExpandFirst => Ok((Progress::ExpandSecond { first: token }, Want::Raw)),
        Progress::ExpandSecond { first } => expand_second(first, token, meaning),
        Progress::Value { straight } => Ok(value(straight, token, meaning)),
        Progress::ListNumber { straight } => Ok(register_list(straight, number_told(&told))),
        Progress::Digits(numerals) => Ok(last_act(Act::Digits {
            numerals,
            number: number_told(&told),
        })),
        Progress::RegisterNumber { code } => Ok((
            Progress::Telling,
            Want::Act(Act::LookNumbered {
                code,
                number: number_told(&told),
            }),
        )),
        Progress::Met => Ok(met(goes_on(&told))),
        Progress::ToFi => Ok(to_fi(word_told(&told))),
        Progress::Name { text } => name(text, token, meaning),
        Progress::FileStart => file_start(alloc, token, meaning),
        Progress::File { text } => file(text, token, meaning),
        Progress::Named => Ok(last_act(Act::ReadFile(text_told(alloc, told)))),
        Progress::Text(text) => take_text(alloc, text, token, meaning, told),
    }
}

/// Whether a phrase is a condition that is decided, or whose branch is sought.
fn is_deciding(progress: &Progress) -> bool
    ensures { result ≡ is_deciding progress.now }
{
    match progress {
        Progress::Opened(_)
        | Progress::OddNumber { .. }
        | Progress::Asked { .. }
        | Progress::FirstGlyph { .. }
        | Progress::FirstActive { .. }
        | Progress::SecondGlyph { .. }
        | Progress::SecondActive { .. }
        | Progress::CaseNumber { .. }
        | Progress::Cases { .. }
        | Progress::CasesLeft { .. }
        | Progress::FirstNumber { .. }
        | Progress::Relation { .. }
        | Progress::SecondNumber { .. }
        | Progress::PassedOver { .. }
        | Progress::Left { .. } => true,
        Progress::Number(_)
        | Progress::Passing { .. }
        | Progress::Call(_)
        | Progress::Finishing { .. }
        | Progress::Telling
        | Progress::ExpandFirst
        | Progress::ExpandSecond { .. }
        | Progress::Value { .. }
        | Progress::ListNumber { .. }
        | Progress::Digits(_)
        | Progress::RegisterNumber { .. }
        | Progress::Met
        | Progress::ToFi
        | Progress::Name { .. }
        | Progress::FileStart
        | Progress::File { .. }
        | Progress::Named
        | Progress::Text(_) => false,
    }
}

/// A condition that is decided, or whose branch is sought, takes one thing more.
fn decide(progress: Progress, token: Token, meaning: &Meaning, told: &Told) -> (Progress, Want)
    requires { is_deciding progress ≡ true }
    ensures want { result.1 ≡ rest progress token meaning.now told.now [] }
    ensures steps { WhileOpen result.1 (Steps progress token meaning.now told.now result.0) }
    ensures plain { is_plain result.0 ≡ true }
{
    match progress {
        Progress::Opened(test) => opened(test, level_told(told)),
        Progress::OddNumber { level } => decided(level, is_odd(number_told(told).first())),
        Progress::Asked { level } => decided(level, holds_told(told)),
        Progress::FirstGlyph { part, level } => first_glyph(part, level, token, meaning),
        Progress::FirstActive {
            part,
            level,
            active,
        } => (
            Progress::SecondGlyph {
                part,
                level,
                first: glyph_if(holds_told(told), active),
            },
            Want::Expanded,
        ),
        Progress::SecondGlyph { part, level, first } => second_glyph(
            part, level, first, token, meaning,
        ),
        Progress::SecondActive {
            part,
            level,
            first,
            active,
        } => decided(
            level,
            alike(part, first, glyph_if(holds_told(told), active)),
        ),
        Progress::CaseNumber { level } => case_number(level, number_told(told)),
        Progress::Cases { level, left } => (
            Progress::CasesLeft { level, left },
            Want::Act(Act::Leave {
                word: word_told(told),
                level,
            }),
        ),
        Progress::CasesLeft { level, left } => case_passed(level, left, told),
        Progress::FirstNumber { level } => (
            Progress::Relation {
                level,
                first: number_told(told),
            },
            Want::Expanded,
        ),
        Progress::Relation { level, first } => relation(level, first, token, meaning),
        Progress::SecondNumber {
            level,
            relation,
            first,
        } => decided(
            level,
            holds(relation, first.first(), number_told(told).first()),
        ),
        Progress::PassedOver { level } => (
            Progress::Left { level },
            Want::Act(Act::Leave {
                word: word_told(told),
                level,
            }),
        ),
        Progress::Left { level } => left(level, goes_on(told)),
        Progress::Number(_)
        | Progress::Passing { .. }
        | Progress::Call(_)
        | Progress::Finishing { .. }
        | Progress::Telling
        | Progress::ExpandFirst
        | Progress::ExpandSecond { .. }
        | Progress::Value { .. }
        | Progress::ListNumber { .. }
        | Progress::Digits(_)
        | Progress::RegisterNumber { .. }
        | Progress::Met
        | Progress::ToFi
        | Progress::Name { .. }
        | Progress::FileStart
        | Progress::File { .. }
        | Progress::Named
        | Progress::Text(_) => unreachable!(),
    }
}

fn expand_second(
    first: Token,
    second: Token,
    meaning: &Meaning,
) -> Result<(Progress, Want), AllocError>
    ensures want { IfOk result (λ r. r.1 ≡ second_want second meaning.now) }
    ensures progress { IfOk result (λ r. r.0 ≡ Progress.Finishing (Option.Some first)) }
{
    let want = match expansion(second, meaning)? {
        None => Want::Act(Act::Return(second)),
        Some(task) => Want::Inner(task),
    };
    Ok((Progress::Finishing { back: Some(first) }, want))
}

/// A quantity is looked at, and its digits are put in front.
fn shown(code: u16, index: Option<u16>) -> (Progress, Want)
    ensures progress { result.0 ≡ Progress.Digits Numerals.Decimal }
    ensures want { result.1 ≡ Want.Inner (Task.QuantityValue (quantity code index)) }
{
    (
        Progress::Digits(Numerals::Decimal),
        Want::Inner(Task::QuantityValue(Quantity { code, index })),
    )
}

/// The digits of a number are put in front.
fn given(number: i32) -> (Progress, Want)
    ensures progress { result.0 ≡ Progress.Finishing Option.None }
    ensures want { result.1 ≡ Want.Act (Act.Digits Numerals.Decimal (Number.Int number)) }
{
    last_act(Act::Digits {
        numerals: Numerals::Decimal,
        number: Number::Int(number),
    })
}

/// What `\the` shows where it stands in front of this token.
fn value(straight: bool, token: Token, meaning: &Meaning) -> (Progress, Want)
    ensures want { result.1 ≡ the_value straight token meaning.now [] }
    ensures steps { WhileOpen result.1 ((x : Taken) (xs : List Taken) → the_value straight token meaning.now (x ∷ xs) ≡ rest_behind result.0 x xs) }
    ensures plain { is_plain result.0 ≡ true }
{
    match meaning {
        Meaning::Primitive(code) => value_of_primitive(straight, token, *code),
        Meaning::CharDef(byte) => given(i32::from(*byte)),
        Meaning::MathCharDef(number) => given(i32::from(*number)),
        Meaning::Register { kind, number } => value_of_register(straight, token, *kind, *number),
        Meaning::Undefined | Meaning::Macro(_) | Meaning::Char { .. } | Meaning::Font(_) =>
            last_act(Act::CantUse(token)),
    }
}

/// The list of a token register goes straight into a text, or is put in front.
fn register_list(straight: bool, number: Number) -> (Progress, Want)
    ensures want { result.1 ≡ register_list_want straight number [] }
    ensures steps { WhileOpen result.1 ((x : Taken) (xs : List Taken) → register_list_want straight number (x ∷ xs) ≡ rest_behind result.0 x xs) }
    ensures plain { is_plain result.0 ≡ true }
{
    if straight {
        (Progress::Telling, Want::Act(Act::TellRegister(number)))
    } else {
        last_act(Act::PutRegister(number))
    }
}

/// The same of the list of a token parameter.
fn parameter_list(straight: bool, code: u16) -> (Progress, Want)
    ensures want { result.1 ≡ parameter_list_want straight code [] }
    ensures steps { WhileOpen result.1 ((x : Taken) (xs : List Taken) → parameter_list_want straight code (x ∷ xs) ≡ rest_behind result.0 x xs) }
    ensures plain { is_plain result.0 ≡ true }
{
    if straight {
        (Progress::Telling, Want::Act(Act::TellParameter(code)))
    } else {
        last_act(Act::PutParameter(code))
    }
}

fn value_of_primitive(straight: bool, token: Token, code: u16) -> (Progress, Want)
    ensures want { result.1 ≡ the_primitive straight token code [] }
    ensures steps { WhileOpen result.1 ((x : Taken) (xs : List Taken) → the_primitive straight token code (x ∷ xs) ≡ rest_behind result.0 x xs) }
    ensures plain { is_plain result.0 ≡ true }
{
    if is_looked_at(code) {
        shown(code, None)
    } else if code == codes::TOKS {
        (
            Progress::ListNumber { straight },
            Want::Inner(Task::WholeNumber),
        )
    } else if codes::OUTPUT <= code && code <= codes::ERRHELP {
        parameter_list(straight, code)
    } else {
        last_act(Act::CantUse(token))
    }
}

fn value_of_register(straight: bool, token: Token, kind: RegKind, place: u16) -> (Progress, Want)
    ensures want { result.1 ≡ the_register straight token kind place [] }
    ensures steps { WhileOpen result.1 ((x : Taken) (xs : List Taken) → the_register straight token kind place (x ∷ xs) ≡ rest_behind result.0 x xs) }
    ensures plain { is_plain result.0 ≡ true }
{
    match kind {
        RegKind::Count => shown(codes::COUNT, Some(place)),
        RegKind::Dimen => shown(codes::DIMEN, Some(place)),
        RegKind::Skip => shown(codes::SKIP, Some(place)),
        RegKind::Muskip => shown(codes::MUSKIP, Some(place)),
        RegKind::Box => last_act(Act::CantUse(token)),
        RegKind::Toks => register_list(straight, Number::Int(i32::from(place))),
    }
}

/// A condition that was opened is decided.
fn opened(test: Test, level: u32) -> (Progress, Want)
    ensures want { result.1 ≡ test_want test level [] }
    ensures steps { WhileOpen result.1 ((x : Taken) (xs : List Taken) → test_want test level (x ∷ xs) ≡ rest_behind result.0 x xs) }
    ensures plain { is_plain result.0 ≡ true }
{
    match test {
        Test::Alike(part) => (Progress::FirstGlyph { part, level }, Want::Expanded),
        Test::Number => (
            Progress::FirstNumber { level },
            Want::Inner(Task::WholeNumber),
        ),
        Test::Odd => (
            Progress::OddNumber { level },
            Want::Inner(Task::WholeNumber),
        ),
        Test::Mode(mode) => (Progress::Asked { level }, Want::Act(Act::AskMode(mode))),
        Test::SameMeaning => (Progress::Asked { level }, Want::Act(Act::AskSame)),
        Test::Always(holds) => decided(level, holds),
        Test::Case => (
            Progress::CaseNumber { level },
            Want::Inner(Task::WholeNumber),
        ),
    }
}

/// Whether a meaning is that of `\relax`.
pub fn is_relax(meaning: &Meaning) -> bool
    ensures { result ≡ is_relax meaning.now }
{
    match meaning {
        Meaning::Primitive(code) => *code == codes::RELAX,
        Meaning::Undefined
        | Meaning::Macro(_)
        | Meaning::Char { .. }
        | Meaning::CharDef(_)
        | Meaning::MathCharDef(_)
        | Meaning::Register { .. }
        | Meaning::Font(_) => false,
    }
}

/// Whether a token may be an active character that isn't to be expanded.
fn may_be_marked(token: Token, meaning: &Meaning) -> bool
    ensures { result ≡ may_be_marked token meaning.now }
{
    match token {
        Token::Active(_) => is_relax(meaning),
        Token::Char { .. } | Token::Name(_) | Token::Arg(_) | Token::Frozen(_) => false,
    }
}

/// The character that a token is to `\if`.
fn glyph_of(meaning: &Meaning) -> Option<Glyph>
    ensures { result ≡ glyph_of meaning.now }
{
    match meaning {
        Meaning::Char { cat, byte } => Some(Glyph {
            cat: *cat,
            byte: *byte,
        }),
        Meaning::Undefined
        | Meaning::Primitive(_)
        | Meaning::Macro(_)
        | Meaning::CharDef(_)
        | Meaning::MathCharDef(_)
        | Meaning::Register { .. }
        | Meaning::Font(_) => None,
    }
}

/// The category of active characters.
const ACTIVE: u8 = 13;

/// The character that an active one is, where it isn't to be expanded.
fn glyph_if(is_marked: bool, token: Token) -> Option<Glyph>
    ensures { result ≡ glyph_if is_marked token }
{
    if !is_marked {
        return None;
    }
    match token {
        Token::Active(byte) => Some(Glyph { cat: ACTIVE, byte }),
        Token::Char { .. } | Token::Name(_) | Token::Arg(_) | Token::Frozen(_) => None,
    }
}

/// Whether two characters are alike in a part. What is no character is like what is none.
fn alike(part: Part, a: Option<Glyph>, b: Option<Glyph>) -> bool
    ensures { result ≡ alike part a b }
{
    match (a, b) {
        (None, None) => true,
        (Some(a), Some(b)) => match part {
            Part::Code => a.byte == b.byte,
            Part::Category => a.cat == b.cat,
        },
        (None, Some(_)) | (Some(_), None) => false,
    }
}

/// The first token of `\if` or `\ifcat`.
fn first_glyph(part: Part, level: u32, token: Token, meaning: &Meaning) -> (Progress, Want)
    ensures want { result.1 ≡ first_by part level token meaning.now [] }
    ensures steps { WhileOpen result.1 ((x : Taken) (xs : List Taken) → first_by part level token meaning.now (x ∷ xs) ≡ rest_behind result.0 x xs) }
    ensures plain { is_plain result.0 ≡ true }
{
    if may_be_marked(token, meaning) {
        return (
            Progress::FirstActive {
                part,
                level,
                active: token,
            },
            Want::Act(Act::AskMarked(token)),
        );
    }
    (
        Progress::SecondGlyph {
            part,
            level,
            first: glyph_of(meaning),
        },
        Want::Expanded,
    )
}

/// The second token of `\if` or `\ifcat`.
fn second_glyph(
    part: Part,
    level: u32,
    first: Option<Glyph>,
    token: Token,
    meaning: &Meaning,
) -> (Progress, Want)
    ensures want { result.1 ≡ second_by part level first token meaning.now [] }
    ensures steps { WhileOpen result.1 ((x : Taken) (xs : List Taken) → second_by part level first token meaning.now (x ∷ xs) ≡ rest_behind result.0 x xs) }
    ensures plain { is_plain result.0 ≡ true }
{
    if may_be_marked(token, meaning) {
        return (
            Progress::SecondActive {
                part,
                level,
                first,
                active: token,
            },
            Want::Act(Act::AskMarked(token)),
        );
    }
    decided(level, alike(part, first, glyph_of(meaning)))
}

/// How many cases are passed over; for a negative number there is no case behind which one is read.
fn cases_before(number: Number) -> Option<u32>
    ensures { result ≡ cases_before (first_number number) }
{
    match u32::try_from(number.first()) {
        Ok(number) => Some(number),
        Err(_) => None,
    }
}

/// Whether the case is reached.
fn is_reached(left: Option<u32>) -> bool
    ensures { result ≡ is_reached left }
{
    match left {
        None => false,
        Some(left) => left == 0,
    }
}

/// One case was passed over.
fn one_less(left: Option<u32>) -> Option<u32>
    ensures { result ≡ one_less left }
{
    match left {
        None => None,
        Some(left) => Some(left.saturating_sub(1)),
    }
}

/// The case that is sought is read, or further cases are passed over.
fn case_of(level: u32, left: Option<u32>) -> (Progress, Want)
    ensures want { result.1 ≡ case_of level left [] }
    ensures steps { WhileOpen result.1 ((x : Taken) (xs : List Taken) → case_of level left (x ∷ xs) ≡ rest_behind result.0 x xs) }
    ensures plain { is_plain result.0 ≡ true }
{
    case_if(level, left, is_reached(left))
}

/// The same by whether the case is reached.
#[tactic(auto, using(asking::specs::Asked::asking, crate::proofs::Cases::cases))]
fn case_if(level: u32, left: Option<u32>, is_reached: bool) -> (Progress, Want)
    ensures want { result.1 ≡ (if is_reached then only (Want.Act (Act.Choose level)) [] else cases_want level left []) }
    ensures steps { WhileOpen result.1 ((x : Taken) (xs : List Taken)
        → (if is_reached then only (Want.Act (Act.Choose level)) (x ∷ xs) else cases_want level left (x ∷ xs)) ≡ rest_behind result.0 x xs) }
    ensures plain { is_plain result.0 ≡ true }
{
    if is_reached {
        choose(level)
    } else {
        (
            Progress::Cases { level, left },
            Want::Inner(Task::PassOver(1)),
        )
    }
}

/// The number of `\ifcase`.
fn case_number(level: u32, number: Number) -> (Progress, Want)
    ensures want { result.1 ≡ case_of level (cases_before (first_number number)) [] }
    ensures steps { WhileOpen result.1 ((x : Taken) (xs : List Taken)
        → case_of level (cases_before (first_number number)) (x ∷ xs) ≡ rest_behind result.0 x xs) }
    ensures plain { is_plain result.0 ≡ true }
{
    case_of(level, cases_before(number))
}

/// By what a case that was passed over was left with.
fn case_passed(level: u32, left: Option<u32>, told: &Told) -> (Progress, Want)
    ensures want { result.1 ≡ rest (Progress.CasesLeft level left) (Token.Frozen 0) Meaning.Undefined told.now [] }
    ensures steps { WhileOpen result.1 (Steps (Progress.CasesLeft level left) (Token.Frozen 0) Meaning.Undefined told.now result.0) }
    ensures plain { is_plain result.0 ≡ true }
{
    behind_case(level, left, goes_on(told), word_told(told))
}

/// A case was passed over, and the next one is reached or passed over too.
fn next_case(level: u32, left: Option<u32>) -> (Progress, Want)
    ensures want { result.1 ≡ case_of level (one_less left) [] }
    ensures steps { WhileOpen result.1 ((x : Taken) (xs : List Taken) → case_of level (one_less left) (x ∷ xs) ≡ rest_behind result.0 x xs) }
    ensures plain { is_plain result.0 ≡ true }
{
    case_of(level, one_less(left))
}

/// The same by whether there is more to pass over, and by the word that ended the case.
#[tactic(auto, using(asking::specs::Asked::asking, crate::proofs::Cases::cases))]
fn behind_case(level: u32, left: Option<u32>, goes_on: bool, word: u8) -> (Progress, Want)
    ensures want { result.1 ≡ (if goes_on then cases_want level left [] else (if word == 2 then case_of level (one_less left) [] else done)) }
    ensures steps { WhileOpen result.1 ((x : Taken) (xs : List Taken)
        → (if goes_on then cases_want level left (x ∷ xs) else (if word == 2 then case_of level (one_less left) (x ∷ xs) else done)) ≡ rest_behind result.0 x xs) }
    ensures plain { is_plain result.0 ≡ true }
{
    if goes_on {
        (
            Progress::Cases { level, left },
            Want::Inner(Task::PassOver(1)),
        )
    } else if word == 2 {
        next_case(level, left)
    } else {
        finished()
    }
}

/// Whether two doesn't divide a number.
fn is_odd(number: i32) -> bool
    ensures { result ≡ is_odd number }
{
    number.unsigned_abs() % 2 == 1
}

/// The relation's byte, where the token is one.
fn relation_of(token: Token) -> Option<u8>
    ensures { result ≡ relation_of token }
{
    match token {
        Token::Char { cat: 12, byte } => {
            if b'<' <= byte && byte <= b'>' {
                Some(byte)
            } else {
                None
            }
        }
        Token::Char { .. } | Token::Active(_) | Token::Name(_) | Token::Arg(_) | Token::Frozen(_) =>
            None,
    }
}

/// Whether a relation holds of two numbers.
fn holds(relation: u8, a: i32, b: i32) -> bool
    ensures { result ≡ holds relation a b }
{
    if relation == b'<' {
        a < b
    } else if relation == b'>' {
        b < a
    } else if a < b {
        false
    } else {
        !(b < a)
    }
}

/// The token in front of which a relation is wanted.
fn relation(level: u32, first: Number, token: Token, meaning: &Meaning) -> (Progress, Want)
    ensures want { result.1 ≡ rest (Progress.Relation level first) token meaning.now Told.Done [] }
    ensures steps { WhileOpen result.1 (Steps (Progress.Relation level first) token meaning.now Told.Done result.0) }
    ensures plain { is_plain result.0 ≡ true }
{
    if is_space(meaning) {
        return (Progress::Relation { level, first }, Want::Expanded);
    }
    match relation_of(token) {
        None => (Progress::Telling, Want::Wrong(Kind::MissingRelation)),
        Some(relation) => (
            Progress::SecondNumber {
                level,
                relation,
                first,
            },
            Want::Inner(Task::WholeNumber),
        ),
    }
}

/// Whether a token is a space, also one that a name stands for.
#[tactic(auto, using(asking::specs::Asked::asking), unfolding(scan_nums::specs::Starts::is_space))]
pub fn is_space(meaning: &Meaning) -> bool
    ensures { result ≡ is_space meaning.now }
{
    match meaning {
        Meaning::Char { cat, .. } => *cat == 10,
        Meaning::Undefined
        | Meaning::Primitive(_)
        | Meaning::Macro(_)
        | Meaning::CharDef(_)
        | Meaning::MathCharDef(_)
        | Meaning::Register { .. }
        | Meaning::Font(_) => false,
    }
}

/// The branch in front of `\else` is read.
fn choose(level: u32) -> (Progress, Want)
    ensures progress { result.0 ≡ Progress.Finishing Option.None }
    ensures want { result.1 ≡ Want.Act (Act.Choose level) }
{
    last_act(Act::Choose(level))
}

fn decided(level: u32, holds: bool) -> (Progress, Want)
    ensures want { result.1 ≡ decided holds level [] }
    ensures steps { WhileOpen result.1 ((x : Taken) (xs : List Taken) → decided holds level (x ∷ xs) ≡ rest_behind result.0 x xs) }
    ensures plain { is_plain result.0 ≡ true }
{
    if holds {
        choose(level)
    } else {
        (
            Progress::PassedOver { level },
            Want::Inner(Task::PassOver(0)),
        )
    }
}

fn left(level: u32, goes_on: bool) -> (Progress, Want)
    ensures want { result.1 ≡ (if goes_on then false_want level [] else done) }
    ensures steps { WhileOpen result.1 ((x : Taken) (xs : List Taken) → (if goes_on then false_want level (x ∷ xs) else done) ≡ rest_behind result.0 x xs) }
    ensures plain { is_plain result.0 ≡ true }
{
    if goes_on {
        (
            Progress::PassedOver { level },
            Want::Inner(Task::PassOver(0)),
        )
    } else {
        finished()
    }
}

fn met(goes_on: bool) -> (Progress, Want)
    ensures want { result.1 ≡ (if goes_on then to_fi_want [] else done) }
    ensures steps { WhileOpen result.1 ((x : Taken) (xs : List Taken) → (if goes_on then to_fi_want (x ∷ xs) else done) ≡ rest_behind result.0 x xs) }
    ensures plain { is_plain result.0 ≡ true }
{
    if goes_on {
        (Progress::ToFi, Want::Inner(Task::PassOver(0)))
    } else {
        finished()
    }
}

fn to_fi(word: u8) -> (Progress, Want)
    ensures want { result.1 ≡ (if word == 0 then only (Want.Act Act.Close) [] else to_fi_want []) }
    ensures steps { WhileOpen result.1 ((x : Taken) (xs : List Taken) → (if word == 0 then only (Want.Act Act.Close) (x ∷ xs) else to_fi_want (x ∷ xs)) ≡ rest_behind result.0 x xs) }
    ensures plain { is_plain result.0 ≡ true }
{
    if word == 0 {
        last_act(Act::Close)
    } else {
        (Progress::ToFi, Want::Inner(Task::PassOver(0)))
    }
}

/// The byte of a character.
fn byte_of(token: Token) -> Option<u8>
    ensures { result ≡ byte_of token }
{
    match token {
        Token::Char { byte, .. } => Some(byte),
        Token::Active(_) | Token::Name(_) | Token::Arg(_) | Token::Frozen(_) => None,
    }
}

/// Whether a token ends a name.
fn is_end_of_name(meaning: &Meaning) -> bool
    ensures { result ≡ is_end_of_name meaning.now }
{
    match meaning {
        Meaning::Primitive(code) => *code == codes::ENDCSNAME,
        Meaning::Undefined
        | Meaning::Macro(_)
        | Meaning::Char { .. }
        | Meaning::CharDef(_)
        | Meaning::MathCharDef(_)
        | Meaning::Register { .. }
        | Meaning::Font(_) => false,
    }
}

/// A token of a name.
fn name(mut text: Vec<u8>, token: Token, meaning: &Meaning) -> Result<(Progress, Want), AllocError>
    ensures want { IfOk result (λ r. r.1 ≡ name_by (λ longer. name_from longer []) text.items (byte_of token) meaning.now []) }
    ensures steps { IfOk result (λ r. WhileOpen r.1 ((x : Taken) (xs : List Taken)
        → name_by (λ longer. name_from longer (x ∷ xs)) text.items (byte_of token) meaning.now (x ∷ xs) ≡ rest_behind r.0 x xs)) }
    ensures plain { IfOk result (λ r. is_plain r.0 ≡ true) }
{
    match byte_of(token) {
        Some(byte) => {
            text.push(byte)?;
            Ok((Progress::Name { text }, Want::Expanded))
        }
        None => {
            if is_end_of_name(meaning) {
                Ok(last_act(Act::MakeName(Text::new(text))))
            } else {
                Ok((Progress::Telling, Want::Wrong(Kind::MissingEndcsname)))
            }
        }
    }
}

/// The byte of a character, also of one that a name stands for, but of no active one.
fn letter_of(meaning: &Meaning) -> Option<u8>
    ensures { result ≡ letter_of meaning.now }
{
    match meaning {
        Meaning::Char { cat, byte } => { if *cat > 12 { None } else { Some(*byte) } }
        Meaning::Undefined
        | Meaning::Primitive(_)
        | Meaning::Macro(_)
        | Meaning::CharDef(_)
        | Meaning::MathCharDef(_)
        | Meaning::Register { .. }
        | Meaning::Font(_) => None,
    }
}

/// A token in front of a file's name.
fn file_start(
    alloc: Global,
    token: Token,
    meaning: &Meaning,
) -> Result<(Progress, Want), AllocError>
    ensures want { IfOk result (λ r. r.1 ≡ rest Progress.FileStart token meaning.now Told.Done []) }
    ensures steps { IfOk result (λ r. WhileOpen r.1 (Steps Progress.FileStart token meaning.now Told.Done r.0)) }
    ensures plain { IfOk result (λ r. is_plain r.0 ≡ true) }
{
    if is_space(meaning) {
        return Ok((Progress::FileStart, Want::Expanded));
    }
    file(Vec::new(alloc), token, meaning)
}

/// A token of a file's name.
fn file(mut text: Vec<u8>, token: Token, meaning: &Meaning) -> Result<(Progress, Want), AllocError>
    ensures want { IfOk result (λ r. r.1 ≡ file_by (λ longer. file_from longer []) text.items (letter_of meaning.now) token) }
    ensures steps { IfOk result (λ r. WhileOpen r.1 ((x : Taken) (xs : List Taken)
        → file_by (λ longer. file_from longer (x ∷ xs)) text.items (letter_of meaning.now) token ≡ rest_behind r.0 x xs)) }
    ensures plain { IfOk result (λ r. is_plain r.0 ≡ true) }
{
    match letter_of(meaning) {
        None => Ok((
            Progress::Telling,
            Want::Gives {
                told: Told::Text(Text::new(text)),
                back: Some(token),
            },
        )),
        Some(b' ') => Ok((
            Progress::Telling,
            Want::Gives {
                told: Told::Text(Text::new(text)),
                back: None,
            },
        )),
        Some(byte) => {
            text.push(byte)?;
            Ok((Progress::File { text }, Want::Expanded))
        }
    }
}
