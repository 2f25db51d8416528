//! What a token means now, and what expansion makes of it (The TeXbook, chapter 20; `tex.web`, parts 25 and 26).
#![tactic(auto, using(asking::specs::Asked::asking), unfolding(crate::specs::Meanings::taken_meaning))]

ghost use Rattle.std.specs.Prelude.{◌≡◌, ◌||◌, is_some, IfOk};
ghost use Rattle.save_groups.specs.Standing.{copies_of};
ghost use Rattle.scan_nums.specs.Starts.{is_asked, is_expression};
ghost use Rattle.gullet.specs.Meanings.{test_of, simple_of, as_task, is_carried_out, is_expandable_code, is_looked_at, is_missing, key_of, known, taken_meaning, expansion, expansion_of_code, is_outer, HasFixed, KnownBy};

use crate::task::{BranchWord, ModeTest, Numerals, Part, Simple, Task, Test};
use save_groups::{Env, Key};
use std::alloc::AllocError;
use tokens::{Meaning, Token, codes};

/// The condition of this name, if it is one that is decided.
fn test_of(code: u16) -> Option<Test>
    ensures { result ≡ test_of code }
{
    if code == codes::IF {
        Some(Test::Alike(Part::Code))
    } else if code == codes::IFCAT {
        Some(Test::Alike(Part::Category))
    } else if code == codes::IFNUM {
        Some(Test::Number)
    } else if code == codes::IFODD {
        Some(Test::Odd)
    } else if code == codes::IFVMODE {
        Some(Test::Mode(ModeTest::Vertical))
    } else if code == codes::IFHMODE {
        Some(Test::Mode(ModeTest::Horizontal))
    } else if code == codes::IFMMODE {
        Some(Test::Mode(ModeTest::Math))
    } else if code == codes::IFINNER {
        Some(Test::Mode(ModeTest::Inner))
    } else if code == codes::IFX {
        Some(Test::SameMeaning)
    } else if code == codes::IFTRUE {
        Some(Test::Always(true))
    } else if code == codes::IFFALSE {
        Some(Test::Always(false))
    } else if code == codes::IFCASE {
        Some(Test::Case)
    } else {
        None
    }
}

/// What is done of a name of which one thing is done.
fn simple_of(code: u16) -> Option<Simple>
    ensures { result ≡ simple_of code }
{
    if code == codes::ENDINPUT {
        Some(Simple::EndInput)
    } else if code == codes::NOEXPAND {
        Some(Simple::NoExpand)
    } else if code == codes::STRING {
        Some(Simple::TokenText)
    } else if code == codes::MEANING {
        Some(Simple::MeaningText)
    } else if code == codes::JOBNAME {
        Some(Simple::JobName)
    } else {
        None
    }
}

/// Whether the expansion of a name is carried out.
fn is_carried_out(code: u16) -> bool
    ensures { result ≡ is_carried_out code }
{
    code == codes::INPUT
        || code == codes::THE
        || code == codes::EXPANDAFTER
        || code == codes::CSNAME
        || code == codes::NUMBER
        || code == codes::ROMANNUMERAL
        || (codes::ELSE <= code && code <= codes::FI)
        || test_of(code).is_some()
        || simple_of(code).is_some()
}

/// Whether a name is one that is expanded.
fn is_expandable_code(code: u16) -> bool
    ensures { result ≡ is_expandable_code code }
{
    code <= codes::FI || (codes::UNEXPANDED <= code && code <= codes::ETEX_REVISION)
}

/// Whether a quantity is looked at.
pub fn is_looked_at(code: u16) -> bool
    ensures { result ≡ is_looked_at code }
{
    (codes::PRETOLERANCE <= code && code <= codes::ERRORCONTEXTLINES)
        || (codes::COUNT <= code && code <= codes::MUSKIP)
        || (codes::CATCODE <= code && code <= codes::DELCODE)
        || code == codes::INPUTLINENO
}

/// Whether a name asks for a number, a dimension or a glue, or for an expression.
fn is_quantity(code: u16) -> bool
    ensures { result ≡ (is_asked code || is_expression code) }
{
    (codes::PRETOLERANCE <= code && code <= codes::THICKMUSKIP)
        || (codes::COUNT <= code && code <= codes::MUSKIP)
        || (codes::WD <= code && code <= codes::SKEWCHAR)
        || (codes::PARSHAPE <= code && code <= codes::BADNESS)
        || (codes::GLUESTRETCH <= code && code <= codes::SAVINGHYPHCODES)
        || (codes::NUMEXPR <= code && code <= codes::MUEXPR)
}

/// Whether a name of the tables is still to come.
fn is_missing(code: u16) -> bool
    ensures { result ≡ is_missing code }
{
    (is_expandable_code(code) && !is_carried_out(code))
        || (is_quantity(code) && !is_looked_at(code))
}

/// The entry that has the meaning of a name or an active character.
pub fn key_of(token: Token) -> Option<Key>
    ensures { result ≡ key_of token }
{
    match token {
        Token::Active(byte) => Some(Key::Active(byte)),
        Token::Name(id) => Some(Key::Name(id)),
        Token::Char { .. } | Token::Arg(_) | Token::Frozen(_) => None,
    }
}

/// The meaning of a token that no environment holds: of a character, of one that isn't to be expanded, and of a name of
/// the tables that is still to come.
#[tactic(auto, using(asking::specs::Asked::asking, crate::proofs::Marks::marks), unfolding(crate::specs::Meanings::taken_meaning))]
pub fn fixed_meaning(env: &Env, token: Token, noexpand: bool) -> Option<Meaning>
    ensures { HasFixed (copies_of env.now) token noexpand result }
{
    match token {
        Token::Char { cat, byte } => Some(Meaning::Char { cat, byte }),
        Token::Frozen(_) => Some(Meaning::Primitive(codes::RELAX)),
        Token::Arg(_) => Some(if noexpand {
            Meaning::Primitive(codes::RELAX)
        } else {
            Meaning::Undefined
        }),
        Token::Active(byte) => fixed_by(noexpand, token, env.meaning(Key::Active(byte))),
        Token::Name(id) => fixed_by(noexpand, token, env.meaning(Key::Name(id))),
    }
}

/// `\relax` where the token isn't to be expanded though it would be; else undefined where the meaning is a name of the
/// tables that is still to come.
fn fixed_by(noexpand: bool, token: Token, meaning: &Meaning) -> Option<Meaning>
    ensures { KnownBy noexpand token meaning.now result }
{
    if noexpand && is_expanded_meaning(token, meaning) {
        return Some(Meaning::Primitive(codes::RELAX));
    }
    match meaning {
        Meaning::Primitive(code) => {
            if is_missing(*code) {
                Some(Meaning::Undefined)
            } else {
                None
            }
        }
        Meaning::Undefined
        | Meaning::Macro(_)
        | Meaning::Char { .. }
        | Meaning::CharDef(_)
        | Meaning::MathCharDef(_)
        | Meaning::Register { .. }
        | Meaning::Font(_) => None,
    }
}

/// The phrase to which the expansion of a token leads, if it is expanded.
pub fn expansion(token: Token, meaning: &Meaning) -> Result<Option<Task>, AllocError>
    ensures { IfOk result (λ task. task ≡ expansion token meaning.now) }
{
    match meaning {
        Meaning::Undefined => Ok(Some(Task::Undefined(token))),
        Meaning::Primitive(code) => Ok(expansion_of_code(token, *code)),
        Meaning::Macro(called) => Ok(Some(Task::Call {
            name: token,
            called: called.share()?,
        })),
        Meaning::Char { .. }
        | Meaning::CharDef(_)
        | Meaning::MathCharDef(_)
        | Meaning::Register { .. }
        | Meaning::Font(_) => Ok(None),
    }
}

/// The same of a primitive.
fn expansion_of_code(token: Token, code: u16) -> Option<Task>
    ensures { result ≡ expansion_of_code token code }
{
    if code == codes::INPUT {
        Some(Task::Input(token))
    } else if code == codes::THE {
        Some(Task::The { straight: false })
    } else if code == codes::EXPANDAFTER {
        Some(Task::ExpandAfter)
    } else if code == codes::CSNAME {
        Some(Task::NameText)
    } else if code == codes::NUMBER {
        Some(Task::NumberText(Numerals::Decimal))
    } else if code == codes::ROMANNUMERAL {
        Some(Task::NumberText(Numerals::Roman))
    } else if code == codes::ELSE {
        Some(Task::BranchEnd {
            token,
            word: BranchWord::Else,
        })
    } else if code == codes::OR {
        Some(Task::BranchEnd {
            token,
            word: BranchWord::Or,
        })
    } else if code == codes::FI {
        Some(Task::BranchEnd {
            token,
            word: BranchWord::Fi,
        })
    } else {
        as_task(test_of(code), simple_of(code))
    }
}

fn as_task(test: Option<Test>, simple: Option<Simple>) -> Option<Task>
    ensures { result ≡ as_task test simple }
{
    match (test, simple) {
        (Some(test), _) => Some(Task::If(test)),
        (None, Some(simple)) => Some(Task::Simple(simple)),
        (None, None) => None,
    }
}

/// A macro that may not stand where no outer one may.
pub fn is_outer(meaning: &Meaning) -> bool
    ensures { result ≡ is_outer meaning.now }
{
    match meaning {
        Meaning::Macro(called) => called.outer,
        Meaning::Undefined
        | Meaning::Primitive(_)
        | Meaning::Char { .. }
        | Meaning::CharDef(_)
        | Meaning::MathCharDef(_)
        | Meaning::Register { .. }
        | Meaning::Font(_) => false,
    }
}

/// The phrase to which the expansion of a token leads that was taken, if it is expanded. One that isn't to be expanded
/// leads to none.
#[tactic(auto, using(asking::specs::Asked::asking, crate::proofs::Marks::marks), unfolding(crate::specs::Meanings::taken_meaning))]
pub fn expansion_of(env: &Env, token: Token, noexpand: bool) -> Result<Option<Task>, AllocError>
    ensures { IfOk result (λ task. task ≡ expansion token (taken_meaning (copies_of env.now) token noexpand)) }
{
    if noexpand {
        return Ok(None);
    }
    match token {
        Token::Char { .. } | Token::Frozen(_) => Ok(None),
        Token::Arg(_) => Ok(Some(Task::Undefined(token))),
        Token::Active(byte) => known_expansion(token, env.meaning(Key::Active(byte))),
        Token::Name(id) => known_expansion(token, env.meaning(Key::Name(id))),
    }
}

/// The same of a token whose meaning an environment holds.
fn known_expansion(token: Token, meaning: &Meaning) -> Result<Option<Task>, AllocError>
    ensures { IfOk result (λ task. task ≡ expansion token (known meaning.now)) }
{
    match meaning {
        Meaning::Primitive(code) if is_missing(*code) => Ok(Some(Task::Undefined(token))),
        _ => expansion(token, meaning),
    }
}

/// Whether a token that was taken is a macro that may not stand where no outer one may. One that isn't to be expanded is
/// none.
#[tactic(auto, using(asking::specs::Asked::asking, crate::proofs::Marks::marks), unfolding(crate::specs::Meanings::taken_meaning))]
pub fn is_outer_token(env: &Env, token: Token, noexpand: bool) -> bool
    ensures { result ≡ is_outer (taken_meaning (copies_of env.now) token noexpand) }
{
    if noexpand {
        return false;
    }
    match token {
        Token::Char { .. } | Token::Frozen(_) | Token::Arg(_) => false,
        Token::Active(byte) => is_known_outer(env.meaning(Key::Active(byte))),
        Token::Name(id) => is_known_outer(env.meaning(Key::Name(id))),
    }
}

/// The same of a meaning that an environment holds.
fn is_known_outer(meaning: &Meaning) -> bool
    ensures { result ≡ is_outer (known meaning.now) }
{
    is_outer(meaning)
}

/// The meaning of a token that was taken, where `fixed` is the one that no environment holds.
pub fn taken_meaning<'a>(
    env: &'a Env,
    fixed: &'a Option<Meaning>,
    token: Token,
    noexpand: bool,
) -> &'a Meaning
    requires { HasFixed (copies_of env.now) token noexpand fixed.now }
    ensures { result.now ≡ taken_meaning (copies_of env.now) token noexpand }
{
    match (fixed, key_of(token)) {
        (Some(meaning), _) => meaning,
        (None, Some(key)) => env.meaning(key),
        (None, None) => unreachable!(),
    }
}

/// Whether a token that was taken is expanded.
#[tactic(auto, using(asking::specs::Asked::asking, crate::proofs::Marks::marks), unfolding(crate::specs::Meanings::taken_meaning))]
pub fn is_expanded(env: &Env, token: Token, noexpand: bool) -> bool
    ensures { result ≡ is_some (expansion token (taken_meaning (copies_of env.now) token noexpand)) }
{
    if noexpand {
        return false;
    }
    match token {
        Token::Char { .. } | Token::Frozen(_) => false,
        Token::Arg(_) => true,
        Token::Active(byte) => is_expanded_meaning(token, env.meaning(Key::Active(byte))),
        Token::Name(id) => is_expanded_meaning(token, env.meaning(Key::Name(id))),
    }
}

/// The same of a token whose meaning an environment holds.
fn is_expanded_meaning(token: Token, meaning: &Meaning) -> bool
    ensures { result ≡ is_some (expansion token (known meaning.now)) }
{
    match meaning {
        Meaning::Undefined | Meaning::Macro(_) => true,
        Meaning::Primitive(code) => is_missing(*code) || is_expanded_code(token, *code),
        Meaning::Char { .. }
        | Meaning::CharDef(_)
        | Meaning::MathCharDef(_)
        | Meaning::Register { .. }
        | Meaning::Font(_) => false,
    }
}

/// The same of a primitive whose expansion is carried out.
fn is_expanded_code(token: Token, code: u16) -> bool
    ensures { result ≡ is_some (expansion_of_code token code) }
{
    expansion_of_code(token, code).is_some()
}
