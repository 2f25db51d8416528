//! Categories and macros that stand in the environment before a line is read.
ghost use Rattle.std.specs.Prelude.{◌≡◌, ◌<◌, Bool, IsTrue, IfOk};
ghost use Rattle.save_groups.specs.Values.{is_category, names_in_mode};

use super::reading::tokens_of;
use super::tex::Tex;
use save_groups::parameters::END_LINE_CHAR;
use save_groups::{Env, Key, Scope, Value};
use std::alloc::AllocError;
use std::marker::Brand;
use std::sync::ledger::{Blank, Ledger};
use std::test::Fail;
use steps::Steps;
use tokens::{Macro, Meaning, NameId, RegKind, TokenList, codes};

/// A macro: its name, its parameter text and its body. The macro `o` is outer, and `p` is protected.
pub type Definition = (&'static [u8], &'static [u8], &'static [u8]);

/// The characters that are to have another category than INITEX gives them.
const CHARACTERS: &[u8] = b"{}#~";

/// The category of such a character.
fn category(byte: u8) -> i32
    ensures { IsTrue (is_category result) }
{
    match byte {
        b'{' => 1,
        b'}' => 2,
        b'#' => 6,
        _ => 13,
    }
}

/// Puts nothing behind a line.
fn end_lines_with_nothing<L: Ledger>(
    env: &mut Env,
    steps: &mut Steps<L>,
) -> Result<(), AllocError> {
    let key = Key::Parameter(END_LINE_CHAR);
    env.assign(key, Value::Number(-1), Scope::Global, steps)
}

/// Gives each of these characters its category.
fn set_categories<L: Ledger>(env: &mut Env, steps: &mut Steps<L>) -> Result<(), AllocError> {
    for byte in CHARACTERS {
        let key = Key::Code {
            table: 0,
            byte: *byte,
        };
        env.assign(key, Value::Number(category(*byte)), Scope::Global, steps)?;
    }
    Ok(())
}

/// Puts a number into a register.
fn set_register<L: Ledger>(env: &mut Env, steps: &mut Steps<L>) -> Result<(), AllocError> {
    let key = Key::Register {
        kind: RegKind::Count,
        number: 9,
    };
    env.assign(key, Value::Number(1234), Scope::Global, steps)
}

/// A macro of these texts.
fn meaning_of(tex: &mut Tex, definition: &Definition) -> Result<Meaning, Fail>
    ensures { IfOk result (λ meaning. (extended : Bool) → IsTrue (names_in_mode extended meaning)) }
{
    let (name, params, body) = *definition;
    Ok(Meaning::Macro(Macro {
        long: false,
        outer: name == b"o".as_slice(),
        guarded: name == b"p".as_slice(),
        params: tokens_of(tex, params)?,
        body: tokens_of(tex, body)?,
    }))
}

/// Gives a name its meaning.
fn give<L: Ledger>(
    env: &mut Env,
    name: NameId,
    meaning: Meaning,
    steps: &mut Steps<L>,
) -> Result<(), AllocError>
    requires { (extended : Bool) → IsTrue (names_in_mode extended meaning) }
{
    env.assign(
        Key::Name(name),
        Value::Meaning(meaning),
        Scope::Global,
        steps,
    )
}

/// Names that mean a character, with its category.
const NAMED: &[(&[u8], u8, u8)] = &[
    (b"bgroup", 1, b'{'),
    (b"hash", 6, b'#'),
    (b"shift", 3, b'$'),
    (b"tab", 4, b'&'),
    (b"up", 7, b'^'),
    (b"down", 8, b'_'),
    (b"blank", 10, b'*'),
];

/// Gives a name the meaning of a character.
fn name_character<L: Ledger>(
    tex: &mut Tex,
    character: &(&'static [u8], u8, u8),
    steps: &mut Steps<L>,
) -> Result<(), AllocError> {
    let (name, cat, byte) = *character;
    let id = tex.name(name)?;
    give(&mut tex.site.env, id, Meaning::Char { cat, byte }, steps)
}

/// Defines one macro.
fn define_one<L: Ledger>(
    tex: &mut Tex,
    definition: &Definition,
    steps: &mut Steps<L>,
) -> Result<(), Fail> {
    let meaning = meaning_of(tex, definition)?;
    let name = tex.name(definition.0)?;
    give(&mut tex.site.env, name, meaning, steps)?;
    Ok(())
}

fn define_all<L: Ledger>(tex: &mut Tex, macros: &[Definition], blank: Blank) -> Result<(), Fail>
    requires name { blank.name ≡ L.name }
    requires parts { blank.parts ≡ L.parts }
    requires some { 0 < L.parts }
{
    let mut steps = Steps::<L>::new(blank);
    end_lines_with_nothing(&mut tex.site.env, &mut steps)?;
    set_categories(&mut tex.site.env, &mut steps)?;
    set_register(&mut tex.site.env, &mut steps)?;
    for character in NAMED {
        name_character(tex, character, &mut steps)?;
    }
    for definition in macros {
        define_one(tex, definition, &mut steps)?;
    }
    Ok(())
}

/// Gives the characters their categories, has nothing put behind a line, sets `\count9` to 1234, and defines the macros.
pub fn define(tex: &mut Tex, macros: &[Definition]) -> Result<(), Fail> {
    define_all::<Brand>(tex, macros, Blank::new(1))
}

fn fill_counted<L: Ledger>(env: &mut Env, list: TokenList, blank: Blank) -> Result<(), AllocError>
    requires name { blank.name ≡ L.name }
    requires parts { blank.parts ≡ L.parts }
    requires some { 0 < L.parts }
{
    let mut steps = Steps::<L>::new(blank);
    let key = Key::Register {
        kind: RegKind::Toks,
        number: 0,
    };
    env.assign(key, Value::Tokens(list), Scope::Global, &mut steps)
}

/// Puts a text into the register `\toks0`.
pub fn fill(tex: &mut Tex, text: &[u8]) -> Result<(), Fail> {
    let list = tokens_of(tex, text)?;
    fill_counted::<Brand>(&mut tex.site.env, list, Blank::new(1))?;
    Ok(())
}

/// `\newlinechar`.
const NEW_LINE_CHAR: Key = Key::Parameter(49);

/// A code of the table of `\uppercase`.
fn upper_code(byte: u8) -> Key
    ensures { result ≡ Key.Code 2 byte }
{
    Key::Code { table: 2, byte }
}

/// Has `|` end a line, and gives two characters codes.
fn set_more<L: Ledger>(env: &mut Env, steps: &mut Steps<L>) -> Result<(), AllocError> {
    env.assign(
        NEW_LINE_CHAR,
        Value::Number(i32::from(b'|')),
        Scope::Global,
        steps,
    )?;
    env.assign(upper_code(b'q'), Value::Number(300), Scope::Global, steps)?;
    env.assign(
        upper_code(b'~'),
        Value::Number(i32::from(b'*')),
        Scope::Global,
        steps,
    )
}

/// A meaning that no macro has.
#[derive(Clone, Copy, Debug)]
enum Given {
    Primitive(u16),
    Character(u8),
    MathCharacter(u16),
    /// `\count9`.
    Count,
    /// `\toks0`.
    List,
}

/// Names with such meanings.
const GIVEN: &[(&[u8], Given)] = &[
    (b"cd", Given::Character(b'A')),
    (b"md", Given::MathCharacter(0x1234)),
    (b"cr", Given::Count),
    (b"tr", Given::List),
    (b"hal", Given::Primitive(codes::HALIGN)),
];

/// The meaning itself.
fn meaning_given(given: Given) -> Meaning
    ensures { (extended : Bool) → IsTrue (names_in_mode extended result) }
{
    match given {
        Given::Primitive(code) => Meaning::Primitive(code),
        Given::Character(byte) => Meaning::CharDef(byte),
        Given::MathCharacter(number) => Meaning::MathCharDef(number),
        Given::Count => Meaning::Register {
            kind: RegKind::Count,
            number: 9,
        },
        Given::List => Meaning::Register {
            kind: RegKind::Toks,
            number: 0,
        },
    }
}

/// Gives a name its meaning.
fn name_one<L: Ledger>(
    tex: &mut Tex,
    name: &[u8],
    given: Given,
    steps: &mut Steps<L>,
) -> Result<(), AllocError> {
    let id = tex.name(name)?;
    give(&mut tex.site.env, id, meaning_given(given), steps)
}

fn name_counted<L: Ledger>(tex: &mut Tex, blank: Blank) -> Result<(), AllocError>
    requires name { blank.name ≡ L.name }
    requires parts { blank.parts ≡ L.parts }
    requires some { 0 < L.parts }
{
    let mut steps = Steps::<L>::new(blank);
    set_more(&mut tex.site.env, &mut steps)?;
    for (name, given) in GIVEN {
        name_one(tex, name, *given, &mut steps)?;
    }
    Ok(())
}

/// Has `|` end a line, gives `q` and `~` their codes in the table of `\uppercase`, and names what no macro is.
pub fn name_more(tex: &mut Tex) -> Result<(), AllocError> {
    name_counted::<Brand>(tex, Blank::new(1))
}
