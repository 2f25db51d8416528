//! What expansion is at: the kinds of phrases, what each wants next, and what it is told.
ghost use Rattle.std.specs.Prelude.{◌≡◌, []};

use macro_args::Refusal;
use scan_nums::{Number, Quantity};
use std::alloc::Global;
use std::marker::Model;
use tokens::{Kind, Macro, Text, Token, TokenList};

/// The arguments of a macro. Contracts see the list of their lists.
#[derive(Drop)]
pub struct Arguments {
    lists: Vec<TokenList>,
}

impl Model for Arguments {
    ghost use Rattle.std.specs.Prelude.{List};
    ghost use Rattle.tokens.specs.declared.token.Token.{Token};

    ghost Value = { List (List Token) };

    ghost view = { λ arguments. arguments.lists.items };
}

impl Arguments {
    /// No arguments.
    pub fn none(alloc: Global) -> Arguments
        ensures { result ≡ [] }
    {
        Arguments {
            lists: Vec::new(alloc),
        }
    }

    /// These arguments.
    pub fn new(lists: Vec<TokenList>) -> Arguments
        ensures { result ≡ lists.items }
    {
        Arguments { lists }
    }

    /// All of them, for the text.
    pub fn into_lists(self) -> Vec<TokenList>
        ensures { result.items ≡ self }
    {
        self.lists
    }
}

/// A word that parts the branches of a condition, or ends it.
#[derive(Clone, Copy, Debug, PartialEq, Eq)]
pub enum BranchWord {
    Fi,
    Else,
    Or,
}

/// What `\ifvmode` and its mates ask of the mode in which commands are carried out.
#[derive(Clone, Copy, Debug, PartialEq, Eq)]
pub enum ModeTest {
    Vertical,
    Horizontal,
    Math,
    Inner,
}

/// What `\if` and `\ifcat` compare of two characters.
#[derive(Clone, Copy, Debug, PartialEq, Eq)]
pub enum Part {
    Code,
    Category,
}

/// A character as `\if` and `\ifcat` see it.
#[derive(Clone, Copy, Debug)]
pub struct Glyph {
    pub cat: u8,
    pub byte: u8,
}

/// What a condition asks.
#[derive(Clone, Copy, Debug, PartialEq, Eq)]
pub enum Test {
    /// `\if`, `\ifcat`.
    Alike(Part),
    /// `\ifnum`.
    Number,
    /// `\ifodd`.
    Odd,
    /// `\ifvmode`, `\ifhmode`, `\ifmmode`, `\ifinner`.
    Mode(ModeTest),
    /// `\ifx`.
    SameMeaning,
    /// `\iftrue`, `\iffalse`.
    Always(bool),
    /// `\ifcase`.
    Case,
}

/// How a number is written.
#[derive(Clone, Copy, Debug, PartialEq, Eq)]
pub enum Numerals {
    /// In decimal digits.
    Decimal,
    /// In lower-case roman numerals.
    Roman,
}

/// A name whose expansion is one thing that is done.
#[derive(Clone, Copy, Debug, PartialEq, Eq)]
pub enum Simple {
    /// `\endinput`.
    EndInput,
    /// `\noexpand`.
    NoExpand,
    /// `\string`.
    TokenText,
    /// `\meaning`.
    MeaningText,
    /// `\jobname`.
    JobName,
}

/// A kind of phrase.
#[derive(Drop)]
pub enum Task {
    /// A whole number.
    WholeNumber,
    /// The value of a quantity, whose operands are still to be read.
    QuantityValue(Quantity),
    /// A name or active character without meaning.
    Undefined(Token),
    /// A macro's call, behind its name.
    Call { name: Token, called: Macro },
    /// `\expandafter`.
    ExpandAfter,
    /// `\the`. The tokens of a list go straight into an expanded text, or else are put in front.
    The { straight: bool },
    /// `\number` or `\romannumeral`.
    NumberText(Numerals),
    /// A condition, up to the beginning of the chosen branch.
    If(Test),
    /// A text that is passed over, up to the `\or` of this number, up to none with 0.
    PassOver(u32),
    /// `\else`, `\or` or `\fi`.
    BranchEnd { token: Token, word: BranchWord },
    /// `\csname`.
    NameText,
    /// `\input`.
    Input(Token),
    /// The name of a file.
    FileName,
    /// A text in braces, whose tokens are taken as they stand, or expanded.
    Text { expanded: bool },
    /// What stands behind the name in a definition: a parameter text, and the text in braces, expanded or not.
    Definition { expanded: bool },
    /// A name of which one thing is done.
    Simple(Simple),
}

/// What a phrase, or something that is done for it, tells.
#[derive(Drop)]
pub enum Told {
    Done,
    Number(Number),
    /// What ended a text that was passed over: 0 for `\fi`, 1 for `\else`, 2 for `\or`.
    Word(u8),
    /// How many conditions are open.
    Level(u32),
    /// That there is more to pass over.
    GoOn,
    Text(Text),
    /// Whether what was asked is so.
    Holds(bool),
    Tokens(TokenList),
    /// The two texts of a macro.
    Definition {
        parameters: TokenList,
        body: TokenList,
    },
}

/// What is done for a phrase.
#[derive(Drop)]
pub enum Act {
    /// A token is put back, and paid.
    Return(Token),
    /// A token is put back behind an inserted `\relax`.
    InsertRelax(Token),
    /// A trouble is passed over, and then a token is put back.
    Pass {
        kind: Kind,
        back: Option<Token>,
    },
    /// The trouble of a token without meaning is passed over.
    PassUndefined(Token),
    /// A quantity is looked at.
    Look(Quantity),
    /// The register, or the code of the character, of this number is looked at.
    LookNumbered {
        code: u16,
        number: Number,
    },
    /// The list of the token register of this number is put in front.
    PutRegister(Number),
    /// The list of a token parameter is put in front, by the code of its name.
    PutParameter(u16),
    /// The list of the token register of this number is told.
    TellRegister(Number),
    /// The list of a token parameter is told, by the code of its name.
    TellParameter(u16),
    /// A token that may not stand behind `\the` ends the run.
    CantUse(Token),
    /// A number, a dimension or a glue is put in front, written so.
    Digits {
        numerals: Numerals,
        number: Number,
    },
    /// A macro's text is put in front.
    Text {
        body: TokenList,
        arguments: Arguments,
    },
    /// Tokens that are no use of a macro end the run.
    Refuse {
        name: Token,
        refusal: Refusal,
    },
    /// A list would have too many tokens, which ends the run.
    Full,
    /// A condition is opened.
    Open(i8),
    /// The branch in front of `\else` is read of the condition that is so many deep.
    Choose(u32),
    /// A text that was passed over has ended with this word.
    Leave {
        word: u8,
        level: u32,
    },
    /// The innermost condition ends.
    Close,
    /// `\else`, `\or` or `\fi` is met.
    Meet {
        token: Token,
        word: BranchWord,
    },
    /// A name is put in front.
    MakeName(Text),
    /// A file is opened.
    ReadFile(Text),
    /// It is asked which mode is in force.
    AskMode(ModeTest),
    /// It is asked whether a token that was taken isn't to be expanded.
    AskMarked(Token),
    /// Two tokens are taken, and it is asked whether they mean the same.
    AskSame,
    /// The one thing of a name is done.
    Simple(Simple),
}

/// What a phrase wants next.
#[derive(Drop)]
pub enum Want {
    /// The next token as it stands.
    Raw,
    /// The next token that isn't expanded.
    Expanded,
    /// The next token as it stands, a name of one byte as its character.
    Character,
    /// That something is done.
    Act(Act),
    /// That another phrase is read.
    Inner(Task),
    /// Nothing more: this is told, and then a token is put back.
    Gives { told: Told, back: Option<Token> },
    /// It can't be read.
    Wrong(Kind),
}
