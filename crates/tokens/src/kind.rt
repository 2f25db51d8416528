//! The troubles that TeX reports to its user, each with a number and a text: what `tex.web` prints
//! after an exclamation mark (its parts on error handling, 82 and after).
ghost use Rattle.std.specs.Prelude.{◌≡◌, ℕ, ◌++◌, IfOk};
ghost use Rattle.tokens.specs.Kind.{kind_number, kind_text};
ghost use Rattle.tokens.specs.Wording.{wording_text};

use crate::text::Text;
use crate::wording;
use crate::wording::Wording;
use std::alloc::{AllocError, Global};
use std::fmt;

/// What went wrong in a document. A variant carries one text for each place that its message leaves
/// open, in their order.
#[derive(Drop)]
pub enum Kind {
    /// An undefined name or active character is expanded or executed.
    UndefinedCs(Text),
    /// A right brace is executed and no group is open.
    TooManyRightBraces,
    /// A right brace or `\endgroup` meets a group that the other ends, or `\endgroup` meets none.
    GroupMismatch,
    /// `\fi` is met and no condition is open.
    ExtraFi,
    /// `\else` is met and no condition is open, or it is past its `\else`.
    ExtraElse,
    /// `\or` is met and no `\ifcase` is open, or it is past its `\else`.
    ExtraOr,
    /// A register, class or stream number is out of its range.
    BadRegister(Text),
    /// No number, dimension or glue begins there.
    MissingNumber,
    /// A constant passes 2147483647.
    NumberTooBig,
    /// A dimension is 2^30 sp or more.
    DimensionTooLarge,
    /// No unit follows a factor.
    BadUnit,
    /// A sum, product or quotient is out of its range, or a divisor is 0.
    ArithOverflow,
    /// An open parenthesis meets neither operator nor `)`.
    MissingParenthesis,
    /// `mu` and other units meet.
    IncompatibleGlue,
    /// A delimiter token of a macro isn't there.
    UseDoesntMatch(Text),
    /// A lone right brace stands in an argument.
    ExtraBrace(Text),
    /// `\par` stands in an argument of a macro that isn't long.
    ParagraphEnded(Text),
    /// A file ends inside a definition, an argument, a skipped branch or a text.
    FileEnded,
    /// An outer macro stands where none may.
    ForbiddenOuter(Text),
    /// A token in a name is neither expandable nor a character nor `\endcsname`.
    MissingEndcsname,
    /// A general text or a box doesn't begin with a left brace.
    MissingLeftBrace,
    /// `#` is misused in a definition.
    BadParameter,
    /// What is to be defined is no name.
    MissingName,
    /// A comparison has no `<`, `=` or `>`.
    MissingRelation,
    /// `\vsplit`, `\read` or `\readline` has no `to`.
    MissingTo,
    /// A font is wanted.
    MissingFont,
    /// A byte of category 15 is read.
    InvalidChar,
    /// A code, a state or a family number is out of its range.
    BadCode(Text),
    /// A character code lies outside 0 to 255.
    BadCharCode(Text),
    /// A prefix stands before a command that can't have it.
    BadPrefix(Text),
    /// The token may not follow the command in front of it.
    CantUse(Text),
    /// The command isn't defined in the mode, which is the second word.
    WrongMode(Text, Text),
    /// `\input` names an absent file.
    FileNotFound(Text),
    /// A file of this name can't be written.
    BadName(Text),
    /// A font's file is absent or wrong, as the second word says.
    FontNotLoadable(Text, Text),
    /// `at` or `scaled` of a font is out of its range.
    BadFontSize,
    /// The font has no parameter of this number.
    BadFontdimen(Text),
    /// `\mag` lies outside 1 to 32768 or was changed after its first use.
    BadMag(Text),
    /// No box follows where one must.
    NotABox,
    /// No glue of the mode follows the leaders' box or rule.
    LeadersNoGlue,
    /// The box to be unboxed is of the other kind.
    IncompatibleList,
    /// The box to be split is an hbox.
    VsplitNeedsVbox,
    /// The insertion's box is an hbox.
    InsertIntoHbox,
    /// The insertion class is 255.
    InsertBox255,
    /// Box 255 isn't void before the page is put there, or after the output routine.
    VoidNeeded,
    /// A discretionary has an item that it can't have, or replaces more than 255.
    BadDiscretionary,
    /// An item of the current page would be taken away.
    CantDelete(Text),
    /// Glue that must not shrink without bound does.
    InfiniteShrink,
    /// A size of the page passes 2^30-1 sp.
    HugePage,
    /// `\deadcycles` reached `\maxdeadcycles`.
    DeadCycles(Text),
    /// Nothing is left to read.
    NoEnd,
    /// `\errmessage` shows its text.
    UserMessage(Text),
    /// The expanded text of a `\write` doesn't end with its closing brace.
    UnbalancedWrite,
    /// The command or form is left out of this TeX.
    LeftOut(Text),
}

impl Kind {
    /// The number of the kind, 1 to 54.
    pub fn number(&self) -> u8
        ensures { result ≡ kind_number self.now }
    {
        match self {
            Kind::UndefinedCs(_) => 1,
            Kind::TooManyRightBraces => 2,
            Kind::GroupMismatch => 3,
            Kind::ExtraFi => 4,
            Kind::ExtraElse => 5,
            Kind::ExtraOr => 6,
            Kind::BadRegister(_) => 7,
            Kind::MissingNumber => 8,
            Kind::NumberTooBig => 9,
            Kind::DimensionTooLarge => 10,
            Kind::BadUnit => 11,
            Kind::ArithOverflow => 12,
            Kind::MissingParenthesis => 13,
            Kind::IncompatibleGlue => 14,
            Kind::UseDoesntMatch(_) => 15,
            Kind::ExtraBrace(_) => 16,
            Kind::ParagraphEnded(_) => 17,
            Kind::FileEnded => 18,
            Kind::ForbiddenOuter(_) => 19,
            Kind::MissingEndcsname => 20,
            Kind::MissingLeftBrace => 21,
            Kind::BadParameter => 22,
            Kind::MissingName => 23,
            Kind::MissingRelation => 24,
            Kind::MissingTo => 25,
            Kind::MissingFont => 26,
            Kind::InvalidChar => 27,
            Kind::BadCode(_) => 28,
            Kind::BadCharCode(_) => 29,
            Kind::BadPrefix(_) => 30,
            Kind::CantUse(_) => 31,
            Kind::WrongMode(_, _) => 32,
            Kind::FileNotFound(_) => 33,
            Kind::BadName(_) => 34,
            Kind::FontNotLoadable(_, _) => 35,
            Kind::BadFontSize => 36,
            Kind::BadFontdimen(_) => 37,
            Kind::BadMag(_) => 38,
            Kind::NotABox => 39,
            Kind::LeadersNoGlue => 40,
            Kind::IncompatibleList => 41,
            Kind::VsplitNeedsVbox => 42,
            Kind::InsertIntoHbox => 43,
            Kind::InsertBox255 => 44,
            Kind::VoidNeeded => 45,
            Kind::BadDiscretionary => 46,
            Kind::CantDelete(_) => 47,
            Kind::InfiniteShrink => 48,
            Kind::HugePage => 49,
            Kind::DeadCycles(_) => 50,
            Kind::NoEnd => 51,
            Kind::UserMessage(_) => 52,
            Kind::UnbalancedWrite => 53,
            Kind::LeftOut(_) => 54,
        }
    }

    /// The message without the exclamation mark and the full stop that TeX puts round it.
    pub fn text(&self, alloc: Global) -> Result<Vec<u8>, AllocError>
        ensures { IfOk result (λ bytes. bytes.items ≡ kind_text self.now) }
    {
        wording::joined(&self.wording(), alloc)
    }

    fn wording(&self) -> Wording<'_>
        ensures { wording_text result ≡ kind_text self.now }
    {
        match self {
            Kind::UndefinedCs(word) => wording::ending(
                b"Undefined control sequence: ",
                word.bytes(),
            ),
            Kind::TooManyRightBraces => wording::fixed(b"Too many }'s"),
            Kind::GroupMismatch => wording::fixed(b"Group ended by the wrong command"),
            Kind::ExtraFi => wording::fixed(b"Extra \\fi"),
            Kind::ExtraElse => wording::fixed(b"Extra \\else"),
            Kind::ExtraOr => wording::fixed(b"Extra \\or"),
            Kind::BadRegister(word) => wording::ending(b"Bad register code: ", word.bytes()),
            Kind::MissingNumber => wording::fixed(b"Missing number"),
            Kind::NumberTooBig => wording::fixed(b"Number too big"),
            Kind::DimensionTooLarge => wording::fixed(b"Dimension too large"),
            Kind::BadUnit => wording::fixed(b"Illegal unit of measure"),
            Kind::ArithOverflow => wording::fixed(b"Arithmetic overflow"),
            Kind::MissingParenthesis => wording::fixed(b"Missing ) in an expression"),
            Kind::IncompatibleGlue => wording::fixed(b"Incompatible glue units"),
            Kind::UseDoesntMatch(word) => wording::around(
                b"Use of ",
                word.bytes(),
                b" doesn't match its definition",
            ),
            Kind::ExtraBrace(word) => wording::around(
                b"Argument of ",
                word.bytes(),
                b" has an extra }",
            ),
            Kind::ParagraphEnded(word) => wording::around(
                b"Paragraph ended before ",
                word.bytes(),
                b" was complete",
            ),
            Kind::FileEnded => wording::fixed(b"File ended while scanning"),
            Kind::ForbiddenOuter(word) => wording::ending(
                b"Forbidden control sequence found: ",
                word.bytes(),
            ),
            Kind::MissingEndcsname => wording::fixed(b"Missing \\endcsname"),
            Kind::MissingLeftBrace => wording::fixed(b"Missing {"),
            Kind::BadParameter => wording::fixed(b"Bad parameter text"),
            Kind::MissingName => wording::fixed(b"Missing control sequence"),
            Kind::MissingRelation => wording::fixed(b"Missing relation"),
            Kind::MissingTo => wording::fixed(b"Missing to"),
            Kind::MissingFont => wording::fixed(b"Missing font identifier"),
            Kind::InvalidChar => wording::fixed(b"Text line contains an invalid character"),
            Kind::BadCode(word) => wording::ending(b"Invalid code: ", word.bytes()),
            Kind::BadCharCode(word) => wording::ending(b"Bad character code: ", word.bytes()),
            Kind::BadPrefix(word) => wording::ending(b"You can't use a prefix with ", word.bytes()),
            Kind::CantUse(word) => wording::around(b"You can't use ", word.bytes(), b" here"),
            Kind::WrongMode(first, second) => wording::pair(
                b"You can't use ",
                first.bytes(),
                b" in ",
                second.bytes(),
            ),
            Kind::FileNotFound(word) => wording::ending(b"File not found: ", word.bytes()),
            Kind::BadName(word) => wording::ending(b"Bad file name: ", word.bytes()),
            Kind::FontNotLoadable(first, second) => wording::pair(
                b"Font ",
                first.bytes(),
                b" not loadable: ",
                second.bytes(),
            ),
            Kind::BadFontSize => wording::fixed(b"Improper font size"),
            Kind::BadFontdimen(word) => wording::ending(b"Bad font parameter: ", word.bytes()),
            Kind::BadMag(word) => wording::ending(b"Illegal magnification: ", word.bytes()),
            Kind::NotABox => wording::fixed(b"A box was supposed to be here"),
            Kind::LeadersNoGlue => wording::fixed(b"Leaders not followed by proper glue"),
            Kind::IncompatibleList => wording::fixed(b"Incompatible list can't be unboxed"),
            Kind::VsplitNeedsVbox => wording::fixed(b"\\vsplit needs a \\vbox"),
            Kind::InsertIntoHbox => wording::fixed(b"Insertions can only be added to a vbox"),
            Kind::InsertBox255 => wording::fixed(b"You can't insert 255"),
            Kind::VoidNeeded => wording::fixed(b"Box 255 is not void"),
            Kind::BadDiscretionary => wording::fixed(b"Improper discretionary list"),
            Kind::CantDelete(word) => wording::around(
                b"You can't use ",
                word.bytes(),
                b" on the current page",
            ),
            Kind::InfiniteShrink => wording::fixed(b"Infinite glue shrinkage"),
            Kind::HugePage => wording::fixed(b"Huge page cannot be shipped out"),
            Kind::DeadCycles(word) => wording::around(
                b"Output loop: ",
                word.bytes(),
                b" consecutive dead cycles",
            ),
            Kind::NoEnd => wording::fixed(b"No \\end found"),
            Kind::UserMessage(word) => wording::fixed(word.bytes()),
            Kind::UnbalancedWrite => wording::fixed(b"Unbalanced write command"),
            Kind::LeftOut(word) => wording::ending(b"Left out: ", word.bytes()),
        }
    }
}

impl fmt::Debug for Kind {
    fn fmt<W: fmt::Write>(&self, f: &mut fmt::Formatter<W>) -> fmt::Result {
        write!(f, "trouble {}", self.number())
    }
}
