//! Tokens: characters with a category, active characters, names, arguments and the mark that stands for
//! an inserted `\relax` (The TeXbook, chapter 7; `tex.web`, part 20).
ghost use Rattle.std.specs.Prelude.{◌≡◌, ◌↔◌, IsTrue};
ghost use Rattle.tokens.specs.Token.{same_token};

/// The place of a name in its table of names.
#[derive(Clone, Copy, Debug, PartialEq, Eq, PartialOrd, Ord, Hash)]
pub struct NameId(pub u64);

/// What TeX's commands read.
#[derive(Clone, Copy, Debug, PartialEq, Eq, Hash)]
pub enum Token {
    /// A character with the category that it had when it was read.
    Char { cat: u8, byte: u8 },
    /// A character of category 13.
    Active(u8),
    /// A name behind an escape character.
    Name(NameId),
    /// An argument of a macro, 1 to 9.
    Arg(u8),
    /// An inserted `\relax`, which no assignment changes. The number is 0 where TeX itself makes it.
    Frozen(u8),
}

impl Token {
    /// Whether the two tokens are equal.
    pub fn is_same(&self, other: &Token) -> bool
        ensures equal { IsTrue result ↔ (self.now ≡ other.now) }
        ensures value { result ≡ same_token self.now other.now }
    {
        match (*self, *other) {
            (Token::Char { cat, byte }, Token::Char { cat: c, byte: b }) => cat == c && byte == b,
            (Token::Active(byte), Token::Active(b)) => byte == b,
            (Token::Name(id), Token::Name(i)) => id.0 == i.0,
            (Token::Arg(number), Token::Arg(n)) => number == n,
            (Token::Frozen(number), Token::Frozen(n)) => number == n,
            _ => false,
        }
    }
}
