//! Braces of lists of tokens: characters of the categories 1 and 2, which are matched like parentheses
//! (`tex.web` 392 and 399).
ghost use Rattle.std.specs.Prelude.{◌≡◌, ◌+◌, ◌<◌, ◌^◌, length};
ghost use Rattle.macro_args.specs.BraceCount.{is_left, is_right, is_left_there, is_right_there, with_brace, with_right, no_braces, braces_of, are_none, is_balanced, is_group, inside, without_braces};

use tokens::Token;

/// The braces of a list that have no partner there.
#[derive(Clone, Copy, Debug, PartialEq, Eq)]
pub struct Braces {
    /// Right braces, each behind an equal number of left and right ones.
    pub lone: usize,
    /// Left braces.
    pub unclosed: usize,
}

impl Braces {
    pub fn none() -> Braces
        ensures { result ≡ no_braces }
    {
        Braces {
            lone: 0,
            unclosed: 0,
        }
    }

    pub fn is_none(self) -> bool
        ensures { result ≡ are_none self }
    {
        self.lone == 0 && self.unclosed == 0
    }

    /// The braces behind one more token. The counts stop at their type's last number.
    pub fn with(self, token: Token) -> Braces
        ensures { self.lone + 1 < 2 ^ 64 → self.unclosed + 1 < 2 ^ 64 → result ≡ with_brace self token }
    {
        if is_left(token) {
            Braces {
                lone: self.lone,
                unclosed: self.unclosed.saturating_add(1),
            }
        } else if is_right(token) {
            self.closed()
        } else {
            self
        }
    }

    fn closed(self) -> Braces
        ensures { self.lone + 1 < 2 ^ 64 → result ≡ with_right self }
    {
        if self.unclosed == 0 {
            Braces {
                lone: self.lone.saturating_add(1),
                unclosed: 0,
            }
        } else {
            Braces {
                lone: self.lone,
                unclosed: self.unclosed - 1,
            }
        }
    }

    /// The braces of a list.
    pub fn of(tokens: &[Token]) -> Braces
        ensures { result ≡ braces_of tokens.now }
    {
        let mut braces = Braces::none();
        for token in tokens {
            braces = braces.with(*token);
        }
        braces
    }
}

fn is_left(token: Token) -> bool
    ensures { result ≡ is_left token }
{
    match token {
        Token::Char { cat, byte: _ } => cat == 1,
        Token::Active(_) | Token::Name(_) | Token::Arg(_) | Token::Frozen(_) => false,
    }
}

fn is_right(token: Token) -> bool
    ensures { result ≡ is_right token }
{
    match token {
        Token::Char { cat, byte: _ } => cat == 2,
        Token::Active(_) | Token::Name(_) | Token::Arg(_) | Token::Frozen(_) => false,
    }
}

fn is_left_there(token: Option<Token>) -> bool
    ensures { result ≡ is_left_there token }
{
    match token {
        None => false,
        Some(token) => is_left(token),
    }
}

fn is_right_there(token: Option<Token>) -> bool
    ensures { result ≡ is_right_there token }
{
    match token {
        None => false,
        Some(token) => is_right(token),
    }
}

/// A list without its braces, where it is one group.
pub fn without_braces(tokens: &[Token]) -> &[Token]
    ensures { result.now ≡ without_braces tokens.now }
{
    if tokens.len() < 2 {
        return tokens;
    }
    if !is_left_there(tokens.first().copied()) || !is_right_there(tokens.last().copied()) {
        return tokens;
    }
    let inside = &tokens[1..tokens.len() - 1];
    if Braces::of(inside).is_none() {
        inside
    } else {
        tokens
    }
}
