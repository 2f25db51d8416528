//! The keywords of units of measure, letter after letter (The TeXbook, chapter 24; `tex.web` 407 and 453 to 458).
ghost use Rattle.std.specs.Prelude.{◌≡◌, ℕ, ◌+◌, ◌==◌, if◌then◌else◌};
ghost use Rattle.scan_nums.specs.Keywords.{NoWord, Whole, at_letter, behind_letter, letter_of, small_letter, words_of};
ghost use Rattle.scan_nums.specs.Dimension.{is_l};
ghost use Rattle.scan_nums.specs.UnitWords.{followed_words, length_table, letters_read, mu_table, physical_words, unit_words, words_behind, ReadsUpTo};

use crate::unit::PhysicalUnit;
use tokens::Token;

/// What the keywords of units mean.
#[derive(Clone, Copy)]
pub enum UnitName {
    Em,
    Ex,
    True,
    Fil,
    Mu,
    Physical(PhysicalUnit),
}

/// The first letters of keywords that were read. A single m may be that of `mm` or that of `mu`.
#[derive(Clone, Copy)]
pub enum Letters {
    B,
    C,
    D,
    E,
    F,
    Fi,
    I,
    M,
    MOfMu,
    P,
    S,
    T,
    Tr,
    Tru,
}

/// What a letter more has led to.
#[derive(Clone, Copy)]
pub enum Followed {
    /// No keyword goes on so.
    Broken,
    More(Letters),
    Whole(UnitName),
}

impl Letters {
    /// How many letters they are.
    pub fn count(self) -> u8
        ensures { result ≡ letters_read self }
    {
        match self {
            Letters::B => 1,
            Letters::C => 1,
            Letters::D => 1,
            Letters::E => 1,
            Letters::F => 1,
            Letters::Fi => 2,
            Letters::I => 1,
            Letters::M => 1,
            Letters::MOfMu => 1,
            Letters::P => 1,
            Letters::S => 1,
            Letters::T => 1,
            Letters::Tr => 2,
            Letters::Tru => 3,
        }
    }
}

/// The small letter that the token is in a keyword, where it is a character. What isn't a letter is itself.
#[tactic(auto, unfolding(crate::specs::Keywords::letter_of))]
pub fn letter_of(token: Token) -> Option<u8>
    ensures { result ≡ letter_of token }
{
    match token {
        Token::Char { cat: _, byte } => Some(small_letter(byte)),
        Token::Active(_) | Token::Name(_) | Token::Arg(_) | Token::Frozen(_) => None,
    }
}

fn small_letter(byte: u8) -> u8
    ensures { result ≡ small_letter byte }
{
    if b'A' <= byte && byte <= b'Z' {
        byte + 32
    } else {
        byte
    }
}

/// Whether the token is a letter l.
pub fn is_l(token: Token) -> bool
    ensures { result ≡ is_l (letter_of token) }
{
    match letter_of(token) {
        Some(letter) => letter == b'l',
        None => false,
    }
}

/// The first letter of a unit behind a factor.
pub fn first_letter(mu: bool, orders: bool, token: Token) -> Followed
    ensures words { followed_words result ≡ behind_letter (letter_of token) (unit_words mu orders) }
    ensures read { ReadsUpTo 1 result }
{
    match letter_of(token) {
        Some(letter) => first_of_unit(mu, orders, letter),
        None => Followed::Broken,
    }
}

/// The first letter of a unit behind `true`.
pub fn first_physical_letter(token: Token) -> Followed
    ensures words { followed_words result ≡ behind_letter (letter_of token) physical_words }
    ensures read { ReadsUpTo 1 result }
{
    match letter_of(token) {
        Some(letter) => first_of_physical(letter),
        None => Followed::Broken,
    }
}

/// A further letter.
pub fn next_letter(letters: Letters, token: Token) -> Followed
    ensures words { followed_words result ≡ behind_letter (letter_of token) (words_behind letters) }
    ensures read { ReadsUpTo (letters_read letters + 1) result }
{
    match letter_of(token) {
        Some(letter) => next_of(letters, letter),
        None => Followed::Broken,
    }
}

#[tactic(auto, unfolding(crate::specs::UnitWords::unit_words, crate::specs::UnitWords::words_behind))]
fn first_of_unit(mu: bool, orders: bool, letter: u8) -> Followed
    ensures words { followed_words result ≡ at_letter letter (unit_words mu orders) }
    ensures read { ReadsUpTo 1 result }
{
    if mu {
        if orders {
            if letter == b'f' {
                Followed::More(Letters::F)
            } else {
                first_of_mu(letter)
            }
        } else {
            first_of_mu(letter)
        }
    } else if orders {
        if letter == b'f' {
            Followed::More(Letters::F)
        } else {
            first_of_length(letter)
        }
    } else {
        first_of_length(letter)
    }
}

#[tactic(auto, unfolding(crate::specs::UnitWords::words_behind))]
fn first_of_mu(letter: u8) -> Followed
    ensures words { followed_words result ≡ at_letter letter (words_of mu_table) }
    ensures read { ReadsUpTo 1 result }
{
    if letter == b'm' {
        Followed::More(Letters::MOfMu)
    } else {
        Followed::Broken
    }
}

#[tactic(auto, unfolding(crate::specs::UnitWords::words_behind, crate::specs::UnitWords::physical_words))]
fn first_of_length(letter: u8) -> Followed
    ensures words { followed_words result ≡ at_letter letter (words_of length_table) }
    ensures read { ReadsUpTo 1 result }
{
    if letter == b'e' {
        Followed::More(Letters::E)
    } else if letter == b't' {
        Followed::More(Letters::T)
    } else {
        first_of_physical(letter)
    }
}

#[tactic(auto, unfolding(crate::specs::UnitWords::words_behind, crate::specs::UnitWords::physical_words))]
fn first_of_physical(letter: u8) -> Followed
    ensures words { followed_words result ≡ at_letter letter physical_words }
    ensures read { ReadsUpTo 1 result }
{
    if letter == b'p' {
        Followed::More(Letters::P)
    } else if letter == b'i' {
        Followed::More(Letters::I)
    } else if letter == b'c' {
        Followed::More(Letters::C)
    } else if letter == b'm' {
        Followed::More(Letters::M)
    } else if letter == b'b' {
        Followed::More(Letters::B)
    } else if letter == b'd' {
        Followed::More(Letters::D)
    } else if letter == b's' {
        Followed::More(Letters::S)
    } else {
        Followed::Broken
    }
}

#[tactic(auto, unfolding(crate::specs::UnitWords::words_behind))]
fn next_of(letters: Letters, letter: u8) -> Followed
    ensures words { followed_words result ≡ at_letter letter (words_behind letters) }
    ensures read { ReadsUpTo (letters_read letters + 1) result }
{
    match letters {
        Letters::B => last(letter, b'p', UnitName::Physical(PhysicalUnit::BigPoint)),
        Letters::C => {
            if letter == b'm' {
                Followed::Whole(UnitName::Physical(PhysicalUnit::Centimeter))
            } else {
                last(letter, b'c', UnitName::Physical(PhysicalUnit::Cicero))
            }
        }
        Letters::D => last(letter, b'd', UnitName::Physical(PhysicalUnit::DidotPoint)),
        Letters::E => {
            if letter == b'm' {
                Followed::Whole(UnitName::Em)
            } else {
                last(letter, b'x', UnitName::Ex)
            }
        }
        Letters::F => further(letter, b'i', Letters::Fi),
        Letters::Fi => last(letter, b'l', UnitName::Fil),
        Letters::I => last(letter, b'n', UnitName::Physical(PhysicalUnit::Inch)),
        Letters::M => last(letter, b'm', UnitName::Physical(PhysicalUnit::Millimeter)),
        Letters::MOfMu => last(letter, b'u', UnitName::Mu),
        Letters::P => {
            if letter == b't' {
                Followed::Whole(UnitName::Physical(PhysicalUnit::Point))
            } else {
                last(letter, b'c', UnitName::Physical(PhysicalUnit::Pica))
            }
        }
        Letters::S => last(letter, b'p', UnitName::Physical(PhysicalUnit::ScaledPoint)),
        Letters::T => further(letter, b'r', Letters::Tr),
        Letters::Tr => further(letter, b'u', Letters::Tru),
        Letters::Tru => last(letter, b'e', UnitName::True),
    }
}

// The last letter of the one keyword that is left.
fn last(letter: u8, wanted: u8, name: UnitName) -> Followed
    ensures words { followed_words result ≡ (if letter == wanted then Whole name else NoWord) }
    ensures read { (n : ℕ) → ReadsUpTo n result }
{
    if letter == wanted {
        Followed::Whole(name)
    } else {
        Followed::Broken
    }
}

// A letter of the one keyword that is left.
fn further(letter: u8, wanted: u8, letters: Letters) -> Followed
    ensures words { followed_words result ≡ (if letter == wanted then words_behind letters else NoWord) }
    ensures read { ReadsUpTo (letters_read letters) result }
{
    if letter == wanted {
        Followed::More(letters)
    } else {
        Followed::Broken
    }
}
