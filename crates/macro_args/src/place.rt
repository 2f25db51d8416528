//! Places of a parameter text: in front of the first parameter, or at a delimiter.
ghost use Rattle.std.specs.Prelude.{◌≡◌, ◌+◌, ◌<◌, ℕ, List, [], length, drop};
ghost use Rattle.tokens.specs.declared.token.Token.{Token};
ghost use Rattle.macro_args.specs.declared.rules.Rules.{Rules};
ghost use Rattle.macro_args.specs.ParameterText.{parts_of};
ghost use Rattle.macro_args.specs.Arguments.{use_from};
ghost use Rattle.macro_args.specs.Scanning.{place_rest, IsPlaceOf};

use tokens::Token;

/// How far a parameter text was matched.
#[derive(Clone, Copy, Debug)]
pub enum Place {
    /// The next token is to be the one that stands there.
    Front { next: usize },
    /// The argument of a parameter is read. The delimiter begins and ends there.
    Argument { begin: usize, end: usize },
    End,
}

/// The place in which a parameter text is matched from here on.
pub fn place_at(parameters: &[Token], at: usize) -> Place
    ensures rest { (rules : Rules) (found : List (List Token)) (more : List Token)
        → place_rest rules parameters.now found [] result more ≡ use_from rules found (drop at parameters.now) more }
    ensures placed { IsPlaceOf parameters.now result }
{
    if at >= parameters.len() {
        return Place::End;
    }
    match parameters[at] {
        Token::Arg(_) => Place::Argument {
            begin: at + 1,
            end: delimiter_end(parameters, at + 1),
        },
        Token::Char { .. } | Token::Active(_) | Token::Name(_) | Token::Frozen(_) => Place::Front {
            next: at,
        },
    }
}

/// Where the delimiter ends that begins there.
fn delimiter_end(parameters: &[Token], begin: usize) -> usize
    requires { begin < length parameters.now + 1 }
    ensures { result ≡ begin + length (parts_of (drop begin parameters.now)).front }
{
    let mut end = begin;
    while end < parameters.len() {
        if let Token::Arg(_) = parameters[end] {
            return end;
        }
        end += 1;
    }
    end
}

/// The delimiter between two places.
pub fn delimiter(parameters: &[Token], begin: usize, end: usize) -> &[Token]
    ensures { end ≡ begin + length (parts_of (drop begin parameters.now)).front
        → result.now ≡ (parts_of (drop begin parameters.now)).front }
{
    if begin <= end && end <= parameters.len() {
        &parameters[begin..end]
    } else {
        &[]
    }
}
