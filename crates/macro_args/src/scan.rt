//! The reader of a macro's arguments (`tex.web` 391 to 401).
ghost use Rattle.std.specs.Prelude.{◌≡◌, ◌<◌, ◌↔◌, false, List, [], ◌∷◌, ◌++◌, length, IsTrue, IfOk};
ghost use Rattle.tokens.specs.declared.token.Token.{Token};
ghost use Rattle.macro_args.specs.declared.rules.Rules.{Rules};
ghost use Rattle.macro_args.specs.BraceCount.{no_braces};
ghost use Rattle.macro_args.specs.Arguments.{Open, Complete, use_of, argument_list};
ghost use Rattle.macro_args.specs.Scanning.{StandsFor, Tells, IsSound, scan_rest, Steps, EndsArgument, verdict_at};

use crate::braces::{Braces, without_braces};
use crate::judge::{Judgement, judged};
use crate::place::{Place, delimiter, place_at};
use crate::rules::Rules;
use crate::verdict::{Refusal, Verdict};
use std::alloc::{AllocError, Global};
use std::marker::Model;
use tokens::{Cap, Stop, Token, TokenList};

/// A reader of the tokens behind a macro's name. It takes no memory before the first token of an argument.
#[derive(Drop)]
pub struct ArgScan {
    alloc: Global,
    rules: Rules,
    parameters: TokenList,
    place: Place,
    found: Vec<TokenList>,
    // The argument that is being read, with what was read of its delimiter.
    tokens: Vec<Token>,
    // Those of `tokens`.
    braces: Braces,
}

impl Model for ArgScan {
    ghost use Rattle.macro_args.specs.Scanning.{Scanning};

    ghost Value = { Scanning };

    ghost view = { λ scan. record {
      rules = scan.rules;
      parameters = scan.parameters;
      place = scan.place;
      found = scan.found.items;
      tokens = scan.tokens.items;
      braces = scan.braces;
    } };
}

/// Whether a macro with this parameter text takes tokens. Where it doesn't, it has no arguments, and no reader is
/// wanted.
pub fn takes_tokens(parameters: &TokenList) -> bool
    ensures some { IsTrue result ↔ (0 < length parameters.now) }
    ensures none { result ≡ false → (rules : Rules) (tokens : List Token) → use_of rules parameters.now tokens ≡ Complete [] tokens }
{
    !parameters.as_slice().is_empty()
}

impl ArgScan {
    /// A reader for a macro with this parameter text, to which no token was handed.
    pub fn new(alloc: Global, rules: Rules, parameters: TokenList) -> ArgScan
        requires { 0 < length parameters }
        ensures { StandsFor rules parameters [] result }
    {
        let place = place_at(parameters.as_slice(), 0);
        ArgScan {
            alloc,
            rules,
            parameters,
            place,
            found: Vec::new(alloc),
            tokens: Vec::new(alloc),
            braces: Braces::none(),
        }
    }

    /// Takes the next token, unexpanded. No further call is made after an answer other than `Need`, nor after a
    /// refusal for want of memory.
    pub fn take(&mut self, token: Token) -> Result<Verdict, AllocError>
        ensures tells { IfOk result (λ verdict. (rules : Rules) (parameters taken : List Token)
            → StandsFor rules parameters taken self.old → Tells rules parameters (taken ++ token ∷ []) verdict self.new) }
    {
        self.step(token)
    }

    /// The arguments, in the order of their parameters.
    pub fn arguments(self) -> Vec<TokenList>
        ensures { result.items ≡ self.found }
    {
        self.found
    }

    fn step(&mut self, token: Token) -> Result<Verdict, AllocError>
        ensures { IfOk result (λ verdict. IsSound self.old → scan_rest self.old [] ≡ Open → Steps self.old token verdict self.new) }
    {
        match self.place {
            Place::Front { next } => Ok(self.match_front(next, token)),
            Place::Argument { begin, end } => self.collect(begin, end, token),
            Place::End => Ok(Verdict::Done),
        }
    }

    fn match_front(&mut self, next: usize, token: Token) -> Verdict
        ensures { self.old.place ≡ Place.Front next → IsSound self.old → Steps self.old token result self.new }
    {
        let parameters = self.parameters.as_slice();
        match parameters.get(next) {
            None => Verdict::Done,
            Some(wanted) => {
                if !wanted.is_same(&token) {
                    return Verdict::Refused(Refusal::NoMatch);
                }
                self.place = place_at(parameters, next + 1);
                self.verdict()
            }
        }
    }

    fn collect(&mut self, begin: usize, end: usize, token: Token) -> Result<Verdict, AllocError>
        ensures { IfOk result (λ verdict. self.old.place ≡ Place.Argument begin end → IsSound self.old → Steps self.old token verdict self.new) }
    {
        self.tokens.push(token)?;
        self.braces = self.braces.with(token);
        let delimiter = delimiter(self.parameters.as_slice(), begin, end);
        let own = delimiter.len();
        match judged(
            self.rules,
            delimiter,
            self.tokens.as_slice(),
            self.braces,
            token,
        ) {
            Judgement::Passed => {
                self.begin_argument();
                Ok(Verdict::Need)
            }
            Judgement::Going => Ok(Verdict::Need),
            Judgement::Found => self.end_argument(own, end),
            Judgement::Refused(refusal) => Ok(Verdict::Refused(refusal)),
        }
    }

    fn begin_argument(&mut self)
        ensures { self.new ≡ record self.old { tokens = []; braces = no_braces } }
    {
        self.tokens.clear();
        self.braces = Braces::none();
    }

    fn end_argument(&mut self, own: usize, end: usize) -> Result<Verdict, AllocError>
        ensures { IfOk result (λ verdict. EndsArgument own end self.old verdict self.new) }
    {
        let length = self.tokens.len().saturating_sub(own);
        let argument = without_braces(&self.tokens.as_slice()[..length]);
        match argument_list(self.alloc, argument)? {
            None => Ok(Verdict::Refused(Refusal::TooLong)),
            Some(list) => {
                self.found.push(list)?;
                self.begin_argument();
                self.place = place_at(self.parameters.as_slice(), end);
                Ok(self.verdict())
            }
        }
    }

    fn verdict(&self) -> Verdict
        ensures { result ≡ verdict_at self.now.place }
    {
        match self.place {
            Place::Front { .. } | Place::Argument { .. } => Verdict::Need,
            Place::End => Verdict::Done,
        }
    }
}

/// The list of an argument, none where it would have too many tokens.
fn argument_list(alloc: Global, tokens: &[Token]) -> Result<Option<TokenList>, AllocError>
    ensures { IfOk result (λ list. list ≡ argument_list tokens.now) }
{
    match TokenList::from_slice(alloc, tokens) {
        Ok(list) => Ok(Some(list)),
        Err(Stop::Capacity(_)) => Ok(None),
        Err(Stop::OutOfMemory) => Err(AllocError),
        Err(Stop::Trouble(_) | Stop::Spent | Stop::ReadFault | Stop::WriteFault) => unreachable!(),
    }
}
