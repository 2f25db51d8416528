//! Token lists: texts of macros and the values of token parameters, shared and never changed (`tex.web`,
//! part 27, which counts the references to a list as well).
ghost use Rattle.std.specs.Prelude.{◌≡◌, ◌↔◌, ◌<◌, [], length, IsTrue, IfOk, IfErr, IsErrOf};
ghost use Rattle.tokens.specs.Cap.{cap_limit};
ghost use Rattle.tokens.specs.Ends.{Ends, Gives};
ghost use Rattle.tokens.specs.TokenList.{list_of, same_tokens};

use crate::cap::Cap;
use crate::stop::Stop;
use crate::token::Token;
use std::alloc::{AllocError, Global};
use std::marker::Model;
use std::rc::RcSlice;

/// A list of tokens whose copies share their memory. Contracts see the list of the tokens.
#[derive(Debug, Drop)]
pub struct TokenList {
    shared: Option<RcSlice<Token>>,
}

impl Model for TokenList {
    ghost use Rattle.std.specs.Prelude.{List};
    ghost use Rattle.tokens.specs.declared.token.Token.{Token};
    ghost use Rattle.tokens.specs.Shared.{shared_items};

    ghost Value = { List Token };

    ghost view = { λ list. shared_items list.shared };
}

impl TokenList {
    /// A list of these tokens, of which there may be as many as `Cap::Items` says.
    pub fn from_slice(alloc: Global, tokens: &[Token]) -> Result<TokenList, Stop>
        ensures gives { IfOk result (λ list. Gives (list_of tokens.now) list) }
        ensures ends { IfErr result (λ stop. Ends (list_of tokens.now) stop) }
        ensures full { IsErrOf result (Stop.Capacity Cap.Items) ↔ (cap_limit Cap.Items < length tokens.now) }
    {
        if tokens.len() > Cap::Items.limit() as usize {
            return Err(Stop::Capacity(Cap::Items));
        }
        Ok(shared_list(alloc, tokens)?)
    }

    pub fn empty() -> TokenList
        ensures { result ≡ [] }
    {
        TokenList { shared: None }
    }

    pub fn as_slice(&self) -> &[Token]
        ensures { result.now ≡ self.now }
    {
        match &self.shared {
            None => &[],
            Some(shared) => shared.as_slice(),
        }
    }

    /// An equal list, which copies no token.
    pub fn share(&self) -> Result<TokenList, AllocError>
        ensures { IfOk result (λ list. list ≡ self.now) }
    {
        match &self.shared {
            None => Ok(TokenList { shared: None }),
            Some(shared) => Ok(TokenList {
                shared: Some(shared.clone()?),
            }),
        }
    }

    /// Whether the two lists have equal tokens in the same order.
    pub fn is_same(&self, other: &TokenList) -> bool
        ensures equal { IsTrue result ↔ (self.now ≡ other.now) }
        ensures value { result ≡ same_tokens self.now other.now }
    {
        are_same(self.as_slice(), other.as_slice())
    }
}

fn shared_list(alloc: Global, tokens: &[Token]) -> Result<TokenList, AllocError>
    ensures { IfOk result (λ list. list ≡ tokens.now) }
{
    if tokens.is_empty() {
        return Ok(TokenList { shared: None });
    }
    Ok(TokenList {
        shared: Some(RcSlice::from_slice(alloc, tokens)?),
    })
}

fn are_same(tokens: &[Token], others: &[Token]) -> bool
    ensures { IsTrue result ↔ (tokens.now ≡ others.now) }
{
    if tokens.len() != others.len() {
        return false;
    }
    for i in 0..tokens.len() {
        if !tokens[i].is_same(&others[i]) {
            return false;
        }
    }
    true
}
