//! Tokens: a place in the order of candidates.
ghost use Rattle.std.specs.Prelude.{◌≡◌, None, Some, IfOk, IfErr, IfSome, OnOk};
ghost use Rattle.ac_query.specs.Pairs.Values.{ids_value};
ghost use Rattle.ac_query.specs.Shown.Queries.{asked_of};
ghost use Rattle.ac_query.specs.Tokens.{ids_of, token_fault, fault_told};

use crate::query::Query;
use crate::reading::items::read_list;
use ac_base::{Id, NoMemory};
use std::alloc::Global;
use thiserror::Error;

/// Why a token is refused.
#[derive(Clone, Copy, Debug, PartialEq, Eq, Error)]
pub enum TokenFault {
    /// A part is no UUID.
    #[error("bad token")]
    BadToken,
    /// There aren't as many parts as the query has slots.
    #[error("wrong length")]
    WrongLength,
    #[error("out of memory")]
    NoMemory,
}

impl From<NoMemory> for TokenFault {
    ghost use Rattle.std.specs.Prelude.{◌≡◌};
    ghost use Rattle.ac_query.specs.declared.token.TokenFault.TheVariants.{NoMemory as refused};

    ghost from_gives = { λ _ e. e ≡ refused };

    fn from(_error: NoMemory) -> TokenFault {
        TokenFault::NoMemory
    }
}

/// A place in the order of candidates: a UUID for each slot.
#[derive(Debug, Drop)]
pub struct Token {
    ids: Vec<Id>,
}

impl Token {
    /// Reads UUIDs between commas, one for each slot of the query. They needn't be those of a candidate.
    #[tactic(auto, unfolding(crate::specs::Pairs::Values::ids_value))]
    pub fn read(alloc: Global, text: &str, query: &Query) -> Result<Token, TokenFault>
        ensures ok { OnOk result (token_fault (asked_of query.now) text.now ≡ None) }
        ensures ids { IfOk result (λ token. ids_value text.now ≡ Some (ids_of token)) }
        ensures fault { IfErr result (λ e. IfSome (fault_told e) (λ f.
            token_fault (asked_of query.now) text.now ≡ Some f)) }
    {
        let Some(ids) = read_list(alloc, text)? else {
            return Err(TokenFault::BadToken);
        };
        if ids.len() != query.slots().len() {
            return Err(TokenFault::WrongLength);
        }
        Ok(Token { ids })
    }

    /// The UUIDs, in order of slots.
    pub fn ids(&self) -> &[Id]
        ensures { result.now ≡ ids_of self.now }
    {
        self.ids.as_slice()
    }
}
