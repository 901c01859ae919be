//! The claims that have a name.
ghost use Rattle.std.specs.Prelude.{◌≡◌, ℕ, IfOk, List, None, OnOk, Some, option_map};
ghost use Rattle.ac_session.specs.Held.{claim_shown, named_in, standing};

use ac_base::NoMemory;
use std::alloc::Global;
use std::collections::BTreeMap;

/// A claim: the query and the token by which it was made.
#[derive(Clone, Drop)]
pub(crate) struct Claim {
    pub(super) query: String,
    pub(super) token: String,
}

/// What each name stands for.
#[derive(Drop)]
pub(crate) struct Names {
    claims: BTreeMap<String, Claim>,
}

impl Claim {
    /// A claim of a query by a token.
    pub(super) fn new(alloc: Global, query: &str, token: &str) -> Result<Claim, NoMemory>
        ensures { IfOk result (λ claim. claim_shown claim
            ≡ record { query = query.now; token = token.now }) }
    {
        Ok(Claim {
            query: String::from_str(alloc, query)?,
            token: String::from_str(alloc, token)?,
        })
    }
}

impl Names {
    /// No names.
    pub(super) fn new(alloc: Global) -> Names
        ensures { named_in result ≡ (λ name. None) }
    {
        Names {
            claims: BTreeMap::new(alloc),
        }
    }

    /// The same names, for the same claims.
    pub(super) fn copy(&self) -> Result<Names, NoMemory>
        ensures { IfOk result (λ names. named_in names ≡ named_in self.now) }
    {
        let claims = self.claims.clone()?;
        Ok(Names { claims })
    }

    /// The claim that a name stands for.
    pub(super) fn find(&self, name: &str) -> Option<&Claim>
        ensures { option_map (λ c. claim_shown c.now) result ≡ named_in self.now name.now }
    {
        self.claims.get(name)
    }

    /// From now on a name stands for this claim.
    pub(super) fn set(&mut self, alloc: Global, name: &str, claim: Claim) -> Result<(), NoMemory>
        ensures { OnOk result (named_in self.new
            ≡ standing name.now (Some (claim_shown claim)) (named_in self.old)) }
    {
        let name = String::from_str(alloc, name)?;
        self.claims.insert(name, claim)?;
        Ok(())
    }

    /// From now on a name stands for nothing.
    pub(super) fn remove(&mut self, name: &str)
        ensures { named_in self.new ≡ standing name.now None (named_in self.old) }
    {
        self.claims.remove(name);
    }
}
