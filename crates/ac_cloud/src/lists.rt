//! The lists of all providers, one after the other in one vector.
ghost use Rattle.std.specs.Prelude.{◌≡◌, ◌≤◌, ◌<◌, ◌-◌, ◌++◌, [], ◌∷◌, length, get_or, take, drop, IfOk};
ghost use Rattle.std.specs.List.{sum_by};
ghost use Rattle.ac_cloud.specs.ListBounds.{AreLaidOut, AreLaidOut-prop};

use std::alloc::{AllocError, Global};

/// A list for each provider: where it starts, and behind all lists where the last one ends.
#[derive(Drop)]
pub struct Lists<X> {
    pub items: Vec<X>,
    pub starts: Vec<usize>,
    ghost bounds: { AreLaidOut (length items.items) starts.items } by { AreLaidOut-prop (length items.items) starts.items },
}

// A part of a list.
fn cut<X>(items: &[X], from: usize, to: usize) -> &[X]
    requires order { from ≤ to }
    requires inside { to ≤ length items.now }
    ensures { result.now ≡ take (to - from) (drop from items.now) }
{
    &items[from..to]
}

#[tactic(auto, unfolding(crate::specs::ListBounds::AreLaidOut), using(crate::proofs::ListFacts::of_lists))]
impl<X> Lists<X> {
    ghost use Rattle.ac_cloud.specs.ListsOf.{lists_of};

    /// None yet.
    #[tactic(auto, unfolding(crate::specs::ListBounds::AreLaidOut, crate::specs::ListBounds::lists_in))]
    pub fn new(alloc: Global) -> Result<Lists<X>, AllocError>
        ensures { IfOk result (λ new. lists_of new ≡ []) }
    {
        let mut starts = Vec::new(alloc);
        starts.push(0)?;
        Ok(Lists {
            items: Vec::new(alloc),
            starts,
        })
    }

    /// How many lists there are.
    pub fn len(&self) -> usize
        ensures { result ≡ length (lists_of self.now) }
    {
        self.starts.len() - 1
    }

    /// How many items all lists have.
    pub fn count(&self) -> usize
        ensures sum { result ≡ sum_by length (lists_of self.now) }
        ensures items { result ≡ length self.now.items.items }
    {
        self.items.len()
    }

    /// The list of a provider.
    pub fn of(&self, place: usize) -> &[X]
        requires { place < length (lists_of self.now) }
        ensures { result.now ≡ get_or (lists_of self.now) place [] }
    {
        cut(&self.items, self.starts[place], self.starts[place + 1])
    }
}

impl<X: Drop> Lists<X> {
    ghost use Rattle.ac_cloud.specs.ListsOf.{lists_of};

    /// Moves a list behind the others, which leaves it empty.
    #[tactic(auto, unfolding(crate::specs::ListBounds::AreLaidOut), using(crate::proofs::ListFacts::one_more))]
    pub fn append(&mut self, list: &mut Vec<X>) -> Result<(), AllocError>
        ensures lists { IfOk result (λ _.
            lists_of self.new ≡ lists_of self.old ++ list.old.items ∷ []) }
        ensures empty { IfOk result (λ _. list.new.items ≡ []) }
    {
        self.starts.reserve(1)?;
        self.items.append(list)?;
        self.starts.push_reserved(self.items.len());
        Ok(())
    }
}

impl<X: Copy> Lists<X> {
    ghost use Rattle.ac_cloud.specs.ListsOf.{lists_of};

    /// Puts a list behind the others.
    #[tactic(auto, unfolding(crate::specs::ListBounds::AreLaidOut), using(crate::proofs::ListFacts::one_more))]
    pub fn push(&mut self, list: &[X]) -> Result<(), AllocError>
        ensures { IfOk result (λ _. lists_of self.new ≡ lists_of self.old ++ list.now ∷ []) }
    {
        self.starts.reserve(1)?;
        self.items.extend_from_slice(list)?;
        self.starts.push_reserved(self.items.len());
        Ok(())
    }
}
