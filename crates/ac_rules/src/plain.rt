//! The plain source, to compare the walk with: it goes through all lists and judges each.
ghost use Rattle.std.specs.Prelude.{◌≡◌, ◌<◌, ◌&&◌, length, [], ◌∷◌, IfOk};
ghost use Rattle.std.specs.Bool.{MatchBool};
ghost use Rattle.std.specs.Option.{option_map};
ghost use Rattle.std.specs.List.{All};
ghost use Rattle.ac_cloud.specs.Cloud.CloudWorld.{providers_of};
ghost use Rattle.ac_query.specs.Asked.{slots_of};
ghost use Rattle.ac_query.specs.Shown.Queries.{asked_of};
ghost use Rattle.ac_query.specs.Tokens as tokens;
ghost use Rattle.ac_rules.specs.Judge.{is_candidate};
ghost use Rattle.ac_rules.specs.Pages.{is_after, rest};
ghost use Rattle.ac_rules.specs.Shown.Lists.{list_of, bound_of};

mod after;
mod lists;
mod odometer;

use crate::judge::is_candidate;
use crate::plain::after::is_after;
use crate::plain::lists::AllLists;
use crate::slots::count_slots;
use crate::source::{Source, TooManyTries};
use ac_base::{Id, NoMemory};
use ac_cloud::Cloud;
use ac_query::{Query, Token};
use std::alloc::Global;

/// Goes through all lists of providers in order, and gives those that are candidates.
#[derive(Drop)]
pub struct Plain<'a> {
    cloud: &'a Cloud,
    query: &'a Query,
    // The ids that it begins after.
    after: Option<Vec<Id>>,
    lists: AllLists,
    ghost providers: { bound_of lists ≡ length (providers_of cloud.now) },
    ghost slots: { length (list_of lists) ≡ length (slots_of (asked_of query.now)) },
}

impl<'a> Plain<'a> {
    ghost use Rattle.ac_rules.specs.Shown.Plain.{after_of, left_of};

    /// Begins with the first candidate after the ids of a token, or with the first of all. It takes all its memory
    /// here; `next` takes none.
    #[tactic(auto, unfolding(crate::specs::Pages::rest, crate::specs::Pages::candidates))]
    pub fn new(
        alloc: Global,
        cloud: &'a Cloud,
        query: &'a Query,
        after: Option<&Token>,
    ) -> Result<Plain<'a>, NoMemory>
        ensures { IfOk result (λ plain. ⟦<Plain<'a> as Source>⟧.left plain
            ≡ rest (providers_of cloud.now) (asked_of query.now)
            (option_map (λ t. tokens.ids_of t.now) after.entry)) }
    {
        let after = copy_ids(alloc, after)?;
        let lists = AllLists::new(alloc, count_slots(query), cloud.len())?;
        Ok(Plain {
            cloud,
            query,
            after,
            lists,
        })
    }

    // Whether the list that it has come to comes after the ids.
    fn is_after(&self) -> bool
        requires { All (λ p. p < length (providers_of self.now.cloud.now))
            (list_of self.now.lists) }
        ensures { result ≡ is_after (providers_of self.now.cloud.now) (after_of self.now)
            (list_of self.now.lists) }
    {
        match &self.after {
            Some(ids) => is_after(self.cloud, ids, self.lists.list()),
            None => true,
        }
    }

    // Whether the list that it has come to is a candidate, and comes after the ids.
    fn is_wanted(&self) -> bool
        requires { All (λ p. p < length (providers_of self.now.cloud.now))
            (list_of self.now.lists) }
        ensures { result
            ≡ (is_candidate (providers_of self.now.cloud.now) (asked_of self.now.query.now)
            (list_of self.now.lists) && is_after (providers_of self.now.cloud.now)
            (after_of self.now) (list_of self.now.lists)) }
    {
        is_candidate(self.cloud, self.query, self.lists.list()) && self.is_after()
    }

    // Goes on to the next candidate after the ids, where there is one.
    fn step(&mut self) -> bool
        ensures { MatchBool result (left_of self.old ≡ list_of self.new.lists ∷ left_of self.new)
            ((left_of self.old ≡ []) × (left_of self.new ≡ [])) }
    {
        while self.lists.step() {
            if self.is_wanted() {
                return true;
            }
        }
        false
    }
}

impl<'a> Source for Plain<'a> {
    ghost use Rattle.ac_rules.specs.Shown.Plain.{left_of};

    ghost left = { left_of };

    fn next(&mut self) -> Result<Option<&[u32]>, TooManyTries> {
        if self.step() {
            Ok(Some(self.lists.list()))
        } else {
            Ok(None)
        }
    }
}

// The ids of a token, where there is one.
fn copy_ids(alloc: Global, token: Option<&Token>) -> Result<Option<Vec<Id>>, NoMemory>
    ensures { IfOk result (λ ids. option_map (λ list. list.items) ids
        ≡ option_map (λ t. tokens.ids_of t.now) token.entry) }
{
    match token {
        Some(token) => Ok(Some(Vec::from_slice(alloc, token.ids())?)),
        None => Ok(None),
    }
}
