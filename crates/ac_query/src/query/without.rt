//! A query without one of the things that it asks of several slots together.
ghost use Rattle.std.specs.Prelude.{◌≡◌, ◌<◌, IfOk, length};
ghost use Rattle.ac_query.specs.Shown.Queries.{asked_of};
ghost use Rattle.ac_query.specs.Without.{without_policy, without_required, without_subtree};

use super::Query;
use ac_base::NoMemory;
use std::alloc::Global;

impl Query {
    /// The query without its policy.
    pub fn without_policy(self) -> Query
        ensures { asked_of result ≡ without_policy (asked_of self) }
    {
        let mut query = self;
        query.policy = None;
        query
    }

    /// The query without list `k` of `same_subtree`.
    pub fn without_subtree(self, k: usize) -> Query
        requires { k < length (asked_of self).subtrees }
        ensures { asked_of result ≡ without_subtree k (asked_of self) }
    {
        let mut query = self;
        let _list = query.subtrees.remove(k);
        query
    }

    /// The query without the traits that its group without a suffix requires, and without that group's lists of which one trait each is asked.
    pub fn without_required(self, alloc: Global) -> Result<Query, NoMemory>
        ensures { IfOk result (λ query. asked_of query ≡ without_required (asked_of self)) }
    {
        let Query {
            groups,
            slots,
            policy,
            subtrees,
            root_required,
            root_forbidden,
            limit,
        } = self;
        let mut list = Vec::new(alloc);
        for group in groups {
            list.push(group.relaxed())?;
        }
        Ok(Query {
            groups: list,
            slots,
            policy,
            subtrees,
            root_required,
            root_forbidden,
            limit,
        })
    }
}
