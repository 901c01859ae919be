//! The walk at one root.
ghost use Rattle.std.specs.Prelude.{◌≡◌, ◌==◌, ◌&&◌, ◌<◌, length, map, option_map, None, IfOk, IfSome};
ghost use Rattle.std.specs.List.{range_with_len};
ghost use Rattle.ac_cloud.specs.Cloud.CloudWorld.{providers_of};
ghost use Rattle.ac_query.specs.Shown.Queries.{asked_of};
ghost use Rattle.ac_query.specs.Tokens as tokens;
ghost use Rattle.ac_rules.specs.Together.{takes_root};
ghost use Rattle.ac_search.specs.At.{rest_at};

use crate::walk::Walk;
use ac_base::NoMemory;
use ac_cloud::Cloud;
use ac_query::{Query, Token};
use ac_rules::Source;
use ac_rules::rules::anchor::takes_root;
use std::alloc::Global;

// A root, marked among all providers where the query takes it.
fn mark_taken(alloc: Global, cloud: &Cloud, query: &Query, root: u32) -> Result<Vec<bool>, NoMemory>
    requires { root < length (providers_of cloud.now) }
    ensures { IfOk result (λ marks. marks.items
        ≡ map (λ ix. (ix == root) && takes_root (providers_of cloud.now) (asked_of query.now) root)
        (range_with_len 0 (length (providers_of cloud.now)))) }
{
    let takes = takes_root(cloud, query, root);
    let marks = (0..cloud.len()).map(|ix| ix == root && takes);
    Ok(marks.collect(alloc)?)
}

impl<'a> Walk<'a> {
    ghost use Rattle.ac_search.specs.Shown.Walk.{cloud_in, query_in, token_in, probes_in, most_in, given_in, left_of};

    /// Begins with the first candidate after the ids of a token, or with the first of all. Where a root is named, only those are given at which all providers
    /// are available in its tree, and none if the query doesn't take it.
    pub fn at(
        alloc: Global,
        cloud: &'a Cloud,
        query: &'a Query,
        after: Option<&Token>,
        root: Option<u32>,
    ) -> Result<Walk<'a>, NoMemory>
        requires { IfSome root (λ place. place < length (providers_of cloud.now)) }
        ensures left { IfOk result (λ walk. ⟦<Walk<'a> as Source>⟧.left walk
            ≡ rest_at (providers_of cloud.now) (asked_of query.now) root
            (option_map (λ t. tokens.ids_of t.now) after.entry)) }
        ensures cloud { IfOk result (λ walk. cloud_in walk ≡ providers_of cloud.now) }
        ensures query { IfOk result (λ walk. query_in walk ≡ asked_of query.now) }
        ensures token { IfOk result (λ walk. token_in walk
            ≡ option_map (λ t. tokens.ids_of t.now) after.entry) }
        ensures probes { IfOk result (λ walk. probes_in walk ≡ 0) }
        ensures most { IfOk result (λ walk. most_in walk ≡ None) }
        ensures last { IfOk result (λ walk. given_in walk ≡ None) }
    {
        match root {
            None => Walk::new(alloc, cloud, query, after),
            Some(root) => {
                let marks = mark_taken(alloc, cloud, query, root)?;
                Walk::begin(alloc, cloud, query, after, Some(marks))
            }
        }
    }
}
