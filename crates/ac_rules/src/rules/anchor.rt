//! Anchor: the roots at which an assignment is available.

ghost use Rattle.std.specs.Prelude.{◌≡◌, ◌<◌, ◌&&◌, length};
ghost use Rattle.std.specs.List.{All, list_all, list_any, range_with_len};
ghost use Rattle.ac_cloud.specs.World.{is_available_at};
ghost use Rattle.ac_cloud.specs.Cloud.CloudWorld.{providers_of};
ghost use Rattle.ac_query.specs.Shown.Queries.{asked_of};
ghost use Rattle.ac_rules.specs.Together.{takes_root, anchor};

use crate::assignment::Assignment;
use crate::rules::traits::{has_all, has_none};
use ac_cloud::{Cloud, Provider};
use ac_query::Query;

/// Whether a provider is a root that has what the query asks of the root.
#[tactic(auto, unfolding(crate::specs::Together::takes_root))]
pub fn takes_root(cloud: &Cloud, query: &Query, root: u32) -> bool
    requires { root < length (providers_of cloud.now) }
    ensures { result ≡ takes_root (providers_of cloud.now) (asked_of query.now) root }
{
    let root = Provider { cloud, ix: root };
    root.is_root()
        && has_all(&root, query.root_required())
        && has_none(&root, query.root_forbidden())
}

// Whether the query takes some root of the cloud, which may host nothing.
#[tactic(auto, using(ac_cloud::proofs::Ranges::range_more, ac_cloud::proofs::Ranges::range_end))]
fn takes_some_root(cloud: &Cloud, query: &Query) -> bool
    ensures { result ≡ list_any (λ r. takes_root (providers_of cloud.now) (asked_of query.now) r)
        (range_with_len 0 (length (providers_of cloud.now))) }
{
    (0..cloud.len()).any(|root| takes_root(cloud, query, root))
}

impl<'a> Assignment<'a> {
    ghost use Rattle.ac_rules.specs.Shown.Assignments.{assigned_of};

    /// Whether each provider is available in the tree of a root.
    pub fn is_available_at(&self, root: u32) -> bool
        requires { root < length (providers_of self.now.cloud.now) }
        ensures { result
            ≡ list_all (λ p. is_available_at (providers_of self.now.cloud.now) p root)
            self.now.list.now }
    {
        self.list.iter().all(|ix| self.cloud.available(*ix, root))
    }

    // Whether the query takes one of these roots, and each provider is available in its tree.
    fn has_anchor_among(&self, roots: &[u32]) -> bool
        requires { All (λ r. r < length (providers_of self.now.cloud.now)) roots.now }
        ensures { result ≡ list_any (λ r.
            takes_root (providers_of self.now.cloud.now) (asked_of self.now.query.now) r
            && list_all (λ p. is_available_at (providers_of self.now.cloud.now) p r)
            self.now.list.now) roots.now }
    {
        roots.iter().any(|root| takes_root(self.cloud, self.query, *root)
            && self.is_available_at(*root))
    }

    /// Anchor: whether each provider is available in the tree of some root that the query takes.
    /// It looks only at the roots where the first provider is available.
    pub fn has_anchor(&self) -> bool
        ensures { result ≡ anchor (providers_of self.now.cloud.now) (asked_of self.now.query.now)
            (assigned_of self.now) }
    {
        match self.list.first() {
            Some(ix) => self.has_anchor_among(self.cloud.anchors(*ix)),
            None => takes_some_root(self.cloud, self.query),
        }
    }
}
