//! Roots at which a walk looks for no more candidates, since it has found one there.
ghost use Rattle.std.specs.Prelude.{◌≡◌, ◌<◌, ◌&&◌, ◌∷◌, [], ℕ, length, false, true, not, slice_index_or, IsSome, MatchOption};
ghost use Rattle.std.specs.List.{All, Contains, list_any};
ghost use Rattle.ac_cloud.specs.Cloud.CloudWorld.{providers_of};
ghost use Rattle.ac_rules.specs.Together.{takes_root};
ghost use Rattle.ac_prune.specs.Marks.{stand_at};
ghost use Rattle.ac_search.specs.Hosts.{is_looked_at, stands, AreDone, AreUnmarked};
ghost use Rattle.ac_search.specs.Shown.Hosts.{Leaves, Settles, Stays};

use super::Walk;
use ac_cloud::Cloud;
use ac_rules::rules::anchor::takes_root;

impl<'a> Walk<'a> {
    ghost use Rattle.ac_search.specs.Shown.Walk.{cloud_in, query_in, roots_in};

    // Whether it looks no more at a root, which the query takes.
    pub(crate) fn has_left(&self, root: u32) -> bool
        requires { root < length (cloud_in self.now) }
        ensures { result ≡ (takes_root (cloud_in self.now) (query_in self.now) root
            && not (is_looked_at (roots_in self.now) root)) }
    {
        match &self.roots {
            Some(marks) => {
                takes_root(self.ledger.cloud, self.ledger.query, root) && !marks[root as usize]
            }
            None => false,
        }
    }

    // Looks no more at the roots at which the list in its path stands.
    pub(crate) fn leave_roots(&mut self)
        requires providers { All (λ p. p < length (cloud_in self.old)) self.old.path.items }
        requires some { IsSome (roots_in self.old) }
        ensures { Leaves self.old self.new }
    {
        if let Some(marks) = &mut self.roots {
            leave(self.ledger.cloud, &self.path, marks);
        }
    }

    // Whether it looks at some root at which a provider is available.
    fn looks_at(&self, ix: u32) -> bool
        requires { ix < length (cloud_in self.now) }
        ensures { result ≡ stands (cloud_in self.now) (roots_in self.now) (ix ∷ []) }
    {
        let roots = self.ledger.cloud.anchors(ix);
        match &self.roots {
            Some(marks) => has_marked(roots, marks),
            None => true,
        }
    }

    // The first root from a place on at which it looks, where there is one.
    pub(crate) fn next_root(&self, from: usize) -> Option<usize>
        ensures { MatchOption result
            (AreDone (cloud_in self.now) (roots_in self.now) from (length (cloud_in self.now)))
            (AreDone (cloud_in self.now) (roots_in self.now) from) }
    {
        match &self.roots {
            Some(marks) => next_marked(marks, from),
            None => Some(from),
        }
    }

    // Goes up in its path until no provider of it has roots of which it looks at none: no candidate that is left begins so.
    pub(crate) fn leave_path(&mut self)
        requires settles { Settles self.old }
        requires providers { All (λ p. p < length (cloud_in self.old)) self.old.path.items }
        ensures { Stays self.old self.new }
    {
        let ix = narrowest(self.ledger.cloud, &self.path);
        if self.looks_at(ix) {
            return;
        }
        'back: while self.path[..self.depth].contains(&ix) {
            self.take_back();
        }
    }
}

// One of some providers, that is available in the fewest trees.
fn narrowest(cloud: &Cloud, list: &[u32]) -> u32
    requires providers { All (λ p. p < length (providers_of cloud.now)) list.now }
    requires some { 0 < length list.now }
    ensures { Contains list.now result }
{
    let mut narrowest = list[0];
    for ix in list {
        if cloud.anchors(*ix).len() < cloud.anchors(narrowest).len() {
            narrowest = *ix;
        }
    }
    narrowest
}

// Whether all of some providers are available in the tree of a root.
fn stand_at(cloud: &Cloud, list: &[u32], root: u32) -> bool
    requires providers { All (λ p. p < length (providers_of cloud.now)) list.now }
    requires root { root < length (providers_of cloud.now) }
    ensures { result ≡ stand_at (providers_of cloud.now) list.now root }
{
    list.iter().all(|ix| cloud.available(*ix, root))
}

// The first marked root from a place on, where there is one.
fn next_marked(marks: &[bool], from: usize) -> Option<usize>
    ensures { MatchOption result (AreUnmarked marks.now from (length marks.now))
        (AreUnmarked marks.now from) }
{
    for at in from..marks.len() {
        if marks[at] {
            return Some(at);
        }
    }
    None
}

// Whether some root is marked.
fn has_marked(roots: &[u32], marks: &[bool]) -> bool
    requires { All (λ r. r < length marks.now) roots.now }
    ensures { result ≡ list_any (λ r. slice_index_or marks.now r false) roots.now }
{
    roots.iter().any(|root| marks[*root as usize])
}

// Takes the marks off the roots at which a list stands.
fn leave(cloud: &Cloud, list: &[u32], marks: &mut [bool])
    requires providers { All (λ p. p < length (providers_of cloud.now)) list.now }
    requires some { 0 < length list.now }
    requires count { length marks.old ≡ length (providers_of cloud.now) }
    ensures { (r : ℕ) → r < length (providers_of cloud.now) → slice_index_or marks.new r false
        ≡ (slice_index_or marks.old r false && not (stand_at (providers_of cloud.now) list.now r)) }
{
    let roots = cloud.anchors(narrowest(cloud, list));
    for root in roots {
        if stand_at(cloud, list, *root) {
            marks[*root as usize] = false;
        }
    }
}
