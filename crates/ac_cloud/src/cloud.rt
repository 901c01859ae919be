//! The cloud that accepted tables state.

mod ancestry;
mod anchors;
pub mod build;
mod distinct_roots;
pub mod entry;
mod kept_lists;
mod lookups;
pub mod provider_index;
pub mod provider_name;
pub mod roots;
mod roots_by_aggregate;

ghost use Rattle.std.specs.Prelude.{◌≡◌, ◌<◌, Some, None, [], map, length, get_or, IfSome, MatchOption};
ghost use Rattle.std.specs.Option.{option_map, option_copied};
ghost use Rattle.ac_base.specs.Names.{class_bytes, trait_bytes};
ghost use Rattle.ac_cloud.specs.Cloud.CloudParts.{BelongTogether, BelongTogether-prop};
ghost use Rattle.std.specs.List.Sorted.{IsStrictlySortedBy};
ghost use Rattle.std.specs.Ordering.{nat_cmp};
ghost use Rattle.ac_cloud.specs.ListsOf.{lists_of};
ghost use Rattle.ac_cloud.specs.Cloud.Anchors.{list_items};
ghost use Rattle.ac_cloud.specs.Cloud.Entries.{entry_pair, entry_value};
ghost use Rattle.ac_cloud.specs.Amounts.{amount_at, with_amounts};
ghost use Rattle.ac_cloud.specs.World.{provider_at, id_at, place_of, parent_of, root_of, is_above, entry_in, used_of, has_trait, shares, is_available_at, anchors_of};

use crate::cloud::ancestry::Visits;
use crate::cloud::anchors::Anchors;
use crate::cloud::entry::Entry;
use crate::cloud::lookups::{find_entry, find_place, has_name};
use crate::cloud::provider_index::Ids;
use crate::lists::Lists;
use ac_base::{ClassName, Id, Inventory, TraitName};

/// How much the tables tell.
#[derive(Clone, Copy, Debug, PartialEq, Eq)]
pub struct Counts {
    /// The providers.
    pub providers: u32,
    /// The rows of inventories.
    pub inventories: u32,
    /// The rows of usages.
    pub usages: u32,
    /// The pairs of a provider and a trait, each once.
    pub traits: u32,
    /// The pairs of a provider and an aggregate, each once.
    pub aggregates: u32,
}

/// The providers of a cloud, numbered from 0 in the order of their UUIDs, with their trees and all that is told of them.
#[derive(Drop)]
pub struct Cloud {
    pub(crate) ids: Ids,
    pub(crate) parents: Vec<Option<u32>>,
    pub(crate) roots: Vec<u32>,
    pub(crate) entries: Lists<Entry>,
    pub(crate) traits: Lists<TraitName>,
    pub(crate) aggregates: Lists<Id>,
    pub(crate) names: Lists<u8>,
    pub(crate) sharing: Vec<bool>,
    pub(crate) anchors: Anchors,
    pub(crate) visits: Option<Visits>,
    pub(crate) counts: Counts,
    ghost whole: { BelongTogether ids.ids.items parents.items roots.items (lists_of entries) (lists_of traits) (lists_of aggregates) (lists_of names) sharing.items anchors visits } by { BelongTogether-prop ids.ids.items parents.items roots.items (lists_of entries) (lists_of traits) (lists_of aggregates) (lists_of names) sharing.items anchors visits },
}

#[tactic(auto, using(crate::proofs::Places::CloudSets::here))]
impl Cloud {
    ghost use Rattle.ac_cloud.specs.Cloud.CloudWorld.{providers_of, root_lists_of, world_of, sizes_of};

    /// How many providers there are.
    pub fn len(&self) -> u32
        ensures { result ≡ length (providers_of self.now) }
    {
        self.ids.len() as u32
    }

    /// How much the tables told.
    pub fn counts(&self) -> Counts
        ensures { sizes_of result ≡ (world_of self.now).sizes }
    {
        self.counts
    }

    /// The UUID of a provider.
    pub fn id(&self, ix: u32) -> Id
        requires { ix < length (providers_of self.now) }
        ensures { result ≡ id_at (providers_of self.now) ix }
    {
        self.ids.ids[ix as usize]
    }

    /// A provider's name; empty where it has none.
    pub fn name(&self, ix: u32) -> &[u8]
        requires { ix < length (providers_of self.now) }
        ensures { result.now ≡ (provider_at (providers_of self.now) ix).name }
    {
        self.names.of(ix as usize)
    }

    /// The place of the provider of a UUID, where it is one.
    pub fn index_of(&self, id: Id) -> Option<u32>
        ensures { result ≡ place_of (providers_of self.now) id }
    {
        // Called for what it ensures: a place fits a u32.
        let _count = self.ids.len();
        Some(self.ids.find(id)? as u32)
    }

    /// The place of a provider's parent, where it has one.
    pub fn parent(&self, ix: u32) -> Option<u32>
        requires { ix < length (providers_of self.now) }
        ensures id { option_map (id_at (providers_of self.now)) result
            ≡ parent_of (providers_of self.now) (id_at (providers_of self.now) ix) }
        ensures inside { IfSome result (λ place. place < length (providers_of self.now)) }
    {
        self.parents[ix as usize]
    }

    /// The place of the root of a provider's tree; a root is its own.
    pub fn root(&self, ix: u32) -> u32
        requires { ix < length (providers_of self.now) }
        ensures id { id_at (providers_of self.now) result
            ≡ root_of (providers_of self.now) (id_at (providers_of self.now) ix) }
        ensures inside { result < length (providers_of self.now) }
    {
        self.roots[ix as usize]
    }

    /// What a provider has of each class, classes in byte order.
    pub fn entries(&self, ix: u32) -> &[Entry]
        requires { ix < length (providers_of self.now) }
        ensures { map entry_pair result.now ≡ (provider_at (providers_of self.now) ix).entries }
    {
        self.entries.of(ix as usize)
    }

    /// A provider's traits in byte order, each once.
    pub fn traits(&self, ix: u32) -> &[TraitName]
        requires { ix < length (providers_of self.now) }
        ensures { map trait_bytes result.now ≡ (provider_at (providers_of self.now) ix).traits }
    {
        self.traits.of(ix as usize)
    }

    // Where a class stands among a provider's entries.
    pub(crate) fn find_entry(&self, ix: u32, class: &ClassName) -> Option<&Entry>
        requires { ix < length (providers_of self.now) }
        ensures { option_map entry_value (option_copied result)
            ≡ entry_in (provider_at (providers_of self.now) ix) (class_bytes class.now) }
    {
        find_entry(self.entries.of(ix as usize), class)
    }

    /// A provider's inventory of a class, where it has one.
    pub fn inventory(&self, ix: u32, class: &ClassName) -> Option<&Inventory>
        requires { ix < length (providers_of self.now) }
        ensures { option_copied result ≡ option_map (λ h. h.inventory)
            (entry_in (provider_at (providers_of self.now) ix) (class_bytes class.now)) }
    {
        Some(self.find_entry(ix, class)?.inventory())
    }

    /// How much of a class is used of a provider, 0 where it has none.
    pub fn used(&self, ix: u32, class: &ClassName) -> u64
        requires { ix < length (providers_of self.now) }
        ensures { result ≡ used_of (provider_at (providers_of self.now) ix)
            (class_bytes class.now) }
    {
        match self.find_entry(ix, class) {
            Some(entry) => entry.used(),
            None => 0,
        }
    }

    /// Sets how much of a class is used of a provider. Nothing changes where it has none.
    pub fn set_used(&mut self, ix: u32, class: &ClassName, used: u64)
        requires { ix < length (providers_of self.old) }
        ensures providers { providers_of self.new
            ≡ with_amounts (amount_at ix (class_bytes class.now) used) (providers_of self.old) }
        ensures sizes { (world_of self.new).sizes ≡ (world_of self.old).sizes }
        ensures root_lists { root_lists_of self.new ≡ root_lists_of self.old }
    {
        let ix = ix as usize;
        if let Some(place) = find_place(self.entries.of(ix), class) {
            self.entries.set_used(ix, place, used);
        }
    }

    /// Whether a provider has a trait.
    pub fn has_trait(&self, ix: u32, name: &TraitName) -> bool
        requires { ix < length (providers_of self.now) }
        ensures { result ≡ has_trait (provider_at (providers_of self.now) ix)
            (trait_bytes name.now) }
    {
        has_name(self.traits.of(ix as usize), name)
    }

    /// The aggregates to which a provider itself belongs, in order, each once.
    pub fn aggregates(&self, ix: u32) -> &[Id]
        requires { ix < length (providers_of self.now) }
        ensures aggregates { result.now ≡ (provider_at (providers_of self.now) ix).aggregates }
        ensures rising { IsStrictlySortedBy nat_cmp result.now }
    {
        self.aggregates.of(ix as usize)
    }

    // Whether the parents of `b` lead to `a`.
    #[tactic(auto, using(crate::proofs::Places::CloudSets::here, crate::proofs::Trees::AncestorFacts::chains))]
    fn leads_to(&self, a: u32, b: u32) -> bool
        requires a { a < length (providers_of self.now) }
        requires b { b < length (providers_of self.now) }
        ensures { result ≡ is_above (providers_of self.now) (id_at (providers_of self.now) a)
            (id_at (providers_of self.now) b) }
    {
        let mut at = b;
        for _step in 0..self.ids.len() {
            if at == a {
                return true;
            }
            match self.parents[at as usize] {
                Some(parent) => at = parent,
                None => return false,
            }
        }
        at == a
    }

    /// Whether provider `a` is above `b`, or is `b`.
    pub fn is_ancestor(&self, a: u32, b: u32) -> bool
        requires a { a < length (providers_of self.now) }
        requires b { b < length (providers_of self.now) }
        ensures { result ≡ is_above (providers_of self.now) (id_at (providers_of self.now) a)
            (id_at (providers_of self.now) b) }
    {
        match &self.visits {
            Some(visits) => visits.enclose(a, b),
            None => self.leads_to(a, b),
        }
    }

    /// Whether a provider shares what it has with the trees with which it has an aggregate in common.
    pub fn shares(&self, ix: u32) -> bool
        requires { ix < length (providers_of self.now) }
        ensures { result ≡ shares (provider_at (providers_of self.now) ix) }
    {
        self.sharing[ix as usize]
    }

    /// Whether a provider is available in the tree of a root: it is of the tree, or shares with one of its providers.
    /// `false` where `root` isn't a root.
    pub fn available(&self, ix: u32, root: u32) -> bool
        requires ix { ix < length (providers_of self.now) }
        requires root { root < length (providers_of self.now) }
        ensures { result ≡ is_available_at (providers_of self.now) ix root }
    {
        self.anchors(ix).binary_search(&root).is_ok()
    }

    /// The lists of roots of all providers that share with several trees. Providers whose lists are equal mostly have one together.
    #[tactic(auto, unfolding(crate::specs::Cloud::CloudWorld::root_lists_of))]
    pub fn root_lists(&self) -> &[Vec<u32>]
        ensures { map list_items result.now ≡ root_lists_of self.now }
    {
        self.anchors.lists.as_slice()
    }

    /// The place of a provider's roots among those lists, where it is available in several trees.
    pub fn root_list(&self, ix: u32) -> Option<u32>
        requires { ix < length (providers_of self.now) }
        ensures { MatchOption result (length (anchors_of (providers_of self.now) ix) ≡ 1)
            (λ k. (k < length (root_lists_of self.now))
            × (get_or (root_lists_of self.now) k [] ≡ anchors_of (providers_of self.now) ix)) }
    {
        self.anchors.places[ix as usize]
    }

    /// The roots of all trees in which a provider is available, rising.
    pub fn anchors(&self, ix: u32) -> &[u32]
        requires { ix < length (providers_of self.now) }
        ensures { result.now ≡ anchors_of (providers_of self.now) ix }
    {
        let ix = ix as usize;
        match self.anchors.places[ix] {
            Some(place) => self.anchors.lists[place as usize].as_slice(),
            None => &self.roots[ix..=ix],
        }
    }
}
