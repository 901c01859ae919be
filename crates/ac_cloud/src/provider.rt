//! The providers of a cloud one by one: what each has, and where it stands.

ghost use Rattle.std.specs.Prelude.{◌≡◌, ◌<◌, length, map};
ghost use Rattle.std.specs.List.Sorted.{IsStrictlySortedBy};
ghost use Rattle.std.specs.Ordering.{nat_cmp};
ghost use Rattle.std.specs.Option.{is_some, option_map, option_copied};
ghost use Rattle.ac_base.specs.Names.{class_bytes, trait_bytes};
ghost use Rattle.ac_cloud.specs.Cloud.CloudWorld.{providers_of};
ghost use Rattle.ac_cloud.specs.World.{entry_in, has_trait, is_root, left_of, parent_of, root_provider, shares, used_of};

use crate::cloud::Cloud;
use ac_base::{ClassName, Id, Inventory, TraitName};

/// A provider of a cloud.
#[derive(Clone, Copy)]
pub struct Provider<'a> {
    pub cloud: &'a Cloud,
    pub ix: u32,
    ghost inside: { ix < length (providers_of cloud.now) },
}

impl<'a> Provider<'a> {
    ghost use Rattle.ac_cloud.specs.Providers.{provider_of};

    /// Its UUID.
    pub fn id(&self) -> Id
        ensures { result ≡ (provider_of self.now).id }
    {
        self.cloud.id(self.ix)
    }

    /// Its inventory of a class, where it has one.
    pub fn inventory(&self, class: &ClassName) -> Option<&'a Inventory>
        ensures { option_copied result ≡ option_map (λ h. h.inventory)
            (entry_in (provider_of self.now) (class_bytes class.now)) }
    {
        self.cloud.inventory(self.ix, class)
    }

    /// How much of a class is used of it, 0 where it has none.
    pub fn used(&self, class: &ClassName) -> u64
        ensures { result ≡ used_of (provider_of self.now) (class_bytes class.now) }
    {
        self.cloud.used(self.ix, class)
    }

    /// How much of a class is left of it, beside what is used; 0 where it has none.
    pub fn left(&self, class: &ClassName) -> u64
        ensures { result ≡ left_of (option_map (λ h. h.inventory)
            (entry_in (provider_of self.now) (class_bytes class.now)))
            (used_of (provider_of self.now) (class_bytes class.now)) }
    {
        match self.cloud.find_entry(self.ix, class) {
            Some(entry) => entry.inventory().capacity().saturating_sub(entry.used()),
            None => 0,
        }
    }

    /// Its traits in byte order, each once.
    pub fn traits(&self) -> &'a [TraitName]
        ensures { map trait_bytes result.now ≡ (provider_of self.now).traits }
    {
        self.cloud.traits(self.ix)
    }

    /// Whether it has a trait.
    pub fn has_trait(&self, name: &TraitName) -> bool
        ensures { result ≡ has_trait (provider_of self.now) (trait_bytes name.now) }
    {
        self.cloud.has_trait(self.ix, name)
    }

    /// The aggregates to which it itself belongs, in order, each once.
    pub fn aggregates(&self) -> &'a [Id]
        ensures aggregates { result.now ≡ (provider_of self.now).aggregates }
        ensures rising { IsStrictlySortedBy nat_cmp result.now }
    {
        self.cloud.aggregates(self.ix)
    }

    /// Whether it shares what it has with the trees with which it has an aggregate in common.
    pub fn shares(&self) -> bool
        ensures { result ≡ shares (provider_of self.now) }
    {
        self.cloud.shares(self.ix)
    }

    /// Whether it has a parent.
    pub fn has_parent(&self) -> bool
        ensures { result
            ≡ is_some (parent_of (providers_of self.now.cloud.now) (provider_of self.now).id) }
    {
        self.cloud.parent(self.ix).is_some()
    }

    /// The root of its tree; a root is its own.
    pub fn root(&self) -> Provider<'a>
        ensures cloud { result.cloud.now ≡ self.now.cloud.now }
        ensures root { provider_of result
            ≡ root_provider (providers_of self.now.cloud.now) (provider_of self.now) }
    {
        Provider {
            cloud: self.cloud,
            ix: self.cloud.root(self.ix),
        }
    }

    /// Whether it is a root.
    #[tactic(auto, using(crate::proofs::Roots::available_itself))]
    pub fn is_root(&self) -> bool
        ensures { result ≡ is_root (providers_of self.now.cloud.now) (provider_of self.now).id }
    {
        self.cloud.available(self.ix, self.ix)
    }
}

impl Cloud {
    /// The provider at a place.
    pub fn provider(&self, ix: u32) -> Provider
        requires { ix < length (providers_of self.now) }
        ensures cloud { result.cloud.now ≡ self.now }
        ensures place { result.ix ≡ ix }
    {
        Provider { cloud: self, ix }
    }
}
