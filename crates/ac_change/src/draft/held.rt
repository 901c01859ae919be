//! A provider as it is held while it changes: plain values, with the root of its tree.
ghost use Rattle.std.specs.Prelude.{map};
ghost use Rattle.std.specs.List.Sorted.{IsStrictlySortedBy};
ghost use Rattle.std.specs.Map.{keys_of};
ghost use Rattle.std.specs.Ordering.{nat_cmp};
ghost use Rattle.std.proofs.lemmas.Map.Keys.{IsStrictlySortedBy-prop};
ghost use Rattle.ac_base.specs.Names.{trait_bytes};
ghost use Rattle.ac_base.specs.Texts.{text_cmp};
ghost use Rattle.ac_cloud.specs.Cloud.Entries.{entry_pair};

use ac_base::{Id, TraitName};
use ac_cloud::Entry;

// A provider, what it has of each class, its traits and its aggregates in order.
#[derive(Drop)]
pub(crate) struct Held {
    pub(crate) id: Id,
    pub(crate) root: Id,
    pub(crate) parent: Option<Id>,
    pub(crate) name: Vec<u8>,
    pub(crate) entries: Vec<Entry>,
    pub(crate) traits: Vec<TraitName>,
    pub(crate) aggregates: Vec<Id>,
    ghost classes_rise: { IsStrictlySortedBy text_cmp (keys_of (map entry_pair entries.items)) } by { IsStrictlySortedBy-prop text_cmp (keys_of (map entry_pair entries.items)) },
    ghost names_rise: { IsStrictlySortedBy text_cmp (map trait_bytes traits.items) } by { IsStrictlySortedBy-prop text_cmp (map trait_bytes traits.items) },
    ghost aggregates_rise: { IsStrictlySortedBy nat_cmp aggregates.items } by { IsStrictlySortedBy-prop nat_cmp aggregates.items },
}
