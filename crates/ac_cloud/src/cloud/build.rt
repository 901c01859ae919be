//! The cloud of what was read.
ghost use Rattle.std.specs.Prelude.{◌≡◌, map, length, IfOk};
ghost use Rattle.std.specs.List.{All};
ghost use Rattle.std.specs.List.Sorted.{IsStrictlySortedBy};
ghost use Rattle.std.specs.Ordering.{nat_cmp};
ghost use Rattle.ac_base.specs.Names.{trait_bytes};
ghost use Rattle.ac_base.specs.Texts.{text_cmp};
ghost use Rattle.ac_cloud.specs.Cloud.Entries.{entry_class, entry_pair};
ghost use Rattle.ac_cloud.specs.Cloud.Forests.{IsForest};
ghost use Rattle.ac_cloud.specs.Cloud.Numbered.{numbered};
ghost use Rattle.ac_cloud.specs.ListsOf.{lists_of};

use crate::cloud::ancestry::walk;
use crate::cloud::anchors::find_anchors;
use crate::cloud::entry::Entry;
use crate::cloud::lookups::find_sharing;
use crate::cloud::provider_index::Ids;
use crate::cloud::{Cloud, Counts};
use crate::lists::Lists;
use ac_base::{Id, TraitName};
use std::alloc::{AllocError, Global};

/// What is told of all providers: their UUIDs, the places of their parents and roots, and what each has.
#[derive(Drop)]
pub struct Parts {
    pub ids: Ids,
    pub parents: Vec<Option<u32>>,
    pub roots: Vec<u32>,
    pub entries: Lists<Entry>,
    pub traits: Lists<TraitName>,
    pub aggregates: Lists<Id>,
    pub names: Lists<u8>,
    pub counts: Counts,
}

impl Cloud {
    ghost use Rattle.ac_cloud.specs.Cloud.CloudWorld.{providers_of, sizes_of, world_of};

    /// The cloud of these parts, which finds who shares, where each provider is available, and who is above whom.
    #[tactic(auto, unfolding(crate::specs::Cloud::CloudWorld::providers_of))]
    pub fn build(alloc: Global, parts: Parts) -> Result<Cloud, AllocError>
        requires forest { IsForest (length parts.ids.ids.items) parts.parents.items
            parts.roots.items }
        requires entries { length (lists_of parts.entries) ≡ length parts.ids.ids.items }
        requires traits { length (lists_of parts.traits) ≡ length parts.ids.ids.items }
        requires aggregates { length (lists_of parts.aggregates) ≡ length parts.ids.ids.items }
        requires names { length (lists_of parts.names) ≡ length parts.ids.ids.items }
        requires classes_rise { All (λ es. IsStrictlySortedBy text_cmp (map entry_class es))
            (lists_of parts.entries) }
        requires names_rise { All (λ names. IsStrictlySortedBy text_cmp (map trait_bytes names))
            (lists_of parts.traits) }
        requires aggregates_rise { All (λ all. IsStrictlySortedBy nat_cmp all)
            (lists_of parts.aggregates) }
        ensures providers { IfOk result (λ cloud.
            providers_of cloud ≡ numbered parts.ids.ids.items parts.parents.items
            (map (map entry_pair) (lists_of parts.entries))
            (map (map trait_bytes) (lists_of parts.traits)) (lists_of parts.aggregates)
            (lists_of parts.names)) }
        ensures sizes { IfOk result (λ cloud. (world_of cloud).sizes ≡ sizes_of parts.counts) }
    {
        let Parts {
            ids,
            parents,
            roots,
            entries,
            traits,
            aggregates,
            names,
            counts,
        } = parts;
        let sharing = find_sharing(alloc, &traits)?;
        let anchors = find_anchors(alloc, &roots, &sharing, &aggregates)?;
        let visits = walk(alloc, &parents)?;
        Ok(Cloud {
            ids,
            parents,
            roots,
            entries,
            traits,
            aggregates,
            names,
            sharing,
            anchors,
            visits,
            counts,
        })
    }
}
