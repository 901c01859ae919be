//! What an allocation request is made of.
ghost use Rattle.std.specs.Prelude.{◌≡◌, ◌<◌, length};
ghost use Rattle.std.specs.List.{All};
ghost use Rattle.ac_query.specs.Asked.{slots_of};
ghost use Rattle.ac_query.specs.Shown.Queries.{asked_of};
ghost use Rattle.ac_cloud.specs.Cloud.CloudWorld.{providers_of};

use ac_base::Id;
use ac_cloud::Cloud;
use ac_query::Query;
use std::collections::{BTreeMap, BTreeSet};

// What is taken of a provider: of each of these classes, all that the list needs of it.
#[derive(Drop)]
pub(super) struct Allocation<'a> {
    pub(super) query: &'a Query,
    pub(super) list: &'a [u32],
    pub(super) provider: u32,
    pub(super) id: Id,
    pub(super) classes: BTreeSet<&'a str>,
    ghost assigned: { length list.now ≡ length (slots_of (asked_of query.now)) },
}

// Providers of a group.
#[derive(Drop)]
pub(super) struct Hosts<'a> {
    pub(super) cloud: &'a Cloud,
    pub(super) places: Vec<u32>,
    ghost inside: { All (λ ix. ix < length (providers_of cloud.now)) places.items },
}

// What is taken of each provider, and the providers of each group.
#[derive(Drop)]
pub(super) struct Request<'a> {
    pub(super) allocations: Vec<Allocation<'a>>,
    pub(super) mappings: BTreeMap<&'a str, Hosts<'a>>,
}
