//! Sharing providers that are of no use to others, or not where their hosts are.
ghost use Rattle.std.specs.Prelude.{◌≡◌, ◌<◌, ◌==◌, IfOk, None, Some, length, option_map, string_bytes};
ghost use Rattle.ac_cloud.specs.Cloud.CloudWorld.{providers_of};
ghost use Rattle.ac_cloud.specs.Providers.{provider_of};
ghost use Rattle.ac_cloud.specs.World.{anchors_of, is_member, provider_at};
ghost use Rattle.ac_find.specs.Shown.Audit.{IsZone};
ghost use Rattle.ac_find.specs.Audit.{hosts_in, nobody_words, outside_text, outside_zone, shares_nothing, shares_with_nobody};

use ac_base::{Id, NoMemory};
use ac_cloud::{Cloud, Provider};
use ac_query::write_ids;
use std::alloc::Global;

// Where a provider that shares with nobody is a member.
fn nobody_words(cloud: &Cloud, ix: u32) -> &'static str
    requires { ix < length (providers_of cloud.now) }
    ensures { result.now ≡ nobody_words (provider_at (providers_of cloud.now) ix) }
{
    if cloud.aggregates(ix).is_empty() {
        "in no aggregate"
    } else {
        "in no aggregate of another tree"
    }
}

/// A sharing provider is available in no tree but its own.
pub(crate) fn shares_with_nobody(
    alloc: Global,
    cloud: &Cloud,
    ix: u32,
) -> Result<Option<String>, NoMemory>
    requires { ix < length (providers_of cloud.now) }
    ensures { IfOk result (λ detail. option_map string_bytes detail
        ≡ shares_with_nobody (providers_of cloud.now) ix) }
{
    if cloud.shares(ix) && cloud.anchors(ix).len() == 1 {
        Ok(Some(String::from_str(alloc, nobody_words(cloud, ix))?))
    } else {
        Ok(None)
    }
}

/// A sharing provider has no inventory.
pub(crate) fn shares_nothing(
    alloc: Global,
    cloud: &Cloud,
    ix: u32,
) -> Result<Option<String>, NoMemory>
    requires { ix < length (providers_of cloud.now) }
    ensures { IfOk result (λ detail. option_map string_bytes detail
        ≡ shares_nothing (providers_of cloud.now) ix) }
{
    if cloud.shares(ix) && cloud.entries(ix).is_empty() {
        Ok(Some(String::from_str(alloc, "no inventory")?))
    } else {
        Ok(None)
    }
}

/// Whether a provider itself is a member of an aggregate, which is named by its UUID as a number.
pub fn is_member(provider: &Provider, aggregate: u128) -> bool
    ensures { result ≡ is_member (provider_of provider.now) aggregate }
{
    provider
        .aggregates()
        .iter()
        .any(|id| id.as_u128() == aggregate)
}

// Whether the root at a place is a member of an aggregate; past the last provider there is none.
fn is_host_in(cloud: &Cloud, zone: Id, root: u32) -> bool
    ensures { result ≡ is_member (provider_at (providers_of cloud.now) root) zone }
{
    root < cloud.len() && is_member(&cloud.provider(root), zone.as_u128())
}

// How many of these roots are members of an aggregate.
fn count_hosts(cloud: &Cloud, zone: Id, roots: &[u32]) -> usize
    ensures { result ≡ length (hosts_in (providers_of cloud.now) zone roots.now) }
{
    roots
        .iter()
        .filter(|root| is_host_in(cloud, zone, **root))
        .count()
}

/// An aggregate, and how many members of it each list of roots has.
#[derive(Drop)]
pub(crate) struct Zone {
    id: Id,
    hosts: Vec<usize>,
}

impl Zone {
    /// An aggregate of a cloud.
    pub(crate) fn new(alloc: Global, cloud: &Cloud, id: Id) -> Result<Zone, NoMemory>
        ensures id { IfOk result (λ zone. zone.id ≡ id) }
        ensures hosts { IfOk result (λ zone. IsZone cloud.now zone) }
    {
        let mut hosts = Vec::new(alloc);
        for roots in cloud.root_lists() {
            hosts.push(count_hosts(cloud, id, roots))?;
        }
        Ok(Zone { id, hosts })
    }

    // How many of the roots where a provider is available are members.
    fn count(&self, cloud: &Cloud, ix: u32) -> usize
        requires zone { IsZone cloud.now self.now }
        requires provider { ix < length (providers_of cloud.now) }
        ensures { result ≡ length (hosts_in (providers_of cloud.now) self.now.id
            (anchors_of (providers_of cloud.now) ix)) }
    {
        match cloud.root_list(ix) {
            Some(list) => self.hosts[list as usize],
            None => count_hosts(cloud, self.id, cloud.anchors(ix)),
        }
    }

    /// A sharing provider isn't in the aggregate where hosts of its are.
    #[tactic(auto, unfolding(crate::specs::Audit::outside_text))]
    pub(crate) fn outside(
        &self,
        alloc: Global,
        cloud: &Cloud,
        ix: u32,
    ) -> Result<Option<String>, NoMemory>
        requires zone { IsZone cloud.now self.now }
        requires provider { ix < length (providers_of cloud.now) }
        ensures { IfOk result (λ detail. option_map string_bytes detail
            ≡ outside_zone (providers_of cloud.now) (Some self.now.id) ix) }
    {
        let hosts = self.count(cloud, ix);
        if cloud.shares(ix) && !is_member(&cloud.provider(ix), self.id.as_u128()) && hosts > 0 {
            let zone = write_ids(alloc, &[self.id])?;
            Ok(Some(format!(in alloc; "not in {zone}, where {hosts} of its hosts are")?))
        } else {
            Ok(None)
        }
    }
}
