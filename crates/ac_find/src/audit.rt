//! What is amiss in a cloud, whatever is asked of it.
ghost use Rattle.std.specs.Prelude.{◌≡◌, ◌++◌, ◌<◌, [], IfOk, IfSome, None, Some, length, map, option_map, string_bytes};
ghost use Rattle.std.specs.List.{cons_option};
ghost use Rattle.ac_cloud.specs.Cloud.CloudWorld.{providers_of, sizes_of, world_of};
ghost use Rattle.ac_cloud.specs.Cloud.Entries.{entry_pair};
ghost use Rattle.ac_cloud.specs.Providers.{provider_of};
ghost use Rattle.ac_find.specs.Audit.{entries_found, entry_detail, findings, found_if, kind_found, no_usage, outside_zone, own_detail, provider_found, untold_text, whole_detail};
ghost use Rattle.ac_find.specs.Shown.Audit.{IsAudit, IsZone, finding_shown, zone_id};

mod inventories;
mod names;
mod sharing;
mod trees;

use crate::audit::inventories::{never_fits, over_capacity};
use crate::audit::names::{Names, is_disabled};
pub use crate::audit::sharing::is_member;
use crate::audit::sharing::{Zone, shares_nothing, shares_with_nobody};
use crate::audit::trees::TreeMarks;
use ac_base::{Id, NoMemory};
use ac_cloud::{Cloud, Counts, Entry, Provider};
use std::alloc::Global;

/// What is amiss, in the order in which it is told.
#[derive(Clone, Copy, Debug, PartialEq, Eq)]
pub enum Kind {
    /// More of an inventory is used than its capacity.
    OverCapacity,
    /// No amount of an inventory can be placed, even where nothing of it is used.
    NeverFits,
    /// A sharing provider is available in no tree but its own.
    SharesWithNobody,
    /// A sharing provider has no inventory.
    SharesNothing,
    /// No provider of a tree has an inventory.
    NoInventory,
    /// A tree has VCPU, and no DISK_GB is available there.
    NoStorage,
    /// A sharing provider isn't in an aggregate where hosts of its are.
    OutsideZone,
    /// Several providers have one name.
    NameTwice,
    /// The usages don't tell of each inventory.
    NoUsage,
    /// A provider has the trait of a host that is disabled.
    Disabled,
}

// All kinds, in their order.
const KINDS: [Kind; 10] = [
    Kind::OverCapacity,
    Kind::NeverFits,
    Kind::SharesWithNobody,
    Kind::SharesNothing,
    Kind::NoInventory,
    Kind::NoStorage,
    Kind::OutsideZone,
    Kind::NameTwice,
    Kind::NoUsage,
    Kind::Disabled,
];

/// Something that is amiss.
#[derive(Drop)]
pub struct Finding<'a> {
    pub kind: Kind,
    /// The provider, unless it is of the tables as a whole.
    pub provider: Option<Provider<'a>>,
    /// What it is, in words.
    pub detail: String,
}

// Adds a finding, if there is one.
fn add<'a>(
    found: &mut Vec<Finding<'a>>,
    kind: Kind,
    provider: Option<Provider<'a>>,
    detail: Option<String>,
) -> Result<(), NoMemory>
    ensures { IfOk result (λ _. map finding_shown found.new.items
        ≡ map finding_shown found.old.items ++ cons_option (found_if kind
        (option_map provider_of provider.entry) (option_map string_bytes detail)) []) }
{
    if let Some(detail) = detail {
        found.push(Finding {
            kind,
            provider,
            detail,
        })?;
    }
    Ok(())
}

// What is amiss of a kind with an inventory.
fn entry_detail(alloc: Global, kind: Kind, entry: &Entry) -> Result<Option<String>, NoMemory>
    ensures { IfOk result (λ detail.
        option_map string_bytes detail ≡ entry_detail kind (entry_pair entry.now)) }
{
    match kind {
        Kind::OverCapacity => over_capacity(alloc, entry),
        Kind::NeverFits => never_fits(alloc, entry),
        _ => Ok(None),
    }
}

// Adds what is amiss of a kind with a provider's inventories.
fn add_entries<'a>(
    alloc: Global,
    kind: Kind,
    provider: Provider<'a>,
    found: &mut Vec<Finding<'a>>,
) -> Result<(), NoMemory>
    ensures { IfOk result (λ _. map finding_shown found.new.items
        ≡ map finding_shown found.old.items ++ entries_found kind (provider_of provider.entry)) }
{
    for entry in provider.cloud.entries(provider.ix) {
        let detail = entry_detail(alloc, kind, entry)?;
        add(found, kind, Some(provider), detail)?;
    }
    Ok(())
}

// The usages don't tell of each inventory.
#[tactic(auto, unfolding(crate::specs::Audit::untold_text))]
fn no_usage(alloc: Global, counts: Counts) -> Result<Option<String>, NoMemory>
    ensures { IfOk result (λ detail. option_map string_bytes detail ≡ no_usage (sizes_of counts)) }
{
    let whole = counts.inventories;
    if counts.usages >= whole {
        return Ok(None);
    }
    let untold = whole - counts.usages;
    Ok(Some(format!(in alloc; "{untold} of {whole} inventories have no row")?))
}

// What is looked up for each provider.
#[derive(Drop)]
pub(crate) struct Audit<'a> {
    cloud: &'a Cloud,
    zone: Option<Zone>,
    names: Names<'a>,
    trees: TreeMarks,
}

// An aggregate of a cloud, if one is named.
fn find_zone(alloc: Global, cloud: &Cloud, id: Option<Id>) -> Result<Option<Zone>, NoMemory>
    ensures id { IfOk result (λ zone. zone_id zone ≡ id) }
    ensures hosts { IfOk result (λ zone. IfSome zone (λ zone. IsZone cloud.now zone)) }
{
    match id {
        Some(id) => Ok(Some(Zone::new(alloc, cloud, id)?)),
        None => Ok(None),
    }
}

impl<'a> Audit<'a> {
    // What there is to look up of a cloud.
    fn new(alloc: Global, cloud: &'a Cloud, zone: Option<Id>) -> Result<Audit<'a>, NoMemory>
        ensures cloud { IfOk result (λ audit. audit.cloud.now ≡ cloud.now) }
        ensures zone { IfOk result (λ audit. zone_id audit.zone ≡ zone) }
        ensures audit { IfOk result (λ audit. IsAudit audit) }
    {
        Ok(Audit {
            cloud,
            zone: find_zone(alloc, cloud, zone)?,
            names: Names::count(alloc, cloud)?,
            trees: TreeMarks::find(alloc, cloud)?,
        })
    }

    // A sharing provider isn't in the zone where hosts of its are.
    fn outside_zone(&self, alloc: Global, ix: u32) -> Result<Option<String>, NoMemory>
        requires audit { IsAudit self.now }
        requires provider { ix < length (providers_of self.now.cloud.now) }
        ensures { IfOk result (λ detail. option_map string_bytes detail
            ≡ outside_zone (providers_of self.now.cloud.now) (zone_id self.now.zone) ix) }
    {
        match &self.zone {
            Some(zone) => zone.outside(alloc, self.cloud, ix),
            None => Ok(None),
        }
    }

    // What is amiss of a kind with a provider itself.
    fn own_detail(&self, alloc: Global, kind: Kind, ix: u32) -> Result<Option<String>, NoMemory>
        requires audit { IsAudit self.now }
        requires provider { ix < length (providers_of self.now.cloud.now) }
        ensures { IfOk result (λ detail. option_map string_bytes detail
            ≡ own_detail (providers_of self.now.cloud.now) (zone_id self.now.zone) kind ix) }
    {
        let cloud = self.cloud;
        match kind {
            Kind::SharesWithNobody => shares_with_nobody(alloc, cloud, ix),
            Kind::SharesNothing => shares_nothing(alloc, cloud, ix),
            Kind::NoInventory => self.trees.no_inventory(alloc, cloud, ix),
            Kind::NoStorage => self.trees.no_storage(alloc, cloud, ix),
            Kind::OutsideZone => self.outside_zone(alloc, ix),
            Kind::NameTwice => self.names.name_twice(alloc, cloud, ix),
            Kind::Disabled => is_disabled(alloc, cloud, ix),
            _ => Ok(None),
        }
    }

    // Adds what is amiss of a kind with a provider.
    fn add_provider(
        &self,
        alloc: Global,
        kind: Kind,
        ix: u32,
        found: &mut Vec<Finding<'a>>,
    ) -> Result<(), NoMemory>
        requires audit { IsAudit self.now }
        requires provider { ix < length (providers_of self.now.cloud.now) }
        ensures { IfOk result (λ _. map finding_shown found.new.items
            ≡ map finding_shown found.old.items
            ++ provider_found (providers_of self.now.cloud.now) (zone_id self.now.zone) kind ix) }
    {
        let provider = self.cloud.provider(ix);
        add_entries(alloc, kind, provider, found)?;
        let detail = self.own_detail(alloc, kind, ix)?;
        add(found, kind, Some(provider), detail)
    }

    // What is amiss of a kind with the tables as a whole.
    fn whole_detail(&self, alloc: Global, kind: Kind) -> Result<Option<String>, NoMemory>
        ensures { IfOk result (λ detail. option_map string_bytes detail
            ≡ whole_detail (world_of self.now.cloud.now).sizes kind) }
    {
        match kind {
            Kind::NoUsage => no_usage(alloc, self.cloud.counts()),
            _ => Ok(None),
        }
    }

    // Adds what is amiss of a kind.
    fn add_kind(
        &self,
        alloc: Global,
        kind: Kind,
        found: &mut Vec<Finding<'a>>,
    ) -> Result<(), NoMemory>
        requires audit { IsAudit self.now }
        ensures { IfOk result (λ _. map finding_shown found.new.items
            ≡ map finding_shown found.old.items
            ++ kind_found (world_of self.now.cloud.now) (zone_id self.now.zone) kind) }
    {
        let detail = self.whole_detail(alloc, kind)?;
        add(found, kind, None, detail)?;
        for ix in 0..self.cloud.len() {
            self.add_provider(alloc, kind, ix, found)?;
        }
        Ok(())
    }
}

/// All that is amiss in a cloud, of each kind in the order of UUIDs; with one of its aggregates as the zone, or with none.
#[tactic(auto, unfolding(crate::specs::Audit::findings))]
pub fn find_amiss<'a>(
    alloc: Global,
    cloud: &'a Cloud,
    zone: Option<Id>,
) -> Result<Vec<Finding<'a>>, NoMemory>
    ensures { IfOk result (λ found.
        map finding_shown found.items ≡ findings (world_of cloud.now) zone) }
{
    let audit = Audit::new(alloc, cloud, zone)?;
    let mut found = Vec::new(alloc);
    for kind in &KINDS {
        audit.add_kind(alloc, *kind, &mut found)?;
    }
    Ok(found)
}
