//! Names that several providers have, and hosts that are disabled.
ghost use Rattle.std.specs.Prelude.{◌≡◌, ◌+◌, ◌<◌, ℕ, IfOk, List, codes, if◌then◌else◌, length, option_map, string_bytes};
ghost use Rattle.std.specs.Str.{bytes_eq};
ghost use Rattle.ac_cloud.specs.Cloud.CloudWorld.{providers_of};
ghost use Rattle.ac_cloud.specs.World.{has_trait, provider_at};
ghost use Rattle.ac_find.specs.Audit.{count_named, is_disabled, name_twice, named_text};
ghost use Rattle.ac_find.specs.Shown.Audit.{count_in};

use ac_base::NoMemory;
use ac_cloud::Cloud;
use std::alloc::Global;
use std::collections::BTreeMap;

// How often a name was counted.
fn count_in(counts: &BTreeMap<&[u8], u64>, name: &[u8]) -> u64
    ensures { result ≡ count_in counts.now name.now }
{
    match counts.get(name) {
        Some(count) => *count,
        None => 0,
    }
}

// Counts a name once more.
fn count_name<'a>(
    counts: BTreeMap<&'a [u8], u64>,
    name: &'a [u8],
) -> Result<BTreeMap<&'a [u8], u64>, NoMemory>
    requires { count_in counts name.now < 18446744073709551615 }
    ensures { IfOk result (λ new. (q : List ℕ) → count_in new q
        ≡ count_in counts.entry q + (if bytes_eq name.now q then 1 else 0)) }
{
    let mut counts = counts;
    let before = count_in(&counts, name);
    counts.insert(name, before + 1)?;
    Ok(counts)
}

/// How many providers have each name.
#[derive(Drop)]
pub(crate) struct Names<'a> {
    counts: BTreeMap<&'a [u8], u64>,
}

impl<'a> Names<'a> {
    /// Those of a cloud.
    pub(crate) fn count(alloc: Global, cloud: &'a Cloud) -> Result<Names<'a>, NoMemory>
        ensures { IfOk result (λ names. (q : List ℕ)
            → count_in names.counts q ≡ count_named (providers_of cloud.now) q) }
    {
        let mut counts = BTreeMap::new(alloc);
        for ix in 0..cloud.len() {
            counts = count_name(counts, cloud.name(ix))?;
        }
        Ok(Names { counts })
    }

    /// Several providers have one name.
    #[tactic(auto, unfolding(crate::specs::Audit::named_text))]
    pub(crate) fn name_twice(
        &self,
        alloc: Global,
        cloud: &Cloud,
        ix: u32,
    ) -> Result<Option<String>, NoMemory>
        requires provider { ix < length (providers_of cloud.now) }
        requires names { (q : List ℕ) → count_in self.now.counts q
            ≡ count_named (providers_of cloud.now) q }
        ensures { IfOk result (λ detail. option_map string_bytes detail
            ≡ name_twice (providers_of cloud.now) ix) }
    {
        let name = cloud.name(ix);
        let count = count_in(&self.counts, name);
        if name.is_empty() || count < 2 {
            return Ok(None);
        }
        Ok(Some(format!(in alloc; "{count} providers have it")?))
    }
}

// Whether a provider has the trait of a host that is disabled.
fn has_disabled(cloud: &Cloud, ix: u32) -> bool
    requires { ix < length (providers_of cloud.now) }
    ensures { result ≡ has_trait (provider_at (providers_of cloud.now) ix)
        (codes "COMPUTE_STATUS_DISABLED") }
{
    cloud
        .traits(ix)
        .iter()
        .any(|name| "COMPUTE_STATUS_DISABLED" == name.text())
}

/// A provider has the trait of a host that is disabled.
pub(crate) fn is_disabled(alloc: Global, cloud: &Cloud, ix: u32) -> Result<Option<String>, NoMemory>
    requires { ix < length (providers_of cloud.now) }
    ensures { IfOk result (λ detail. option_map string_bytes detail
        ≡ is_disabled (providers_of cloud.now) ix) }
{
    if has_disabled(cloud, ix) {
        Ok(Some(String::from_str(alloc, "trait COMPUTE_STATUS_DISABLED")?))
    } else {
        Ok(None)
    }
}
