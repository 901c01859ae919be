//! Which classes providers have inventories of, however much is left of them.
ghost use Rattle.std.specs.Prelude.{◌≡◌, ◌<◌, length};
ghost use Rattle.ac_cloud.specs.Providers.{provider_of};
ghost use Rattle.ac_cloud.specs.Cloud.CloudWorld.{providers_of};
ghost use Rattle.ac_query.specs.Shown.Groups.{need_entry};
ghost use Rattle.ac_rules.specs.Shown.Assignments.{placed_of};
ghost use Rattle.ac_find.specs.Explained.{has_inventories, has_inventory};
ghost use Rattle.ac_find.specs.Missing.{somebody_there_has_class};

use ac_cloud::{Cloud, Provider};
use ac_query::Need;
use ac_rules::Placed;

/// Whether a provider has an inventory of a class.
#[tactic(auto, unfolding(crate::specs::Explained::has_inventory))]
pub fn has_inventory(provider: &Provider, need: &Need) -> bool
    ensures { result ≡ has_inventory (provider_of provider.now) (need_entry need.now).0 }
{
    provider.inventory(need.class()).is_some()
}

/// Whether a provider has an inventory of each of its slot's classes.
pub(crate) fn has_inventories(placed: &Placed) -> bool
    ensures { result
        ≡ has_inventories (providers_of placed.now.cloud.now) (placed_of placed.now) }
{
    placed
        .needs()
        .iter()
        .all(|need| has_inventory(&placed.its_provider(), need))
}

/// Whether some provider that is available in the tree of a root has an inventory of a class.
pub fn somebody_there_has_class(cloud: &Cloud, root: u32, need: &Need) -> bool
    requires { root < length (providers_of cloud.now) }
    ensures { result
        ≡ somebody_there_has_class (providers_of cloud.now) root (need_entry need.now).0 }
{
    (0..cloud.len()).any(|ix| cloud.available(ix, root) && has_inventory(&cloud.provider(ix), need))
}
