//! Lists of providers against lists of ids.

ghost use Rattle.std.specs.Prelude.{◌≡◌, ◌<◌, length};
ghost use Rattle.std.specs.List.{All};
ghost use Rattle.ac_cloud.specs.Cloud.CloudWorld.{providers_of};
ghost use Rattle.ac_rules.specs.Lists.{lex_lt};
ghost use Rattle.ac_rules.specs.Pages.{ids_of};

use ac_base::Id;
use ac_cloud::Cloud;

/// Whether the ids of a list of providers are after these.
pub(crate) fn is_after(cloud: &Cloud, ids: &[Id], list: &[u32]) -> bool
    requires { All (λ p. p < length (providers_of cloud.now)) list.now }
    ensures { result ≡ lex_lt ids.now (ids_of (providers_of cloud.now) list.now) }
{
    match (ids.split_first(), list.split_first()) {
        (_, None) => false,
        (None, Some(_)) => true,
        (Some((id, ids)), Some((ix, list))) => {
            let other = cloud.id(*ix);
            *id < other || (*id == other && is_after(cloud, ids, list))
        }
    }
}
