//! What nobody in a cloud has, and no root: each test goes through all providers once, and takes no memory.
ghost use Rattle.std.specs.Prelude.{◌≡◌, map};
ghost use Rattle.std.specs.List.{list_any};
ghost use Rattle.std.specs.List.Sorted.{IsStrictlySortedBy};
ghost use Rattle.ac_base.specs.Names.{class_bytes, trait_bytes};
ghost use Rattle.ac_base.specs.Texts.{text_cmp};
ghost use Rattle.ac_cloud.specs.World.{is_member};
ghost use Rattle.ac_cloud.specs.Cloud.CloudWorld.{providers_of};
ghost use Rattle.ac_query.specs.Shown.Groups.{rule_shown};
ghost use Rattle.ac_find.specs.Missing.{somebody_has_class, somebody_has_one, somebody_is, somebody_is_in, someone};

mod marks;

pub use self::marks::mark_had;
use ac_base::{ClassName, Id, TraitName};
use ac_cloud::Cloud;
use ac_query::AggregateRule;
use ac_rules::rules::own::is_in_any;
use ac_rules::rules::traits::has_any;

/// Whether some provider has an inventory of a class, however much is left of it.
#[tactic(auto, using(ac_cloud::proofs::Ranges::range_more, ac_cloud::proofs::Ranges::range_end), unfolding(crate::specs::Missing::somebody_has_class))]
pub fn somebody_has_class(cloud: &Cloud, class: &ClassName) -> bool
    ensures { result ≡ somebody_has_class (providers_of cloud.now) (class_bytes class.now) }
{
    (0..cloud.len()).any(|ix| cloud.provider(ix).inventory(class).is_some())
}

/// Whether some provider has one of these traits, which rise.
#[tactic(auto, using(ac_cloud::proofs::Ranges::range_more, ac_cloud::proofs::Ranges::range_end), unfolding(crate::specs::Missing::somebody_has_one))]
pub fn somebody_has_one(cloud: &Cloud, names: &[TraitName]) -> bool
    requires { IsStrictlySortedBy text_cmp (map trait_bytes names.now) }
    ensures { result ≡ somebody_has_one (providers_of cloud.now) (map trait_bytes names.now) }
{
    (0..cloud.len()).any(|ix| has_any(&cloud.provider(ix), names))
}

// Whether some provider is in one of a rule's aggregates, by the providers one after another.
#[tactic(auto, using(ac_cloud::proofs::Ranges::range_more, ac_cloud::proofs::Ranges::range_end))]
fn some_member(cloud: &Cloud, rule: &AggregateRule) -> bool
    ensures { result ≡ someone (providers_of cloud.now)
        (λ p. list_any (is_member p) (rule_shown rule.now).ids) }
{
    (0..cloud.len()).any(|ix| is_in_any(&cloud.provider(ix), rule))
}

/// Whether some provider is in one of a rule's aggregates.
#[tactic(auto, unfolding(crate::specs::Missing::somebody_is_in, crate::specs::Missing::somebody_is_member))]
pub fn somebody_is_in(cloud: &Cloud, rule: &AggregateRule) -> bool
    ensures { result ≡ somebody_is_in (providers_of cloud.now) (rule_shown rule.now).ids }
{
    some_member(cloud, rule)
}

/// Whether a UUID is that of some provider.
#[tactic(auto, unfolding(crate::specs::Missing::somebody_is))]
pub fn somebody_is(cloud: &Cloud, id: Id) -> bool
    ensures { result ≡ somebody_is (providers_of cloud.now) id }
{
    cloud.index_of(id).is_some()
}
