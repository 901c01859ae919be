//! What a provider has of some traits: all, one, none, or one of each list.

ghost use Rattle.std.specs.Prelude.{◌≡◌, map};
ghost use Rattle.std.specs.List.{list_any};
ghost use Rattle.std.specs.List.Sorted.{IsStrictlySortedBy};
ghost use Rattle.std.specs.Str.{bytes_eq};
ghost use Rattle.ac_base.specs.Names.{trait_bytes};
ghost use Rattle.ac_base.specs.Texts.{text_cmp};
ghost use Rattle.ac_cloud.specs.Providers.{provider_of};
ghost use Rattle.ac_query.specs.Shown.Groups.{any_of_shown, group_asked};
ghost use Rattle.ac_rules.specs.Own.{has_all, has_none, has_any, has_one_of_each, has_required};

use ac_base::TraitName;
use ac_cloud::Provider;
use ac_query::{AnyOf, Group};

/// Whether the provider has all of these traits.
pub(crate) fn has_all(provider: &Provider, names: &[TraitName]) -> bool
    ensures { result ≡ has_all (provider_of provider.now)
        (map trait_bytes names.now) }
{
    names.iter().all(|name| provider.has_trait(name))
}

// Whether a trait is one of these, which rise.
fn is_among(name: &TraitName, names: &[TraitName]) -> bool
    requires { IsStrictlySortedBy text_cmp (map trait_bytes names.now) }
    ensures { result ≡ list_any (bytes_eq (trait_bytes name.now)) (map trait_bytes names.now) }
{
    names.binary_search(name).is_ok()
}

// Whether one of the traits is one of these, which rise.
fn is_one_among(traits: &[TraitName], names: &[TraitName]) -> bool
    requires { IsStrictlySortedBy text_cmp (map trait_bytes names.now) }
    ensures { result ≡ list_any (λ t. list_any (bytes_eq t) (map trait_bytes names.now))
        (map trait_bytes traits.now) }
{
    traits.iter().any(|name| is_among(name, names))
}

// Whether the provider has one of these traits, which rise: each of its own is looked up among them.
fn has_any_of_many(provider: &Provider, names: &[TraitName]) -> bool
    requires { IsStrictlySortedBy text_cmp (map trait_bytes names.now) }
    ensures { result ≡ has_any (provider_of provider.now)
        (map trait_bytes names.now) }
{
    is_one_among(provider.traits(), names)
}

/// Whether the provider has one of these traits: each is looked up among its own.
pub fn has_any_of_few(provider: &Provider, names: &[TraitName]) -> bool
    ensures { result ≡ has_any (provider_of provider.now)
        (map trait_bytes names.now) }
{
    names.iter().any(|name| provider.has_trait(name))
}

/// Whether the provider has one of these traits, which rise: what there is less of is gone through.
pub fn has_any(provider: &Provider, names: &[TraitName]) -> bool
    requires { IsStrictlySortedBy text_cmp (map trait_bytes names.now) }
    ensures { result ≡ has_any (provider_of provider.now)
        (map trait_bytes names.now) }
{
    if provider.traits().len() < names.len() {
        has_any_of_many(provider, names)
    } else {
        has_any_of_few(provider, names)
    }
}

/// Whether the provider has none of these traits, which rise.
pub(crate) fn has_none(provider: &Provider, names: &[TraitName]) -> bool
    requires { IsStrictlySortedBy text_cmp (map trait_bytes names.now) }
    ensures { result ≡ has_none (provider_of provider.now)
        (map trait_bytes names.now) }
{
    !has_any(provider, names)
}

// Whether of each of these lists the provider has a trait.
fn has_one_of_each(provider: &Provider, lists: &[AnyOf]) -> bool
    ensures { result ≡ has_one_of_each (provider_of provider.now)
        (map any_of_shown lists.now) }
{
    lists.iter().all(|list| has_any(provider, list.names()))
}

/// Whether the provider has each required trait of a group, and of each any-of list one.
pub(crate) fn has_required(provider: &Provider, group: &Group) -> bool
    ensures { result ≡ has_required (provider_of provider.now)
        (group_asked group.now) }
{
    has_all(provider, group.required()) && has_one_of_each(provider, group.any_of())
}
