//! Which of many traits somebody in a cloud has, or some root: all are marked in one pass over the providers, without memory.
ghost use Rattle.std.specs.Prelude.{◌≡◌, ◌<◌, ◌||◌, ℕ, false, [], get_or, length, map, not, slice_index_or};
ghost use Rattle.std.specs.List.{list_any};
ghost use Rattle.std.specs.List.Sorted.{IsStrictlySortedBy};
ghost use Rattle.std.specs.Option.{IfSome};
ghost use Rattle.std.specs.Str.{bytes_eq};
ghost use Rattle.ac_base.specs.Names.{trait_bytes};
ghost use Rattle.ac_base.specs.Texts.{text_cmp};
ghost use Rattle.ac_cloud.specs.Providers.{provider_of};
ghost use Rattle.ac_cloud.specs.World.{has_trait, is_root};
ghost use Rattle.ac_cloud.specs.Cloud.CloudWorld.{providers_of};
ghost use Rattle.ac_cloud.specs.Cloud.Entries.{is_there};
ghost use Rattle.ac_find.specs.Missing.{AreMarked, is_had};

use ac_base::TraitName;
use ac_cloud::{Cloud, Provider};

// The place of a trait among some that rise.
fn place_among(name: &TraitName, names: &[TraitName]) -> Option<usize>
    requires { IsStrictlySortedBy text_cmp (map trait_bytes names.now) }
    ensures inside { IfSome result (λ place. place < length names.now) }
    ensures alone { (k : ℕ) → k < length names.now
        → bytes_eq (get_or (map trait_bytes names.now) k []) (trait_bytes name.now)
        ≡ is_there result k }
{
    names.binary_search(name).ok()
}

// Marks each of some traits, which rise, that is one of these.
fn mark_among(traits: &[TraitName], names: &[TraitName], marks: &mut [bool])
    requires rising { IsStrictlySortedBy text_cmp (map trait_bytes names.now) }
    requires count { length marks.old ≡ length names.now }
    ensures { AreMarked (map trait_bytes names.now)
        (λ name. list_any (bytes_eq name) (map trait_bytes traits.now)) marks.old marks.new }
{
    for name in traits {
        if let Some(place) = place_among(name, names) {
            marks[place] = true;
        }
    }
}

// Marks each of some traits that a provider has: each is looked up among its own.
fn mark_each(provider: &Provider, names: &[TraitName], marks: &mut [bool])
    requires { length marks.old ≡ length names.now }
    ensures { AreMarked (map trait_bytes names.now) (has_trait (provider_of provider.now))
        marks.old marks.new }
{
    for (k, name) in names.iter().enumerate() {
        if provider.has_trait(name) {
            marks[k] = true;
        }
    }
}

// Marks each of some traits, which rise, that a provider has: what there is less of is gone through.
fn mark_own(provider: &Provider, names: &[TraitName], marks: &mut [bool])
    requires rising { IsStrictlySortedBy text_cmp (map trait_bytes names.now) }
    requires count { length marks.old ≡ length names.now }
    ensures { AreMarked (map trait_bytes names.now) (has_trait (provider_of provider.now))
        marks.old marks.new }
{
    let traits = provider.traits();
    if traits.len() < names.len() {
        mark_among(traits, names, marks);
    } else {
        mark_each(provider, names, marks);
    }
}

// Whether a provider is one that is asked: any, or where roots alone are asked, a root.
fn is_asked(provider: &Provider, roots_alone: bool) -> bool
    ensures { result ≡ (not roots_alone
        || is_root (providers_of provider.now.cloud.now) (provider_of provider.now).id) }
{
    !roots_alone || provider.is_root()
}

/// Marks each of some traits, which rise, that some provider has, or where roots alone are asked, some root. No mark is to be set before.
pub fn mark_had(cloud: &Cloud, roots_alone: bool, names: &[TraitName], marks: &mut [bool])
    requires rising { IsStrictlySortedBy text_cmp (map trait_bytes names.now) }
    requires count { length marks.old ≡ length names.now }
    requires none { (k : ℕ) → slice_index_or marks.old k false ≡ false }
    ensures { (k : ℕ) → k < length names.now → slice_index_or marks.new k false
        ≡ is_had roots_alone (providers_of cloud.now) (get_or (map trait_bytes names.now) k []) }
{
    for ix in 0..cloud.len() {
        let provider = cloud.provider(ix);
        if is_asked(&provider, roots_alone) {
            mark_own(&provider, names, marks);
        }
    }
}
