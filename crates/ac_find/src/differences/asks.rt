//! What a query alone says of the differences: its groups, their suffixes, and the policy.
ghost use Rattle.std.specs.Prelude.{◌≡◌, ◌≤◌, length, map};
ghost use Rattle.std.specs.List.{list_all, list_any};
ghost use Rattle.ac_base.specs.Names.{class_bytes, trait_bytes};
ghost use Rattle.ac_query.specs.Asked.{slots_of};
ghost use Rattle.ac_query.specs.Shown.Groups.{any_of_shown, group_asked, need_entry};
ghost use Rattle.ac_query.specs.Shown.Queries.{asked_of};
ghost use Rattle.ac_query.specs.Texts.{has_text};
ghost use Rattle.ac_find.specs.Service.Differing.{asks_for, contradicts_itself, forbids_a_list, forbids_a_required, has_suffix_before, has_two_suffixes, have_common_class, is_bare, is_policy_none, names_a_tree, only_forbids};

use ac_base::{ClassName, TraitName};
use ac_query::{AnyOf, Group, Need, Query};
use ac_rules::slots::{count_slots, is_suffixed};

// Whether a group asks for no resources.
fn is_bare(group: &Group) -> bool
    ensures { result ≡ is_bare (group_asked group.now) }
{
    group.needs().is_empty()
}

// Whether each `member_of` of a group forbids.
fn forbids_aggregates(group: &Group) -> bool
    ensures { result ≡ list_all (λ rule. rule.forbids) (group_asked group.now).member_of }
{
    group.member_of().iter().all(|rule| rule.forbids())
}

// Whether a group asks for no resources, no trait and no aggregate.
fn only_forbids(group: &Group) -> bool
    ensures { result ≡ only_forbids (group_asked group.now) }
{
    is_bare(group)
        && group.required().is_empty()
        && group.any_of().is_empty()
        && forbids_aggregates(group)
}

/// Whether a group without resources names a tree, beside something that it asks for.
pub(crate) fn names_a_tree(group: &Group) -> bool
    ensures { result ≡ names_a_tree (group_asked group.now) }
{
    is_bare(group) && group.in_tree().is_some() && !only_forbids(group)
}

/// Whether some group asks for no resources.
pub(crate) fn has_bare_group(query: &Query) -> bool
    ensures { result ≡ list_any (λ g. is_bare g.1) (asked_of query.now).groups }
{
    query.groups().iter().any(|group| is_bare(group))
}

/// Whether some group without resources only forbids, or only names a tree.
pub(crate) fn has_forbidding_group(query: &Query) -> bool
    ensures { result ≡ list_any (λ g. only_forbids g.1) (asked_of query.now).groups }
{
    query.groups().iter().any(|group| only_forbids(group))
}

// Whether a group forbids a trait.
fn forbids_trait(group: &Group, name: &TraitName) -> bool
    ensures { result ≡ has_text (group_asked group.now).forbidden (trait_bytes name.now) }
{
    group.forbidden().binary_search(name).is_ok()
}

// Whether a group forbids each trait of a list.
fn forbids_all(group: &Group, list: &AnyOf) -> bool
    ensures { result
        ≡ list_all (has_text (group_asked group.now).forbidden) (any_of_shown list.now) }
{
    list.names().iter().all(|name| forbids_trait(group, name))
}

// Whether a group forbids a trait that it requires.
fn forbids_a_required(group: &Group) -> bool
    ensures { result ≡ forbids_a_required (group_asked group.now) }
{
    group
        .required()
        .iter()
        .any(|name| forbids_trait(group, name))
}

// Whether a group forbids all traits of a list of which it asks one.
fn forbids_a_list(group: &Group) -> bool
    ensures { result ≡ forbids_a_list (group_asked group.now) }
{
    group.any_of().iter().any(|list| forbids_all(group, list))
}

// Whether a group forbids what it requires.
fn contradicts_itself(group: &Group) -> bool
    ensures { result ≡ contradicts_itself (group_asked group.now) }
{
    forbids_a_required(group) || forbids_a_list(group)
}

/// Whether some group forbids what it requires.
pub(crate) fn has_contradiction(query: &Query) -> bool
    ensures { result ≡ list_any (λ g. contradicts_itself g.1) (asked_of query.now).groups }
{
    query.groups().iter().any(|group| contradicts_itself(group))
}

/// Whether one of some needs is of a class.
pub(crate) fn asks_for(needs: &[Need], class: &ClassName) -> bool
    ensures { result ≡ asks_for (map need_entry needs.now) (class_bytes class.now) }
{
    needs.iter().any(|need| need.class() == class)
}

/// Whether two of some needs each are of one class.
pub(crate) fn have_common_class(needs: &[Need], other: &[Need]) -> bool
    ensures { result
        ≡ have_common_class (map need_entry needs.now) (map need_entry other.now) }
{
    needs.iter().any(|need| asks_for(other, need.class()))
}

/// Whether the policy is `none`.
pub(crate) fn is_policy_none(query: &Query) -> bool
    ensures { result ≡ is_policy_none (asked_of query.now) }
{
    !query.policy().unwrap_or(true)
}

/// Whether one of the slots before a place is that of a group with a suffix.
#[tactic(auto, using(ac_cloud::proofs::Ranges::range_more, ac_cloud::proofs::Ranges::range_end))]
pub(crate) fn has_suffix_before(query: &Query, s: usize) -> bool
    requires { s ≤ length (slots_of (asked_of query.now)) }
    ensures { result ≡ has_suffix_before (asked_of query.now) s }
{
    (0..s).any(|earlier| is_suffixed(query, earlier))
}

/// Whether there are two groups with suffixes.
#[tactic(auto, using(ac_cloud::proofs::Ranges::range_more, ac_cloud::proofs::Ranges::range_end))]
pub(crate) fn has_two_suffixes(query: &Query) -> bool
    ensures { result ≡ has_two_suffixes (asked_of query.now) }
{
    (0..count_slots(query)).any(|s| is_suffixed(query, s) && has_suffix_before(query, s))
}
