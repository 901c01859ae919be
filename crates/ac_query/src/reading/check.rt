//! What is checked once all pairs of a query are read.
ghost use Rattle.std.specs.Prelude.{◌≡◌, ℕ, ◌+◌, ◌<◌, ◌^◌, ◌&&◌, if◌then◌else◌, None, Some, List, IfOk, IfErr, IfSome, OnOk, map, length, filter, nat_lt, sum_by, is_none};
ghost use Rattle.std.specs.List.{list_any};
ghost use Rattle.std.specs.Option.{option_map};
ghost use Rattle.ac_base.specs.Names.{suffix_bytes};
ghost use Rattle.ac_query.specs.Texts.{in_order_with};
ghost use Rattle.ac_query.specs.Faults.{first_fault, has_resources, listed_suffixes, group_condition, suffix_condition, unknown_suffix, group_without_resources, needs_policy, slot_count, entry_count, is_too_large, asked_conditions};
ghost use Rattle.ac_query.specs.Shown.Faults.{fault_shown};
ghost use Rattle.ac_query.specs.Shown.{suffixes_shown};
ghost use Rattle.ac_query.specs.Shown.Draft.{group_drafted, suffixed_shown, plain_shown, draft_asked};

use crate::fault::QueryFault;
use crate::reading::draft::{Draft, GroupDraft};
use ac_base::{NoMemory, Suffix};
use std::alloc::Global;
use std::collections::{BTreeMap, BTreeSet};

/// The most slots of a query.
const SLOTS: usize = 64;

/// The most pairs of a group and a class in a query.
const ENTRIES: usize = 256;

/// Copies a suffix.
fn copy_suffix(alloc: Global, suffix: &Suffix) -> Result<Suffix, NoMemory>
    ensures { IfOk result (λ copy. suffix_bytes copy ≡ suffix_bytes suffix.now) }
{
    match Suffix::read(alloc, suffix.text().as_bytes())? {
        Some(copy) => Ok(copy),
        None => unreachable!(),
    }
}

/// Adds the suffixes of a list to a set.
fn add_suffixes(
    alloc: Global,
    listed: &mut BTreeSet<Suffix>,
    names: &BTreeSet<Suffix>,
) -> Result<(), NoMemory>
    ensures { OnOk result (suffixes_shown listed.new
        ≡ in_order_with (suffixes_shown listed.old) (suffixes_shown names.now)) }
{
    for suffix in names {
        let copy = copy_suffix(alloc, suffix)?;
        listed.insert(copy)?;
    }
    Ok(())
}

/// The suffixes that any `same_subtree` lists.
fn listed_suffixes(alloc: Global, draft: &Draft) -> Result<BTreeSet<Suffix>, NoMemory>
    ensures { IfOk result (λ listed. suffixes_shown listed
        ≡ listed_suffixes (draft_asked draft.now)) }
{
    let mut listed = BTreeSet::new(alloc);
    for names in &draft.subtrees {
        add_suffixes(alloc, &mut listed, names)?;
    }
    Ok(listed)
}

impl GroupDraft {
    fn has_resources(&self) -> bool
        ensures { result ≡ nat_lt 0 (length (group_drafted self.now).needs) }
    {
        !self.needs.is_empty()
    }
}

/// Whether some suffixed group has resources.
fn some_have_resources(groups: &BTreeMap<Suffix, GroupDraft>) -> bool
    ensures { result ≡ list_any has_resources (suffixed_shown groups.now) }
{
    for (_, group) in groups {
        if group.has_resources() {
            return true;
        }
    }
    false
}

/// Whether some group has resources.
fn has_resources(draft: &Draft) -> bool
    ensures { result ≡ list_any has_resources (draft_asked draft.now).groups }
{
    match &draft.plain {
        Some(group) => group.has_resources() || some_have_resources(&draft.suffixed),
        None => some_have_resources(&draft.suffixed),
    }
}

/// Whether a group has no resources, and no list has it.
fn is_unlisted(suffix: &Suffix, group: &GroupDraft, listed: &BTreeSet<Suffix>) -> bool
    ensures { result ≡ (group_condition (suffixes_shown listed.now)
        (Some (suffix_bytes suffix.now), group_drafted group.now)).0 }
{
    !group.has_resources() && !listed.contains(suffix)
}

/// The first group without resources that no list has.
fn find_bare<'a>(
    groups: &'a BTreeMap<Suffix, GroupDraft>,
    listed: &BTreeSet<Suffix>,
) -> Option<&'a Suffix>
    ensures { option_map (λ s. group_without_resources (Some (suffix_bytes s.now))) result
        ≡ first_fault (map (group_condition (suffixes_shown listed.now))
        (suffixed_shown groups.now)) }
{
    for (suffix, group) in groups {
        if is_unlisted(suffix, group, listed) {
            return Some(suffix);
        }
    }
    None
}

/// The first listed suffix of no group.
fn find_unknown<'a>(
    groups: &BTreeMap<Suffix, GroupDraft>,
    listed: &'a BTreeSet<Suffix>,
) -> Option<&'a Suffix>
    ensures { option_map (λ s. unknown_suffix (suffix_bytes s.now)) result
        ≡ first_fault (map (suffix_condition (suffixed_shown groups.now))
        (suffixes_shown listed.now)) }
{
    for suffix in listed {
        if !groups.contains_key(suffix) {
            return Some(suffix);
        }
    }
    None
}

/// Whether more than one suffixed group has resources.
fn needs_policy(groups: &BTreeMap<Suffix, GroupDraft>) -> bool
    ensures { result ≡ nat_lt 1 (length (filter needs_policy (suffixed_shown groups.now))) }
{
    let mut found = false;
    for (_, group) in groups {
        if group.has_resources() {
            if found {
                return true;
            }
            found = true;
        }
    }
    false
}

/// Whether a policy is needed and none is there.
fn lacks_policy(draft: &Draft) -> bool
    ensures { result ≡ (nat_lt 1 (length (filter needs_policy (draft_asked draft.now).groups))
        && is_none draft.now.policy) }
{
    needs_policy(&draft.suffixed) && draft.policy.is_none()
}

/// How many classes the unsuffixed group needs: its slots, and its entries.
fn class_count(plain: &Option<GroupDraft>) -> usize
    ensures slots { result ≡ sum_by slot_count (plain_shown plain.now) }
    ensures entries { result ≡ sum_by entry_count (plain_shown plain.now) }
    ensures small { result < 2 ^ 63 }
{
    match plain {
        Some(group) => group.needs.len(),
        None => 0,
    }
}

/// Whether these entries and those of the groups are too many.
fn has_too_many_entries(entries: usize, groups: &BTreeMap<Suffix, GroupDraft>) -> bool
    requires { entries < 2 ^ 63 }
    ensures { result ≡ nat_lt 256 (entries + sum_by entry_count (suffixed_shown groups.now)) }
{
    let mut count = entries;
    for (_, group) in groups {
        if count > ENTRIES {
            return true;
        }
        count += group.needs.len();
    }
    count > ENTRIES
}

/// Whether there are more slots or more entries than a query may have.
fn is_too_large(draft: &Draft) -> bool
    ensures { result ≡ is_too_large (draft_asked draft.now).groups }
{
    let classes = class_count(&draft.plain);
    if classes + draft.suffixed.len() > SLOTS {
        return true;
    }
    has_too_many_entries(classes, &draft.suffixed)
}

/// Tells the first group without resources that no list has.
fn check_groups(alloc: Global, draft: &Draft, listed: &BTreeSet<Suffix>) -> Result<(), QueryFault>
    ensures ok { OnOk result (first_fault (map (group_condition (suffixes_shown listed.now))
        (draft_asked draft.now).groups) ≡ None) }
    ensures fault { IfErr result (λ e. IfSome (fault_shown e) (λ f.
        first_fault (map (group_condition (suffixes_shown listed.now))
        (draft_asked draft.now).groups) ≡ Some f)) }
{
    if draft
        .plain
        .as_ref()
        .is_some_and(|group| !group.has_resources())
    {
        return Err(QueryFault::GroupWithoutResources(None));
    }
    match find_bare(&draft.suffixed, listed) {
        Some(suffix) => {
            let suffix = copy_suffix(alloc, suffix)?;
            Err(QueryFault::GroupWithoutResources(Some(suffix)))
        }
        None => Ok(()),
    }
}

/// Tells the first listed suffix of no group.
fn check_suffixes(alloc: Global, draft: &Draft, listed: &BTreeSet<Suffix>) -> Result<(), QueryFault>
    ensures ok { OnOk result (first_fault (map (suffix_condition (draft_asked draft.now).groups)
        (suffixes_shown listed.now)) ≡ None) }
    ensures fault { IfErr result (λ e. IfSome (fault_shown e) (λ f.
        first_fault (map (suffix_condition (draft_asked draft.now).groups)
        (suffixes_shown listed.now)) ≡ Some f)) }
{
    match find_unknown(&draft.suffixed, listed) {
        Some(suffix) => {
            let suffix = copy_suffix(alloc, suffix)?;
            Err(QueryFault::UnknownSuffix(suffix))
        }
        None => Ok(()),
    }
}

/// Tells the first fault of all that is asked.
pub(crate) fn check(alloc: Global, draft: &Draft) -> Result<(), QueryFault>
    ensures ok { OnOk result (first_fault (asked_conditions (draft_asked draft.now)) ≡ None) }
    ensures fault { IfErr result (λ e. IfSome (fault_shown e) (λ f.
        first_fault (asked_conditions (draft_asked draft.now)) ≡ Some f)) }
{
    if !has_resources(draft) {
        return Err(QueryFault::NoResources);
    }
    let listed = listed_suffixes(alloc, draft)?;
    check_groups(alloc, draft, &listed)?;
    check_suffixes(alloc, draft, &listed)?;
    if lacks_policy(draft) {
        return Err(QueryFault::PolicyMissing);
    }
    if is_too_large(draft) {
        return Err(QueryFault::TooManySlots);
    }
    Ok(())
}
