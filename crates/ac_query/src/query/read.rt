//! How a query is made of its text.
ghost use Rattle.std.specs.Prelude.{◌≡◌, ◌<◌, ◌+◌, ◌++◌, ℕ, Bool, List, [], Option, IfOk, OnOk, IfErr, IfSome, Err, None, Some, length, map, not, if◌then◌else◌};
ghost use Rattle.std.specs.Option.{option_map};
ghost use Rattle.std.specs.List.Sorted.{IsStrictlySortedBy};
ghost use Rattle.ac_base.specs.Names.{suffix_bytes};
ghost use Rattle.ac_base.specs.Texts.{text_cmp};
ghost use Rattle.std.specs.List.{filter, flat_map, slice_get};
ghost use Rattle.ac_query.specs.Asked as Asked;
ghost use Rattle.ac_query.specs.Asked.{group_slots, slots_from};
ghost use Rattle.ac_query.specs.Asks.{Asks};
ghost use Rattle.ac_query.specs.Laws.Gathered.{asked_by};
ghost use Rattle.ac_query.specs.Pairs.{pairs_of};
ghost use Rattle.ac_query.specs.Faults.{first_fault, asked_conditions, query_fault};
ghost use Rattle.ac_query.specs.Shown.Faults.{fault_shown};
ghost use Rattle.ac_query.specs.Shown.{needs_shown};
ghost use Rattle.ac_query.specs.Shown.Draft.{group_drafted, plain_shown, suffixed_shown, draft_asked};
ghost use Rattle.ac_query.specs.Shown.Groups.{need_class, need_entry, group_entry};
ghost use Rattle.ac_query.specs.Shown.Slots.{slot_shown};
ghost use Rattle.ac_query.specs.Shown.Queries.{asked_of};
ghost use Rattle.ac_query.specs.declared.fault.QueryFault.TheVariants as QueryFault;

use super::Query;
use crate::fault::QueryFault;
use crate::group::{AggregateRule, Group, Need};
use crate::reading::amount::Amount;
use crate::reading::check::check;
use crate::reading::draft::{Draft, GroupDraft};
use crate::reading::pass::read_draft;
use crate::reading::traits::{Traits, names_in_order};
use crate::reading::values::ids_in_order;
use crate::slot::Slot;
use crate::version::Version;
use ac_base::{ClassName, NoMemory, Suffix};
use std::alloc::Global;
use std::collections::BTreeMap;

/// The needs of a map, classes in byte order.
fn needs_in_order(alloc: Global, needs: BTreeMap<ClassName, Amount>) -> Result<Vec<Need>, NoMemory>
    ensures needs { IfOk result (λ list. map need_entry list.items ≡ needs_shown needs) }
    ensures rising { IfOk result (λ list. IsStrictlySortedBy text_cmp (map need_class list.items)) }
{
    let mut list = Vec::new(alloc);
    for (class, amount) in needs {
        list.push(Need { class, amount })?;
    }
    Ok(list)
}

// What these rules forbid, as one rule.
fn forbidden_by(alloc: Global, rules: &[AggregateRule]) -> Result<AggregateRule, NoMemory>
    ensures { IfOk result (λ all. all.ids.items
        ≡ flat_map (λ rule. if rule.forbids then rule.ids.items else []) rules.now) }
{
    let mut ids = Vec::new(alloc);
    for rule in rules {
        if rule.forbids {
            ids.extend_from_slice(&rule.ids)?;
        }
    }
    Ok(AggregateRule {
        forbids: true,
        in_order: ids_in_order(alloc, &ids)?,
        ids,
    })
}

// A copy of a rule.
fn copy_of(alloc: Global, rule: &AggregateRule) -> Result<AggregateRule, NoMemory>
    ensures forbids { IfOk result (λ copy. copy.forbids ≡ rule.now.forbids) }
    ensures ids { IfOk result (λ copy. copy.ids.items ≡ rule.now.ids.items) }
{
    let mut ids = Vec::new(alloc);
    ids.extend_from_slice(&rule.ids)?;
    Ok(AggregateRule {
        forbids: rule.forbids,
        in_order: ids_in_order(alloc, &ids)?,
        ids,
    })
}

// Copies of those of these rules that don't forbid.
fn asking_of(alloc: Global, rules: &[AggregateRule]) -> Result<Vec<AggregateRule>, NoMemory>
    ensures { IfOk result (λ asking.
        map {B = Bool × List ℕ} (λ rule. (rule.forbids, rule.ids.items)) asking.items
        ≡ filter (λ rule. not rule.0) (map (λ rule. (rule.forbids, rule.ids.items)) rules.now)) }
{
    let mut asking = Vec::new(alloc);
    for rule in rules {
        if !rule.forbids {
            asking.push(copy_of(alloc, rule)?)?;
        }
    }
    Ok(asking)
}

/// The group of a suffix, as it was drafted.
fn group_of(alloc: Global, suffix: Option<Suffix>, draft: GroupDraft) -> Result<Group, NoMemory>
    ensures { IfOk result (λ group. group_entry group
        ≡ (option_map suffix_bytes suffix, group_drafted draft)) }
{
    let GroupDraft {
        needs,
        traits,
        any_of,
        member_of,
        in_tree,
    } = draft;
    let Traits {
        required,
        forbidden,
    } = traits;
    let needs = needs_in_order(alloc, needs)?;
    let required = names_in_order(alloc, required)?;
    let forbidden = names_in_order(alloc, forbidden)?;
    let forbidden_aggregates = forbidden_by(alloc, &member_of)?;
    let asking = asking_of(alloc, &member_of)?;
    Ok(Group {
        suffix,
        needs,
        required,
        forbidden,
        any_of,
        member_of,
        forbidden_aggregates,
        asking,
        in_tree,
    })
}

/// The unsuffixed group, where it is there.
fn plain_group(alloc: Global, plain: Option<GroupDraft>) -> Result<Vec<Group>, NoMemory>
    ensures { IfOk result (λ groups. map group_entry groups.items ≡ plain_shown plain) }
{
    let mut groups = Vec::new(alloc);
    match plain {
        Some(draft) => {
            let group = group_of(alloc, None, draft)?;
            groups.push(group)?;
            Ok(groups)
        }
        None => Ok(groups),
    }
}

/// The groups: the unsuffixed one first, then suffixes in byte order.
fn groups_in_order(
    alloc: Global,
    plain: Option<GroupDraft>,
    suffixed: BTreeMap<Suffix, GroupDraft>,
) -> Result<Vec<Group>, NoMemory>
    ensures { IfOk result (λ groups. map group_entry groups.items
        ≡ plain_shown plain ++ suffixed_shown suffixed) }
{
    let mut groups = plain_group(alloc, plain)?;
    for (suffix, draft) in suffixed {
        let group = group_of(alloc, Some(suffix), draft)?;
        groups.push(group)?;
    }
    Ok(groups)
}

/// Adds the slots of a group: one for each class of the unsuffixed group, one for a suffix.
fn add_slots(slots: &mut Vec<Slot>, place: usize, group: &Group) -> Result<(), NoMemory>
    ensures { OnOk result ((all : List (Option (List ℕ) × Asked.Group))
        → slice_get all place ≡ Some (group_entry group.now)
        → map (slot_shown all) slots.new.items ≡ map (slot_shown all) slots.old.items
        ++ map (λ s. Some s) (group_slots place (group_entry group.now))) }
{
    match &group.suffix {
        Some(_) => {
            slots.push(Slot {
                group: place,
                class: None,
            })?;
            Ok(())
        }
        None => {
            for class in 0..group.needs.len() {
                slots.push(Slot {
                    group: place,
                    class: Some(class),
                })?;
            }
            Ok(())
        }
    }
}

/// The slots of groups, in order.
fn slots_in_order(alloc: Global, groups: &[Group]) -> Result<Vec<Slot>, NoMemory>
    ensures { IfOk result (λ slots. map (slot_shown (map group_entry groups.now)) slots.items
        ≡ map (λ s. Some s) (slots_from 0 (map group_entry groups.now))) }
{
    let mut slots = Vec::new(alloc);
    for (place, group) in groups.iter().enumerate() {
        add_slots(&mut slots, place, group)?;
    }
    Ok(slots)
}

/// The query of a draft without a fault.
fn query_of(alloc: Global, draft: Draft) -> Result<Query, NoMemory>
    requires { first_fault (asked_conditions (draft_asked draft)) ≡ None }
    ensures { IfOk result (λ query. asked_of query ≡ draft_asked draft) }
{
    let Draft {
        plain,
        suffixed,
        policy,
        subtrees,
        root,
        limit,
    } = draft;
    let Traits {
        required,
        forbidden,
    } = root;
    let groups = groups_in_order(alloc, plain, suffixed)?;
    let slots = slots_in_order(alloc, groups.as_slice())?;
    let root_required = names_in_order(alloc, required)?;
    let root_forbidden = names_in_order(alloc, forbidden)?;
    Ok(Query {
        groups,
        slots,
        policy,
        subtrees,
        root_required,
        root_forbidden,
        limit,
    })
}

impl Query {
    /// Reads the text of a query, as it stands behind the `?` of the API's URL, by a version of the API.
    ///
    /// Its pairs are those of `application/x-www-form-urlencoded`. The first fault in the order of the definition is told;
    /// want of memory is told where a growth was refused.
    pub fn read(alloc: Global, text: &str, version: Version) -> Result<Query, QueryFault>
        ensures ok { OnOk result (query_fault version text.now ≡ None) }
        ensures asks { IfOk result (λ query. Asks version (pairs_of text.now) (asked_of query)) }
        ensures record { IfOk result (λ query. asked_of query
            ≡ asked_by version (pairs_of text.now)) }
        ensures fault { IfErr result (λ e. IfSome (fault_shown e) (λ f.
            query_fault version text.now ≡ Some f)) }
        ensures long { 65536 < length text.now → result ≡ Err QueryFault.QueryTooLong }
    {
        let draft = read_draft(alloc, text, version)?;
        check(alloc, &draft)?;
        Ok(query_of(alloc, draft)?)
    }
}
