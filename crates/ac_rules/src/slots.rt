//! The slots of a query, by their places.

ghost use Rattle.std.specs.Prelude.{◌≡◌, ◌==◌, ◌<◌, ◌≤◌, length, map, get_or, []};
ghost use Rattle.std.specs.Option.{is_some};
ghost use Rattle.ac_query.specs.Asked.{slots_of, lists_suffix};
ghost use Rattle.ac_query.specs.Shown.Groups.{need_entry, group_entry};
ghost use Rattle.ac_query.specs.Shown.Queries.{asked_of};
ghost use Rattle.ac_rules.specs.Placed.{slot_at};
ghost use Rattle.ac_rules.specs.Together.{is_set_apart};

use ac_query::{Group, Need, Query};

/// How many slots there are.
pub fn count_slots(query: &Query) -> usize
    ensures count { result ≡ length (slots_of (asked_of query.now)) }
    ensures some { 0 < result }
    ensures few { result ≤ 64 }
{
    query.slots().len()
}

// The place of a slot's group among the groups.
fn place_at(query: &Query, s: usize) -> usize
    requires { s < length (slots_of (asked_of query.now)) }
    ensures place { result ≡ (slot_at (asked_of query.now) s).place }
    ensures within { result < length (asked_of query.now).groups }
{
    query.slots()[s].group()
}

/// Whether two slots are of one group.
pub fn are_of_one_group(query: &Query, s: usize, other: usize) -> bool
    requires slot { s < length (slots_of (asked_of query.now)) }
    requires other { other < length (slots_of (asked_of query.now)) }
    ensures { result ≡ ((slot_at (asked_of query.now) s).place
        == (slot_at (asked_of query.now) other).place) }
{
    place_at(query, s) == place_at(query, other)
}

/// The group of a slot.
pub fn group_at(query: &Query, s: usize) -> &Group
    requires { s < length (slots_of (asked_of query.now)) }
    ensures { group_entry result.now
        ≡ ((slot_at (asked_of query.now) s).suffix, (slot_at (asked_of query.now) s).group) }
{
    &query.groups()[place_at(query, s)]
}

/// What a slot needs.
pub fn needs_at(query: &Query, s: usize) -> &[Need]
    requires { s < length (slots_of (asked_of query.now)) }
    ensures { map need_entry result.now ≡ (slot_at (asked_of query.now) s).needs }
{
    query.slot_needs(s)
}

/// Whether a slot is a suffixed group's.
pub fn is_suffixed(query: &Query, s: usize) -> bool
    requires { s < length (slots_of (asked_of query.now)) }
    ensures { result ≡ is_some (slot_at (asked_of query.now) s).suffix }
{
    group_at(query, s).suffix().is_some()
}

/// Whether a slot is a suffixed group's and has classes.
#[tactic(auto, unfolding(crate::specs::Together::is_set_apart))]
pub fn is_set_apart(query: &Query, s: usize) -> bool
    requires { s < length (slots_of (asked_of query.now)) }
    ensures { result ≡ is_set_apart (slot_at (asked_of query.now) s) }
{
    is_suffixed(query, s) && !needs_at(query, s).is_empty()
}

/// Whether list `k` of `same_subtree` names the suffix of a slot.
#[tactic(auto, using(crate::proofs::SlotLemmas::listed_at))]
pub fn is_listed(query: &Query, k: usize, s: usize) -> bool
    requires list { k < length (asked_of query.now).subtrees }
    requires slot { s < length (slots_of (asked_of query.now)) }
    ensures { result ≡ lists_suffix (get_or (asked_of query.now).subtrees k [])
        (slot_at (asked_of query.now) s).suffix }
{
    query.in_subtree(k, s)
}
