//! Of what a provider fails a test of its slot, in words: the first thing in the order in which the query keeps it. Nothing where it
//! passes the test.
ghost use Rattle.std.specs.Prelude.{◌≡◌, IfOk, map, string_bytes, take};
ghost use Rattle.std.specs.Option.{option_map};
ghost use Rattle.ac_cloud.specs.World.{provider_at, used_of};
ghost use Rattle.ac_cloud.specs.Cloud.CloudWorld.{providers_of};
ghost use Rattle.ac_query.specs.Shown.Groups.{need_entry, rule_shown};
ghost use Rattle.ac_rules.specs.Own.{inventory_of};
ghost use Rattle.ac_rules.specs.Shown.Assignments.{placed_of};
ghost use Rattle.ac_find.specs.Details.{aggregates_detail, first_absent, first_short, first_unadmitted, first_unmet, forbids_mark, inventory_detail, list_mark, more_text, none_text, room_detail, room_text, rule_text, tree_detail, units_detail, units_text};

pub(crate) mod traits;

pub use self::traits::{root_detail, traits_detail};
use crate::inventories::has_inventory;
use ac_base::{Id, NoMemory};
use ac_query::{AggregateRule, Need, write_ids};
use ac_rules::Placed;
use ac_rules::rules::sums::has_room_of;
use std::alloc::Global;

/// A class, and that nothing is told of it.
pub(crate) fn none_text(alloc: Global, class: &str) -> Result<String, NoMemory>
    ensures { IfOk result (λ text. string_bytes text ≡ none_text class.now) }
{
    Ok(format!(in alloc; "{class}: no inventory")?)
}

// The first class of which the provider has no inventory.
fn first_absent<'a>(placed: &Placed, needs: &'a [Need]) -> Option<&'a Need>
    ensures { option_map (λ need. need_entry need.now) result ≡ first_absent
        (provider_at (providers_of placed.now.cloud.now) placed.now.provider)
        (map need_entry needs.now) }
{
    needs
        .iter()
        .find(|need| !has_inventory(&placed.its_provider(), need))
}

/// The first class of which the provider has no inventory.
pub fn inventory_detail(alloc: Global, placed: &Placed) -> Result<String, NoMemory>
    ensures { IfOk result (λ text. string_bytes text ≡ inventory_detail
        (provider_at (providers_of placed.now.cloud.now) placed.now.provider)
        (placed_of placed.now).slot.needs) }
{
    match first_absent(placed, placed.needs()) {
        Some(need) => none_text(alloc, need.class().text()),
        None => Ok(String::new(alloc)),
    }
}

// A class with its amount, and the units of the provider's inventory.
#[tactic(auto, unfolding(crate::specs::Details::units_text))]
fn units_text(alloc: Global, placed: &Placed, need: &Need) -> Result<String, NoMemory>
    ensures { IfOk result (λ text. string_bytes text ≡ units_text (need_entry need.now)
        (inventory_of (provider_at (providers_of placed.now.cloud.now) placed.now.provider)
        (need_entry need.now).0)) }
{
    let class = need.class().text();
    let Some(inventory) = placed.its_provider().inventory(need.class()) else {
        return none_text(alloc, class);
    };
    let amount = need.amount();
    let least = inventory.min_unit();
    let most = inventory.max_unit();
    let step = inventory.step_size();
    Ok(format!(in alloc;
        "{class}:{amount} not within min_unit {least}, max_unit {most}, step_size {step}"
    )?)
}

// The first class whose amount the provider's inventory doesn't admit.
fn first_unadmitted<'a>(placed: &Placed, needs: &'a [Need]) -> Option<&'a Need>
    ensures { option_map (λ need. need_entry need.now) result ≡ first_unadmitted
        (provider_at (providers_of placed.now.cloud.now) placed.now.provider)
        (map need_entry needs.now) }
{
    needs.iter().find(|need| !placed.admits_need(need))
}

/// The first class whose amount the provider's inventory doesn't admit, with the amount and the inventory's units.
pub fn units_detail(alloc: Global, placed: &Placed) -> Result<String, NoMemory>
    ensures { IfOk result (λ text. string_bytes text ≡ units_detail
        (provider_at (providers_of placed.now.cloud.now) placed.now.provider)
        (placed_of placed.now).slot.needs) }
{
    match first_unadmitted(placed, placed.needs()) {
        Some(need) => units_text(alloc, placed, need),
        None => Ok(String::new(alloc)),
    }
}

// A class with what is left of its capacity beside what is used, and the capacity.
#[tactic(auto, unfolding(crate::specs::Details::room_text))]
fn room_text(alloc: Global, placed: &Placed, need: &Need) -> Result<String, NoMemory>
    ensures { IfOk result (λ text. string_bytes text ≡ room_text (need_entry need.now).0
        (inventory_of (provider_at (providers_of placed.now.cloud.now) placed.now.provider)
        (need_entry need.now).0)
        (used_of (provider_at (providers_of placed.now.cloud.now) placed.now.provider)
        (need_entry need.now).0)) }
{
    let class = need.class().text();
    let provider = placed.its_provider();
    let Some(inventory) = provider.inventory(need.class()) else {
        return none_text(alloc, class);
    };
    let left = provider.left(need.class());
    let capacity = inventory.capacity();
    Ok(format!(in alloc; "{class}: {left} of {capacity} left")?)
}

/// The first class of which the provider has no room for the amount.
pub(crate) fn first_short<'a>(placed: &Placed, needs: &'a [Need]) -> Option<&'a Need>
    ensures { option_map (λ need. need_entry need.now) result ≡ first_short
        (provider_at (providers_of placed.now.cloud.now) placed.now.provider)
        (map need_entry needs.now) }
{
    needs
        .iter()
        .find(|need| !has_room_of(&placed.its_provider(), need))
}

/// The first class of which the provider has no room for the amount, with what is left of its capacity.
pub fn room_detail(alloc: Global, placed: &Placed) -> Result<String, NoMemory>
    ensures { IfOk result (λ text. string_bytes text ≡ room_detail
        (provider_at (providers_of placed.now.cloud.now) placed.now.provider)
        (placed_of placed.now).slot.needs) }
{
    match first_short(placed, placed.needs()) {
        Some(need) => room_text(alloc, placed, need),
        None => Ok(String::new(alloc)),
    }
}

/// The first items of a list, which are told; of further ones it is told how many there are.
pub fn told<X>(items: &[X]) -> &[X]
    ensures { result.now ≡ take 8 items.now }
{
    if items.len() > 8 { &items[..8] } else { items }
}

/// How many more there are of so many, of which the first are told.
#[tactic(auto, unfolding(crate::specs::Details::more_text))]
pub(crate) fn more_text(alloc: Global, count: usize) -> Result<String, NoMemory>
    ensures { IfOk result (λ text. string_bytes text ≡ more_text count) }
{
    if count <= 8 {
        return Ok(String::new(alloc));
    }
    let more = count - 8;
    Ok(format!(in alloc; " and {more} more")?)
}

fn forbids_mark(forbids: bool) -> &'static str
    ensures { result.now ≡ forbids_mark forbids }
{
    if forbids { "!" } else { "" }
}

// A list has a mark, one aggregate has none.
fn list_mark(ids: &[Id]) -> &'static str
    ensures { result.now ≡ list_mark ids.now }
{
    if ids.len() > 1 { "in:" } else { "" }
}

// A rule as `member_of` is written, with the first of a long list.
fn rule_text(alloc: Global, rule: &AggregateRule) -> Result<String, NoMemory>
    ensures { IfOk result (λ text. string_bytes text ≡ rule_text (rule_shown rule.now)) }
{
    let forbids = forbids_mark(rule.forbids());
    let list = list_mark(rule.ids());
    let ids = write_ids(alloc, told(rule.ids()))?;
    let more = more_text(alloc, rule.ids().len())?;
    Ok(format!(in alloc; "member_of={forbids}{list}{ids}{more}")?)
}

// The first rule that isn't met.
fn first_unmet<'a>(placed: &Placed, rules: &'a [AggregateRule]) -> Option<&'a AggregateRule>
    ensures { option_map (λ rule. rule_shown rule.now) result ≡ first_unmet
        (providers_of placed.now.cloud.now) (placed_of placed.now) (map rule_shown rules.now) }
{
    rules.iter().find(|rule| !placed.meets_rule(rule))
}

/// The first rule on aggregates that isn't met.
pub fn aggregates_detail(alloc: Global, placed: &Placed) -> Result<String, NoMemory>
    ensures { IfOk result (λ text. string_bytes text ≡ aggregates_detail
        (providers_of placed.now.cloud.now) (placed_of placed.now)
        (placed_of placed.now).slot.group.member_of) }
{
    match first_unmet(placed, placed.group().member_of()) {
        Some(rule) => rule_text(alloc, rule),
        None => Ok(String::new(alloc)),
    }
}

/// The tree that the provider is to be in.
pub fn tree_detail(alloc: Global, placed: &Placed) -> Result<String, NoMemory>
    ensures { IfOk result (λ text. string_bytes text
        ≡ tree_detail (placed_of placed.now).slot.group.in_tree) }
{
    match placed.group().in_tree() {
        Some(id) => {
            let id = write_ids(alloc, &[id])?;
            Ok(format!(in alloc; "in_tree={id}")?)
        }
        None => Ok(String::new(alloc)),
    }
}
