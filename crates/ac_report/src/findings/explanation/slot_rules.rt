//! What a group asks of the provider of a slot besides its classes, as a query says it: traits, aggregates and a tree. Of a long
//! list the first are told, and how many more there are.
ghost use Rattle.std.specs.Prelude.{◌≡◌, codes, map};
ghost use Rattle.std.specs.List.{flat_map};
ghost use Rattle.ac_base.specs.Names.{trait_bytes};
ghost use Rattle.ac_base.specs.Texts.{id_text};
ghost use Rattle.ac_base.specs.Writing.{Pushes};
ghost use Rattle.ac_base.specs.Writing.Pieces.{marked};
ghost use Rattle.ac_find.specs.Details.{more_text};
ghost use Rattle.ac_query.specs.Shown.Groups.{any_of_shown, group_asked, rule_shown, suffix_of};
ghost use Rattle.ac_report.specs.Findings.Explanation.SlotRules.{forbidden_asked, required_asked, rule_asked, rule_mark, some_listed, traits_asked, tree_asked};

use super::nobody::{push_ids, push_names};
use ac_base::pieces::{push_marked, push_pieces};
use ac_base::{Id, Sink, TraitName, WriteFailed};
use ac_find::details::told;
use ac_query::{AggregateRule, AnyOf, Group};
use itoa::Buffer;

// How many more there are than were told.
#[tactic(auto, unfolding(ac_find::specs::Details::more_text))]
fn push_more<W: Sink>(out: &mut W, count: usize) -> Result<(), WriteFailed>
    ensures { Pushes W.taken W.failures out.old out.new result (more_text count) }
{
    if count <= 8 {
        return Ok(());
    }
    let mut digits = Buffer::new();
    push_pieces(
        out,
        &[b" and ", digits.format(count - 8).as_bytes(), b" more"],
    )
}

// Traits of a list: the first behind a mark.
#[tactic(auto, using(ac_base::proofs::Leaving::behind))]
fn push_some_names<W: Sink>(
    out: &mut W,
    mark: &[u8],
    names: &[TraitName],
) -> Result<(), WriteFailed>
    ensures { Pushes W.taken W.failures out.old out.new result
        (some_listed mark.now (map trait_bytes names.now)) }
{
    push_names(out, mark, told(names))?;
    push_more(out, names.len())
}

// UUIDs of a list: the first behind a mark.
#[tactic(auto, using(ac_base::proofs::Leaving::behind))]
fn push_some_ids<W: Sink>(out: &mut W, mark: &[u8], ids: &[Id]) -> Result<(), WriteFailed>
    ensures { Pushes W.taken W.failures out.old out.new result
        (some_listed mark.now (map id_text ids.now)) }
{
    push_ids(out, mark, told(ids))?;
    push_more(out, ids.len())
}

// Lists of traits of which one each is required.
#[tactic(auto, using(crate::proofs::FoundTexts::ItemsWritten::item_part))]
fn push_lists<W: Sink>(out: &mut W, lists: &[AnyOf]) -> Result<(), WriteFailed>
    ensures { Pushes W.taken W.failures out.old out.new result
        (flat_map (λ names. some_listed (codes " required=in:") names)
        (map any_of_shown lists.now)) }
{
    for list in lists {
        push_some_names(out, b" required=in:", list.names())?;
    }
    Ok(())
}

// A trait that is forbidden.
fn push_forbidden_name<W: Sink>(out: &mut W, name: &TraitName) -> Result<(), WriteFailed>
    ensures { Pushes W.taken W.failures out.old out.new result
        (marked (codes " required=!") (trait_bytes name.now)) }
{
    push_marked(out, b" required=!", name.text().as_bytes())
}

// Traits, each behind a mark.
#[tactic(auto, using(crate::proofs::FoundTexts::ItemsWritten::item_part))]
fn push_each<W: Sink>(out: &mut W, names: &[TraitName]) -> Result<(), WriteFailed>
    ensures { Pushes W.taken W.failures out.old out.new result
        (flat_map (λ name. marked (codes " required=!") name) (map trait_bytes names.now)) }
{
    for name in names {
        push_forbidden_name(out, name)?;
    }
    Ok(())
}

// Traits that are forbidden.
#[tactic(auto, using(ac_base::proofs::Leaving::behind))]
fn push_forbidden<W: Sink>(out: &mut W, names: &[TraitName]) -> Result<(), WriteFailed>
    ensures { Pushes W.taken W.failures out.old out.new result
        (forbidden_asked (map trait_bytes names.now)) }
{
    push_each(out, told(names))?;
    push_more(out, names.len())
}

// What a group requires of the provider of a slot. The group without a suffix requires it of all its providers together.
#[tactic(auto, using(ac_base::proofs::Leaving::behind))]
fn push_required<W: Sink>(out: &mut W, group: &Group) -> Result<(), WriteFailed>
    ensures { Pushes W.taken W.failures out.old out.new result
        (required_asked (suffix_of group.now) (group_asked group.now)) }
{
    if group.suffix().is_none() {
        return Ok(());
    }
    push_some_names(out, b" required=", group.required())?;
    push_lists(out, group.any_of())
}

/// Pushes the traits that a group requires of the provider of a slot, or forbids.
#[tactic(auto, using(ac_base::proofs::Leaving::behind))]
pub(super) fn push_traits<W: Sink>(out: &mut W, group: &Group) -> Result<(), WriteFailed>
    ensures { Pushes W.taken W.failures out.old out.new result
        (traits_asked (suffix_of group.now) (group_asked group.now)) }
{
    push_required(out, group)?;
    push_forbidden(out, group.forbidden())
}

// What stands before the UUIDs of a rule.
fn rule_mark(rule: &AggregateRule) -> &'static [u8]
    ensures { result.now ≡ rule_mark (rule_shown rule.now) }
{
    let several = rule.ids().len() > 1;
    if rule.forbids() {
        if several {
            b" member_of=!in:"
        } else {
            b" member_of=!"
        }
    } else if several {
        b" member_of=in:"
    } else {
        b" member_of="
    }
}

// A rule on aggregates.
fn push_rule<W: Sink>(out: &mut W, rule: &AggregateRule) -> Result<(), WriteFailed>
    ensures { Pushes W.taken W.failures out.old out.new result (rule_asked (rule_shown rule.now)) }
{
    push_some_ids(out, rule_mark(rule), rule.ids())
}

/// Pushes the rules on aggregates of a group.
#[tactic(auto, using(crate::proofs::FoundTexts::ItemsWritten::item_part))]
pub(super) fn push_aggregates<W: Sink>(
    out: &mut W,
    rules: &[AggregateRule],
) -> Result<(), WriteFailed>
    ensures { Pushes W.taken W.failures out.old out.new result
        (flat_map rule_asked (map rule_shown rules.now)) }
{
    for rule in rules {
        push_rule(out, rule)?;
    }
    Ok(())
}

/// Pushes the tree that a group names, if it names one.
pub(super) fn push_tree<W: Sink>(out: &mut W, in_tree: Option<Id>) -> Result<(), WriteFailed>
    ensures { Pushes W.taken W.failures out.old out.new result (tree_asked in_tree) }
{
    match in_tree {
        None => Ok(()),
        Some(id) => push_marked(out, b" in_tree=", &id.text()),
    }
}
