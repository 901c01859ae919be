//! What nobody has of what a query asks for: a line each, pushed without memory.
ghost use Rattle.std.specs.Prelude.{◌≡◌, ◌≤◌, length, map};
ghost use Rattle.std.specs.List.{flat_map};
ghost use Rattle.std.specs.List.Sorted.{IsStrictlySortedBy};
ghost use Rattle.ac_base.specs.Names.{trait_bytes};
ghost use Rattle.ac_base.specs.Texts.{id_text, text_cmp};
ghost use Rattle.ac_cloud.specs.Cloud.CloudWorld.{providers_of};
ghost use Rattle.ac_query.specs.Shown.Groups.{any_of_shown, group_asked, group_entry, need_entry, rule_shown};
ghost use Rattle.ac_query.specs.Shown.Queries.{asked_of};
ghost use Rattle.ac_report.specs.Findings.Explanation.Nobody.{class_missed, group_missed, line_of, list_missed, member_mark, members_line, missed_by, missed_front, nobody_lines, one_of_line, places_missed, rule_missed, things_missed, tree_missed, unless, unmarked_lines};
ghost use Rattle.ac_base.specs.Writing.Pieces.{listed};
ghost use Rattle.ac_base.specs.Writing.{Pushes};

use ac_base::pieces::{push_marked, push_pieces};
use ac_base::{Id, Sink, TraitName, WriteFailed, push_all};
use ac_cloud::Cloud;
use ac_find::{mark_had, somebody_has_class, somebody_has_one, somebody_is, somebody_is_in};
use ac_query::{AggregateRule, AnyOf, Group, Need, Query};

// So many traits are looked for in one pass over the providers.
const MOST_MARKS: usize = 4096;

// A line of a name.
#[tactic(auto, unfolding(crate::specs::Findings::Explanation::Nobody::line_of))]
fn push_line<W: Sink>(out: &mut W, front: &[u8], name: &[u8]) -> Result<(), WriteFailed>
    ensures { Pushes W.taken W.failures out.old out.new result (line_of front.now name.now) }
{
    push_pieces(out, &[front, name, b"\n"])
}

// The line of a class that nobody has.
fn push_class<W: Sink>(out: &mut W, cloud: &Cloud, need: &Need) -> Result<(), WriteFailed>
    ensures { Pushes W.taken W.failures out.old out.new result
        (class_missed (providers_of cloud.now) (need_entry need.now).0) }
{
    if somebody_has_class(cloud, need.class()) {
        return Ok(());
    }
    push_line(out, b"nobody has ", need.class().text().as_bytes())
}

// The classes that nobody has.
#[tactic(auto, using(crate::proofs::FoundTexts::ItemsWritten::item_part))]
fn push_classes<W: Sink>(out: &mut W, cloud: &Cloud, needs: &[Need]) -> Result<(), WriteFailed>
    ensures { Pushes W.taken W.failures out.old out.new result
        (flat_map (λ need. class_missed (providers_of cloud.now) need.0)
        (map need_entry needs.now)) }
{
    for need in needs {
        push_class(out, cloud, need)?;
    }
    Ok(())
}

// What stands before a trait that nobody has, or no root.
#[tactic(auto, unfolding(crate::specs::Findings::Explanation::Nobody::missed_front))]
fn missed_front(roots_alone: bool) -> &'static [u8]
    ensures { result.now ≡ missed_front roots_alone }
{
    if roots_alone {
        b"no root has "
    } else {
        b"nobody has "
    }
}

// The line of a name, unless it is had.
fn push_unless<W: Sink>(
    out: &mut W,
    had: bool,
    front: &[u8],
    name: &TraitName,
) -> Result<(), WriteFailed>
    ensures { Pushes W.taken W.failures out.old out.new result
        (unless had (line_of front.now (trait_bytes name.now))) }
{
    if had {
        return Ok(());
    }
    push_line(out, front, name.text().as_bytes())
}

// The lines of those of some traits that aren't marked.
fn push_unmarked<W: Sink>(
    out: &mut W,
    front: &[u8],
    names: &[TraitName],
    marks: &[bool],
) -> Result<(), WriteFailed>
    requires { length marks.now ≡ length names.now }
    ensures { Pushes W.taken W.failures out.old out.new result
        (unmarked_lines front.now (map trait_bytes names.now) marks.now) }
{
    for k in 0..names.len() {
        push_unless(out, marks[k], front, &names[k])?;
    }
    Ok(())
}

// The traits that nobody has, or no root: so many that one pass over the providers finds them.
fn push_few_traits<W: Sink>(
    out: &mut W,
    cloud: &Cloud,
    roots_alone: bool,
    names: &[TraitName],
) -> Result<(), WriteFailed>
    requires few { length names.now ≤ 4096 }
    requires rising { IsStrictlySortedBy text_cmp (map trait_bytes names.now) }
    ensures { Pushes W.taken W.failures out.old out.new result
        (flat_map (missed_by roots_alone (providers_of cloud.now)) (map trait_bytes names.now)) }
{
    let mut room = [false; MOST_MARKS];
    let marks = &mut room[..names.len()];
    mark_had(cloud, roots_alone, names, marks);
    push_unmarked(out, missed_front(roots_alone), names, marks)
}

// The traits that nobody has, or no root.
#[tactic(auto, using(ac_base::proofs::Leaving::behind))]
fn push_traits<W: Sink>(
    out: &mut W,
    cloud: &Cloud,
    roots_alone: bool,
    names: &[TraitName],
) -> Result<(), WriteFailed>
    requires { IsStrictlySortedBy text_cmp (map trait_bytes names.now) }
    ensures { Pushes W.taken W.failures out.old out.new result
        (flat_map (missed_by roots_alone (providers_of cloud.now)) (map trait_bytes names.now)) }
{
    if names.len() <= MOST_MARKS {
        return push_few_traits(out, cloud, roots_alone, names);
    }
    let (front, rest) = names.split_at(MOST_MARKS);
    push_few_traits(out, cloud, roots_alone, front)?;
    push_traits(out, cloud, roots_alone, rest)
}

// Traits: the first behind a mark, each further one behind a comma.
#[tactic(auto, using(crate::proofs::FoundTexts::ItemsWritten::item_turn, crate::proofs::FoundTexts::ItemsWritten::listed_part, crate::proofs::FoundTexts::ItemsWritten::listed_written))]
pub(super) fn push_names<W: Sink>(
    out: &mut W,
    mark: &[u8],
    names: &[TraitName],
) -> Result<(), WriteFailed>
    ensures { Pushes W.taken W.failures out.old out.new result
        (listed mark.now (map trait_bytes names.now)) }
{
    let mut mark = mark;
    for name in names {
        push_marked(out, mark, name.text().as_bytes())?;
        mark = b",";
    }
    Ok(())
}

// The line of traits of which nobody has one.
#[tactic(auto, using(ac_base::proofs::Leaving::behind), unfolding(crate::specs::Findings::Explanation::Nobody::one_of_line))]
fn push_one_of<W: Sink>(out: &mut W, names: &[TraitName]) -> Result<(), WriteFailed>
    ensures { Pushes W.taken W.failures out.old out.new result
        (one_of_line (map trait_bytes names.now)) }
{
    push_names(out, b"nobody has one of ", names)?;
    push_all(out, b"\n")
}

// The line of a list of traits, if nobody has one of them.
fn push_list<W: Sink>(out: &mut W, cloud: &Cloud, list: &AnyOf) -> Result<(), WriteFailed>
    ensures { Pushes W.taken W.failures out.old out.new result
        (list_missed (providers_of cloud.now) (any_of_shown list.now)) }
{
    let names = list.names();
    if somebody_has_one(cloud, names) {
        return Ok(());
    }
    push_one_of(out, names)
}

// The lists of traits of which nobody has one.
#[tactic(auto, using(crate::proofs::FoundTexts::ItemsWritten::item_part))]
fn push_lists<W: Sink>(out: &mut W, cloud: &Cloud, lists: &[AnyOf]) -> Result<(), WriteFailed>
    ensures { Pushes W.taken W.failures out.old out.new result
        (flat_map (λ names. list_missed (providers_of cloud.now) names)
        (map any_of_shown lists.now)) }
{
    for list in lists {
        push_list(out, cloud, list)?;
    }
    Ok(())
}

// UUIDs: the first behind a mark, each further one behind a comma.
#[tactic(auto, using(crate::proofs::FoundTexts::ItemsWritten::item_turn, crate::proofs::FoundTexts::ItemsWritten::listed_part, crate::proofs::FoundTexts::ItemsWritten::listed_written))]
pub(super) fn push_ids<W: Sink>(out: &mut W, mark: &[u8], ids: &[Id]) -> Result<(), WriteFailed>
    ensures { Pushes W.taken W.failures out.old out.new result
        (listed mark.now (map id_text ids.now)) }
{
    let mut mark = mark;
    for id in ids {
        push_marked(out, mark, &id.text())?;
        mark = b",";
    }
    Ok(())
}

// What stands before the UUIDs of a `member_of`.
fn member_mark(ids: &[Id]) -> &'static [u8]
    ensures { result.now ≡ member_mark ids.now }
{
    if ids.len() > 1 {
        b"nobody is in member_of=in:"
    } else {
        b"nobody is in member_of="
    }
}

// The line of aggregates in which nobody is.
#[tactic(auto, using(ac_base::proofs::Leaving::behind), unfolding(crate::specs::Findings::Explanation::Nobody::members_line))]
fn push_members<W: Sink>(out: &mut W, ids: &[Id]) -> Result<(), WriteFailed>
    ensures { Pushes W.taken W.failures out.old out.new result (members_line ids.now) }
{
    push_ids(out, member_mark(ids), ids)?;
    push_all(out, b"\n")
}

// The line of an aggregate rule, if it asks for aggregates and nobody is in one of them.
fn push_rule<W: Sink>(out: &mut W, cloud: &Cloud, rule: &AggregateRule) -> Result<(), WriteFailed>
    ensures { Pushes W.taken W.failures out.old out.new result
        (rule_missed (providers_of cloud.now) (rule_shown rule.now)) }
{
    if rule.forbids() || somebody_is_in(cloud, rule) {
        return Ok(());
    }
    push_members(out, rule.ids())
}

// The aggregate rules that nobody meets.
#[tactic(auto, using(crate::proofs::FoundTexts::ItemsWritten::item_part))]
fn push_rules<W: Sink>(
    out: &mut W,
    cloud: &Cloud,
    rules: &[AggregateRule],
) -> Result<(), WriteFailed>
    ensures { Pushes W.taken W.failures out.old out.new result
        (flat_map (λ rule. rule_missed (providers_of cloud.now) rule)
        (map rule_shown rules.now)) }
{
    for rule in rules {
        push_rule(out, cloud, rule)?;
    }
    Ok(())
}

// The line of the tree that a group names, if it names one by a UUID that nobody has.
fn push_tree<W: Sink>(out: &mut W, cloud: &Cloud, in_tree: Option<Id>) -> Result<(), WriteFailed>
    ensures { Pushes W.taken W.failures out.old out.new result
        (tree_missed (providers_of cloud.now) in_tree) }
{
    match in_tree {
        None => Ok(()),
        Some(id) => {
            if somebody_is(cloud, id) {
                return Ok(());
            }
            push_line(out, b"nobody has in_tree=", &id.text())
        }
    }
}

// What nobody has of the classes and traits of a group.
#[tactic(auto, using(ac_base::proofs::Leaving::behind))]
fn push_things<W: Sink>(out: &mut W, cloud: &Cloud, group: &Group) -> Result<(), WriteFailed>
    ensures { Pushes W.taken W.failures out.old out.new result
        (things_missed (providers_of cloud.now) (group_asked group.now)) }
{
    push_classes(out, cloud, group.needs())?;
    push_traits(out, cloud, false, group.required())?;
    push_lists(out, cloud, group.any_of())
}

// Where nobody is of the aggregates and the tree of a group.
#[tactic(auto, using(ac_base::proofs::Leaving::behind))]
fn push_places<W: Sink>(out: &mut W, cloud: &Cloud, group: &Group) -> Result<(), WriteFailed>
    ensures { Pushes W.taken W.failures out.old out.new result
        (places_missed (providers_of cloud.now) (group_asked group.now)) }
{
    push_rules(out, cloud, group.member_of())?;
    push_tree(out, cloud, group.in_tree())
}

// What nobody has of a group.
#[tactic(auto, using(ac_base::proofs::Leaving::behind))]
fn push_group<W: Sink>(out: &mut W, cloud: &Cloud, group: &Group) -> Result<(), WriteFailed>
    ensures { Pushes W.taken W.failures out.old out.new result
        (group_missed (providers_of cloud.now) (group_entry group.now).1) }
{
    push_things(out, cloud, group)?;
    push_places(out, cloud, group)
}

// What nobody has of each group.
#[tactic(auto, using(crate::proofs::FoundTexts::ItemsWritten::item_part))]
fn push_groups<W: Sink>(out: &mut W, cloud: &Cloud, groups: &[Group]) -> Result<(), WriteFailed>
    ensures { Pushes W.taken W.failures out.old out.new result
        (flat_map (λ g. group_missed (providers_of cloud.now) g.1)
        (map group_entry groups.now)) }
{
    for group in groups {
        push_group(out, cloud, group)?;
    }
    Ok(())
}

/// Pushes a line for each thing that the query asks for and nobody has: group by group, then of the root.
#[tactic(auto, using(ac_base::proofs::Leaving::behind), unfolding(crate::specs::Findings::Explanation::Nobody::nobody_lines))]
pub(crate) fn push_missing<W: Sink>(
    out: &mut W,
    cloud: &Cloud,
    query: &Query,
) -> Result<(), WriteFailed>
    ensures { Pushes W.taken W.failures out.old out.new result
        (nobody_lines (providers_of cloud.now) (asked_of query.now)) }
{
    push_groups(out, cloud, query.groups())?;
    push_traits(out, cloud, true, query.root_required())
}
