//! Whether a query that has no candidate would have one without one of the things that it asks of several slots together, and the lines that tell it.
ghost use Rattle.std.specs.Prelude.{◌≡◌, ◌<◌, ◌≤◌, Err, IfOk, None, [], get_or, length, map};
ghost use Rattle.ac_cloud.specs.Cloud.CloudWorld.{providers_of};
ghost use Rattle.ac_query.specs.Shown.{suffixes_shown};
ghost use Rattle.ac_query.specs.Shown.Queries.{asked_of};
ghost use Rattle.ac_query.specs.Without.{without_subtree};
ghost use Rattle.ac_find.specs.Explained.{tree_counts};
ghost use Rattle.ac_find.specs.Shown.Explained.{trees_counted as trees_shown};
ghost use Rattle.ac_report.specs.Findings.Explanation.Candidates.{WithoutMayStop, asks_required, found_without, has_candidate, outcome, policy_found, policy_line, required_found, required_line, subtree_line, subtree_lines, subtrees_found, subtrees_found_before, without_lines};
ghost use Rattle.ac_report.specs.Findings.Explanation.Shown.{found_shown};
ghost use Rattle.ac_base.specs.Writing.Pieces.{listed};
ghost use Rattle.ac_base.specs.Writing.{Pushes};
ghost use Rattle.ac_search.specs.Shown.Walk.{MayStop};
ghost use Rattle.ac_search.specs.declared.fault.SearchFault.TheVariants as fault;

use super::has_candidate;
use crate::findings::question::Question;
use ac_base::pieces::push_marked;
use ac_base::{Sink, Suffix, WriteFailed, push_all};
use ac_cloud::Cloud;
use ac_find::{TreeCounts, requires_some, tree_counts};
use ac_query::Query;
use ac_search::SearchFault;
use std::alloc::Global;
use std::collections::BTreeSet;

/// Whether there is a candidate without each list of `same_subtree`, without the policy, and without what the group without a suffix requires,
/// where that is asked.
#[derive(Drop)]
pub struct FoundWithout {
    pub(super) subtrees: Vec<bool>,
    pub(super) policy: Option<bool>,
    pub(super) required: Option<bool>,
}

// Whether a query has a candidate.
fn is_found(
    alloc: Global,
    cloud: &Cloud,
    query: &Query,
    tries: Option<u64>,
) -> Result<bool, SearchFault>
    ensures found { IfOk result (λ found.
        found ≡ has_candidate (providers_of cloud.now) (asked_of query.now)) }
    ensures stopped { result ≡ Err fault.TooManyTries
        → MayStop tries (providers_of cloud.now) (asked_of query.now) None }
{
    let trees = tree_counts(alloc, cloud, query)?;
    has_candidate(alloc, cloud, query, &trees, tries)
}

// The first place of a list of `same_subtree` that is equal to the one at a place.
fn first_equal(lists: &[BTreeSet<Suffix>], k: usize) -> usize
    requires { k < length lists.now }
    ensures few { result ≤ k }
    ensures same { get_or (map suffixes_shown lists.now) result []
        ≡ get_or (map suffixes_shown lists.now) k [] }
{
    for j in 0..k {
        if lists[j] == lists[k] {
            return j;
        }
    }
    k
}

// Whether there is a candidate without the next list of `same_subtree`, behind those of which it was found. The counts of the trees are
// the same without it, and so is what is found without an equal list.
fn find_next(
    alloc: Global,
    cloud: &Cloud,
    question: &Question,
    trees: &TreeCounts,
    found: &[bool],
    tries: Option<u64>,
) -> Result<bool, SearchFault>
    requires trees { trees_shown trees.now
        ≡ tree_counts (providers_of cloud.now) (asked_of question.now.query) }
    requires few { length found.now < length (asked_of question.now.query).subtrees }
    requires found { found.now ≡ subtrees_found_before (providers_of cloud.now)
        (asked_of question.now.query) (length found.now) }
    ensures found { IfOk result (λ next. next ≡ has_candidate (providers_of cloud.now)
        (without_subtree (length found.now) (asked_of question.now.query))) }
    ensures stopped { result ≡ Err fault.TooManyTries → MayStop tries (providers_of cloud.now)
        (without_subtree (length found.now) (asked_of question.now.query)) None }
{
    let k = found.len();
    if trees.required_traits == 0 {
        return Ok(false);
    }
    let equal = first_equal(question.query.subtrees(), k);
    if equal < k {
        return Ok(found[equal]);
    }
    let query = question.again(alloc)?.without_subtree(k);
    has_candidate(alloc, cloud, &query, trees, tries)
}

// Whether there is a candidate without each list of `same_subtree`.
fn find_subtrees(
    alloc: Global,
    cloud: &Cloud,
    question: &Question,
    trees: &TreeCounts,
    tries: Option<u64>,
) -> Result<Vec<bool>, SearchFault>
    requires { trees_shown trees.now
        ≡ tree_counts (providers_of cloud.now) (asked_of question.now.query) }
    ensures found { IfOk result (λ found. found.items
        ≡ subtrees_found (providers_of cloud.now) (asked_of question.now.query)) }
    ensures stopped { result ≡ Err fault.TooManyTries
        → WithoutMayStop tries (providers_of cloud.now) (asked_of question.now.query) }
{
    let mut found = Vec::new(alloc);
    for _list in 0..question.query.subtrees().len() {
        let next = find_next(alloc, cloud, question, trees, &found, tries)?;
        found.push(next)?;
    }
    Ok(found)
}

// Whether there is a candidate without the policy, if it is `isolate`.
fn find_policy(
    alloc: Global,
    cloud: &Cloud,
    question: &Question,
    tries: Option<u64>,
) -> Result<Option<bool>, SearchFault>
    ensures found { IfOk result (λ found. found
        ≡ policy_found (providers_of cloud.now) (asked_of question.now.query)) }
    ensures stopped { result ≡ Err fault.TooManyTries
        → WithoutMayStop tries (providers_of cloud.now) (asked_of question.now.query) }
{
    if !question.query.isolate() {
        return Ok(None);
    }
    let query = question.again(alloc)?.without_policy();
    Ok(Some(is_found(alloc, cloud, &query, tries)?))
}

// Whether the group without a suffix requires some trait, or one of a list.
fn asks_required(query: &Query) -> bool
    ensures { result ≡ asks_required (asked_of query.now) }
{
    query.groups().iter().any(|group| requires_some(group))
}

// Whether there is a candidate without what the group without a suffix requires, if it requires something.
fn find_required(
    alloc: Global,
    cloud: &Cloud,
    question: &Question,
    tries: Option<u64>,
) -> Result<Option<bool>, SearchFault>
    ensures found { IfOk result (λ found. found
        ≡ required_found (providers_of cloud.now) (asked_of question.now.query)) }
    ensures stopped { result ≡ Err fault.TooManyTries
        → WithoutMayStop tries (providers_of cloud.now) (asked_of question.now.query) }
{
    if !asks_required(&question.query) {
        return Ok(None);
    }
    let query = question.again(alloc)?.without_required(alloc)?;
    Ok(Some(is_found(alloc, cloud, &query, tries)?))
}

/// What is found without one thing each, unless a candidate was found with all of them, by the counts of the trees. A search stops where it may make
/// no more tries.
pub fn find_without(
    alloc: Global,
    cloud: &Cloud,
    question: &Question,
    trees: &TreeCounts,
    found: bool,
    tries: Option<u64>,
) -> Result<FoundWithout, SearchFault>
    requires { trees_shown trees.now
        ≡ tree_counts (providers_of cloud.now) (asked_of question.now.query) }
    ensures found { IfOk result (λ without. found_shown without
        ≡ found_without (providers_of cloud.now) (asked_of question.now.query) found) }
    ensures few { IfOk result (λ without. length (found_shown without).subtrees
        ≤ length (asked_of question.now.query).subtrees) }
    ensures stopped { result ≡ Err fault.TooManyTries
        → WithoutMayStop tries (providers_of cloud.now) (asked_of question.now.query) }
{
    if found {
        return Ok(FoundWithout {
            subtrees: Vec::new(alloc),
            policy: None,
            required: None,
        });
    }
    let subtrees = find_subtrees(alloc, cloud, question, trees, tries)?;
    let policy = find_policy(alloc, cloud, question, tries)?;
    let required = find_required(alloc, cloud, question, tries)?;
    Ok(FoundWithout {
        subtrees,
        policy,
        required,
    })
}

// Suffixes: the first behind a mark, each further one behind a comma.
#[tactic(auto, using(crate::proofs::FoundTexts::ItemsWritten::listed_part, crate::proofs::FoundTexts::ItemsWritten::listed_written))]
pub(super) fn push_suffixes<W: Sink>(
    out: &mut W,
    mark: &[u8],
    suffixes: &BTreeSet<Suffix>,
) -> Result<(), WriteFailed>
    ensures { Pushes W.taken W.failures out.old out.new result
        (listed mark.now (suffixes_shown suffixes.now)) }
{
    let mut mark = mark;
    for suffix in suffixes {
        push_marked(out, mark, suffix.text().as_bytes())?;
        mark = b",";
    }
    Ok(())
}

// The end of a line: whether there is a candidate.
fn outcome(found: bool) -> &'static [u8]
    ensures { result.now ≡ outcome found }
{
    if found { b": some\n" } else { b": none\n" }
}

// The line of a list of `same_subtree`.
#[tactic(auto, using(ac_base::proofs::Leaving::behind), unfolding(crate::specs::Findings::Explanation::Candidates::subtree_line))]
fn push_subtree<W: Sink>(
    out: &mut W,
    suffixes: &BTreeSet<Suffix>,
    found: bool,
) -> Result<(), WriteFailed>
    ensures { Pushes W.taken W.failures out.old out.new result
        (subtree_line (suffixes_shown suffixes.now) found) }
{
    push_suffixes(out, b"without same_subtree=", suffixes)?;
    push_all(out, outcome(found))
}

// The lines of all lists of `same_subtree`, as far as something was found of them.
fn push_subtrees<W: Sink>(
    out: &mut W,
    lists: &[BTreeSet<Suffix>],
    found: &[bool],
) -> Result<(), WriteFailed>
    requires { length found.now ≤ length lists.now }
    ensures { Pushes W.taken W.failures out.old out.new result
        (subtree_lines (map suffixes_shown lists.now) found.now) }
{
    for k in 0..found.len() {
        push_subtree(out, &lists[k], found[k])?;
    }
    Ok(())
}

// The line of the policy, if it was taken away.
#[tactic(auto, unfolding(crate::specs::Findings::Explanation::Candidates::policy_line))]
fn policy_line(found: Option<bool>) -> &'static [u8]
    ensures { result.now ≡ policy_line found }
{
    match found {
        None => b"",
        Some(true) => b"with group_policy=none: some\n",
        Some(false) => b"with group_policy=none: none\n",
    }
}

// The line of what the group without a suffix requires, if that was taken away.
#[tactic(auto, unfolding(crate::specs::Findings::Explanation::Candidates::required_line))]
fn required_line(found: Option<bool>) -> &'static [u8]
    ensures { result.now ≡ required_line found }
{
    match found {
        None => b"",
        Some(true) => b"without required: some\n",
        Some(false) => b"without required: none\n",
    }
}

/// Pushes a line for each thing that was taken away, with what was found without it.
#[tactic(auto, using(ac_base::proofs::Leaving::behind), unfolding(crate::specs::Findings::Explanation::Candidates::without_lines))]
pub(crate) fn push_without<W: Sink>(
    out: &mut W,
    query: &Query,
    without: &FoundWithout,
) -> Result<(), WriteFailed>
    requires { length (found_shown without.now).subtrees ≤ length (asked_of query.now).subtrees }
    ensures { Pushes W.taken W.failures out.old out.new result
        (without_lines (asked_of query.now) (found_shown without.now)) }
{
    push_subtrees(out, query.subtrees(), &without.subtrees)?;
    push_all(out, policy_line(without.policy))?;
    push_all(out, required_line(without.required))
}
