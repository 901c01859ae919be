//! A page as rows, as `csv` writes them: a header, and for each candidate a row for each provider of which something is taken.

mod cells;

ghost use Rattle.std.specs.Prelude.{◌≡◌, ◌<◌, ◌++◌, ◌∷◌, ℕ, List, [], IfOk, length, map};
ghost use Rattle.std.specs.List.{All};
ghost use Rattle.std.specs.Map.{keys_of};
ghost use Rattle.ac_base.specs.Sorted.{rising};
ghost use Rattle.ac_base.specs.Texts.{text_cmp};
ghost use Rattle.ac_cloud.specs.Cloud.CloudWorld.{providers_of};
ghost use Rattle.ac_query.specs.Shown.Queries.{asked_of};
ghost use Rattle.ac_rules.specs.Pages.{cut};
ghost use Rattle.ac_rules.specs.Placed.{assigned};
ghost use Rattle.ac_report.specs.ListRows.{block_text, blocks, list_pieces, list_text, provider_row};
ghost use Rattle.ac_report.specs.Outcomes.{Reads, Writes, WritesEach};
ghost use Rattle.ac_report.specs.Pages.{IsAssignment};
ghost use Rattle.ac_base.specs.Writing.Rows.{HasRows};
ghost use Rattle.ac_report.specs.Texts.{shown_providers};
ghost use Rattle.ac_report.specs.Trees.{needs_on};

use self::cells::{allocation_cell, inventory_cell, traits_cell};
use crate::amounts::{all_hosts, classes_on};
use crate::fault::PageFault;
use crate::lines::{is_over, one_less, push_piece};
use crate::names::shown_name;
use crate::summary::shown_traits;
use ac_base::rows::{end_rows, no_rows, write_row};
use ac_base::{NoMemory, Sink};
use ac_cloud::Cloud;
use ac_query::Query;
use ac_rules::Source;
use csv::Writer;
use std::alloc::Global;
use std::collections::BTreeSet;

// A list of a page by its number, with traits or without.
#[derive(Clone, Copy)]
struct Listed<'a> {
    cloud: &'a Cloud,
    query: &'a Query,
    list: &'a [u32],
    number: u32,
    traits: bool,
    ghost assigned: { IsAssignment (providers_of cloud.now) (asked_of query.now) list.now },
}

// Writes the row of a provider, of which these classes are needed.
fn write_provider(
    alloc: Global,
    rows: &mut Writer<Vec<u8>>,
    listed: &Listed<'_>,
    provider: u32,
    classes: &BTreeSet<&str>,
) -> Result<(), NoMemory>
    requires provider { provider < length (providers_of listed.now.cloud.now) }
    requires classes { map (λ class. class.now) classes.now.keys ≡ rising text_cmp (keys_of
        (needs_on (assigned (asked_of listed.now.query.now) listed.now.list.now) provider)) }
    ensures { IfOk result (λ _. (before : List (List (List ℕ))) → HasRows rows.old before
        → HasRows rows.new (before
        ++ provider_row (shown_providers listed.now.traits (providers_of listed.now.cloud.now))
        (assigned (asked_of listed.now.query.now) listed.now.list.now) listed.now.number provider
        ∷ [])) }
{
    let cloud = listed.cloud;
    let number = listed.number;
    let number = format!(in alloc; "{number}")?;
    let allocation = allocation_cell(alloc, listed.query, listed.list, provider, classes)?;
    let name = shown_name(alloc, cloud.name(provider))?;
    let inventory = inventory_cell(alloc, cloud.entries(provider))?;
    let traits = traits_cell(alloc, shown_traits(cloud, provider, listed.traits))?;
    write_row(
        rows,
        &[
            number.as_bytes(),
            allocation.as_bytes(),
            &cloud.id(provider).text(),
            inventory.as_bytes(),
            traits.as_bytes(),
            &name,
        ],
    )
}

// The rows of a list.
#[tactic(auto, unfolding(crate::specs::ListRows::block_text))]
fn block_text(alloc: Global, listed: &Listed<'_>) -> Result<Vec<u8>, NoMemory>
    ensures { IfOk result (λ text. text.items
        ≡ block_text (shown_providers listed.now.traits (providers_of listed.now.cloud.now))
        (asked_of listed.now.query.now) listed.now.number listed.now.list.now) }
{
    let mut rows = no_rows(alloc);
    for provider in &all_hosts(alloc, listed.list)? {
        let classes = classes_on(alloc, listed.query, listed.list, *provider)?;
        if classes.is_empty() {
            continue;
        }
        write_provider(alloc, &mut rows, listed, *provider, &classes)?;
    }
    end_rows(rows)
}

// Writes the rows of the lists that are left, up to the limit, and answers how many lists these are.
fn write_blocks<S: Source, W: Sink>(
    alloc: Global,
    cloud: &Cloud,
    query: &Query,
    traits: bool,
    source: &mut S,
    out: &mut W,
) -> Result<u32, PageFault>
    requires { All (IsAssignment (providers_of cloud.now) (asked_of query.now))
        (S.left source.old) }
    ensures reads { Reads (asked_of query.now).limit 0 result (S.left source.old)
        (S.left source.new) }
    ensures writes { WritesEach W.taken W.failures (S.may_stop source.old) out.old out.new result
        (λ text. text) (blocks (shown_providers traits (providers_of cloud.now))
        (asked_of query.now) 1 (cut (asked_of query.now).limit (S.left source.old))) }
{
    let mut wanted = query.limit();
    let mut count: u32 = 0;
    'lists: while !is_over(wanted) {
        let number = count.saturating_add(1);
        let text = match source.next()? {
            None => return Ok(count),
            Some(list) => {
                let listed = Listed {
                    cloud,
                    query,
                    list,
                    number,
                    traits,
                };
                block_text(alloc, &listed)?
            }
        };
        push_piece(out, &text)?;
        wanted = one_less(wanted);
        count = number;
    }
    Ok(count)
}

/// Writes the lists that are left as rows, at most as many lists as the query's limit, and answers how many these are, at most
/// 4294967295. The traits of providers are told, or their column is left empty.
///
/// The next list is taken only once the rows of the one before are pushed whole.
pub fn write_list<S: Source, W: Sink>(
    alloc: Global,
    cloud: &Cloud,
    query: &Query,
    traits: bool,
    source: &mut S,
    out: &mut W,
) -> Result<u32, PageFault>
    requires { All (IsAssignment (providers_of cloud.now) (asked_of query.now))
        (S.left source.old) }
    ensures reads { Reads (asked_of query.now).limit 0 result (S.left source.old)
        (S.left source.new) }
    ensures writes { Writes W.taken W.failures (S.may_stop source.old) out.old out.new result
        (list_text (shown_providers traits (providers_of cloud.now)) (asked_of query.now)
        (cut (asked_of query.now).limit (S.left source.old))) (λ text. text)
        (list_pieces (shown_providers traits (providers_of cloud.now)) (asked_of query.now)
        (cut (asked_of query.now).limit (S.left source.old))) }
{
    push_piece(
        out,
        b"#,allocation,resource provider,inventory used/capacity,traits,name\n",
    )?;
    write_blocks(alloc, cloud, query, traits, source, out)
}
