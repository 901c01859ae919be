//! How far a query comes in the tree of a root, as `csv` writes it: a header, for each slot a row for each of its classes that nobody
//! has there and for each provider that is looked at, a row for the root, and the verdict of `hosts` on it.
ghost use Rattle.std.specs.Prelude.{◌≡◌, ◌++◌, ◌∷◌, ◌<◌, ◌≤◌, ℕ, List, [], Err, IfOk, None, length, string_bytes};
ghost use Rattle.ac_base.specs.Writing.Rows.{HasRows};
ghost use Rattle.ac_cloud.specs.Cloud.CloudWorld.{providers_of};
ghost use Rattle.ac_query.specs.Shown.Queries.{asked_of};
ghost use Rattle.ac_prune.specs.Fitting.{fits_at};
ghost use Rattle.ac_find.specs.Lacking.{lack_at};
ghost use Rattle.ac_search.specs.Shown.Walk.{MayStop};
ghost use Rattle.ac_search.specs.declared.fault.SearchFault.TheVariants as fault;
ghost use Rattle.ac_report.specs.Findings.WhyRows.{root_lack, root_place, root_row, verdict_detail, verdict_row, why_status, why_text};

mod row;
mod slots;

use self::row::{Front, write_provider};
use self::slots::write_slots;
use crate::findings::lacks::lack_name;
use ac_base::NoMemory;
use ac_base::rows::{begin_rows, end_rows};
use ac_cloud::Cloud;
use ac_find::details::root_detail;
use ac_find::{Lack, find_lack, unheld_detail};
use ac_query::Query;
use ac_rules::rules::anchor::takes_root;
use ac_search::{SearchFault, fits_root};
use csv::Writer;
use std::alloc::Global;

fn root_lack(takes: bool) -> &'static [u8]
    ensures { result.now ≡ root_lack takes }
{
    if takes { b"" } else { b"root traits" }
}

// Writes the row of the root: whether the query takes it.
fn write_root(
    alloc: Global,
    rows: &mut Writer<Vec<u8>>,
    cloud: &Cloud,
    query: &Query,
    root: u32,
) -> Result<(), NoMemory>
    requires { root < length (providers_of cloud.now) }
    ensures { IfOk result (λ _. (before : List (List (List ℕ))) → HasRows rows.old before
        → HasRows rows.new (before
        ++ root_row (providers_of cloud.now) (asked_of query.now) root ∷ [])) }
{
    let lacks = root_lack(takes_root(cloud, query, root));
    let detail = root_detail(alloc, &cloud.provider(root), query)?;
    let front = Front::other(b"root");
    write_provider(alloc, rows, cloud, root, front, lacks, detail.as_bytes())
}

// What `hosts` says of the root, with the slot or the trait that is lacking.
fn verdict_detail(
    alloc: Global,
    cloud: &Cloud,
    query: &Query,
    root: u32,
    lacks: Option<Lack>,
) -> Result<String, NoMemory>
    requires { root < length (providers_of cloud.now) }
    ensures { IfOk result (λ text. string_bytes text
        ≡ verdict_detail (providers_of cloud.now) (asked_of query.now) root lacks) }
{
    match lacks {
        None => Ok(String::from_str(alloc, "fits")?),
        Some(Lack::Slot { slot, stage: _ }) => Ok(format!(in alloc; "slot {slot}: does not fit")?),
        Some(Lack::RequiredTraits) => unheld_detail(alloc, cloud, query, root),
        Some(Lack::RootTraits) | Some(Lack::Together) => {
            Ok(String::from_str(alloc, "does not fit")?)
        }
    }
}

// Writes what `hosts` says of the root.
fn write_verdict(
    alloc: Global,
    rows: &mut Writer<Vec<u8>>,
    cloud: &Cloud,
    query: &Query,
    root: u32,
    lacks: Option<Lack>,
) -> Result<(), NoMemory>
    requires root { root < length (providers_of cloud.now) }
    requires lacks { lacks ≡ lack_at (providers_of cloud.now) (asked_of query.now) root }
    ensures { IfOk result (λ _. (before : List (List (List ℕ))) → HasRows rows.old before
        → HasRows rows.new (before
        ++ verdict_row (providers_of cloud.now) (asked_of query.now) root ∷ [])) }
{
    let detail = verdict_detail(alloc, cloud, query, root, lacks)?;
    let front = Front::other(b"verdict");
    write_provider(
        alloc,
        rows,
        cloud,
        root,
        front,
        lack_name(lacks),
        detail.as_bytes(),
    )
}

// The text of `why` for a root, by what it lacks.
#[tactic(auto, unfolding(crate::specs::Findings::WhyRows::why_text))]
fn why_text(
    alloc: Global,
    cloud: &Cloud,
    query: &Query,
    root: u32,
    lacks: Option<Lack>,
) -> Result<Vec<u8>, NoMemory>
    requires root { root < length (providers_of cloud.now) }
    requires lacks { lacks ≡ lack_at (providers_of cloud.now) (asked_of query.now) root }
    ensures { IfOk result (λ text.
        text.items ≡ why_text (providers_of cloud.now) (asked_of query.now) root) }
{
    let mut rows = begin_rows(
        alloc,
        &[
            b"slot",
            b"suffix",
            b"asks",
            b"provider",
            b"name",
            b"lacks",
            b"detail",
        ],
    )?;
    write_slots(alloc, &mut rows, cloud, query, root)?;
    write_root(alloc, &mut rows, cloud, query, root)?;
    write_verdict(alloc, &mut rows, cloud, query, root, lacks)?;
    end_rows(rows)
}

// 0 where the root fits, 1 where it doesn't.
fn why_status(fits: bool) -> u8
    ensures said { result ≡ why_status fits }
    ensures few { result ≤ 1 }
{
    if fits { 0 } else { 1 }
}

/// The root of a provider's tree.
pub fn root_place(cloud: &Cloud, host: u32) -> u32
    requires { host < length (providers_of cloud.now) }
    ensures place { result ≡ root_place (providers_of cloud.now) host }
    ensures inside { result < length (providers_of cloud.now) }
{
    cloud.root(host)
}

/// The text of `why` for a root, and its status: 0 where the root fits, 1 where it doesn't. The search stops where it may make no more tries.
pub fn why_at(
    alloc: Global,
    cloud: &Cloud,
    query: &Query,
    root: u32,
    tries: Option<u64>,
) -> Result<(Vec<u8>, u8), SearchFault>
    requires { root < length (providers_of cloud.now) }
    ensures text { IfOk result (λ answer.
        answer.0.items ≡ why_text (providers_of cloud.now) (asked_of query.now) root) }
    ensures status { IfOk result (λ answer. answer.1
        ≡ why_status (fits_at (providers_of cloud.now) (asked_of query.now) root)) }
    ensures few { IfOk result (λ answer. answer.1 ≤ 1) }
    ensures stopped { result ≡ Err fault.TooManyTries
        → MayStop tries (providers_of cloud.now) (asked_of query.now) None }
{
    let fits = fits_root(alloc, cloud, query, root, tries)?;
    let lacks = find_lack(alloc, cloud, query, root, fits)?;
    let text = why_text(alloc, cloud, query, root, lacks)?;
    Ok((text, why_status(fits)))
}
