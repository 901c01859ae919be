//! Which roots fit, and what the others lack, as `csv` writes it: a header, and a row for each root.
ghost use Rattle.std.specs.Prelude.{◌≡◌, ◌++◌, ◌∷◌, ◌<◌, ◌≤◌, ℕ, List, [], IfOk, length};
ghost use Rattle.std.specs.List.{All, list_any};
ghost use Rattle.ac_base.specs.Writing.Rows.{HasRows};
ghost use Rattle.ac_cloud.specs.Cloud.CloudWorld.{providers_of};
ghost use Rattle.ac_query.specs.Shown.Queries.{asked_of};
ghost use Rattle.ac_prune.specs.Fitting.{fits_at, fitting};
ghost use Rattle.ac_find.specs.Furthest.{wanting_where};
ghost use Rattle.ac_find.specs.Lacking.{lack_at, lacks_of};
ghost use Rattle.ac_find.specs.Unheld.{unheld_where};
ghost use Rattle.ac_report.specs.Findings.HostRows.{host_row, hosts_status, hosts_text, yes_or_no};

use crate::findings::host_details::{asks_of, host_detail};
use crate::findings::lacks::{lack_name, slot_digits};
use crate::findings::within::{roots_told, roots_within};
use crate::names::shown_name;
use ac_base::NoMemory;
use ac_base::rows::{begin_rows, end_rows, write_row};
use ac_cloud::Cloud;
use ac_find::{Lack, Unheld, Wanting, find_unheld, find_wanting};
use ac_query::Query;
use csv::Writer;
use std::alloc::Global;

fn yes_or_no(fits: bool) -> &'static [u8]
    ensures { result.now ≡ yes_or_no fits }
{
    if fits { b"yes" } else { b"no" }
}

// Writes the row of a root.
fn write_root(
    alloc: Global,
    rows: &mut Writer<Vec<u8>>,
    cloud: &Cloud,
    query: &Query,
    root: u32,
    fits: bool,
    lacks: Option<Lack>,
    wanting: Option<Wanting>,
    unheld: Option<Unheld>,
) -> Result<(), NoMemory>
    requires root { root < length (providers_of cloud.now) }
    requires fits { fits ≡ fits_at (providers_of cloud.now) (asked_of query.now) root }
    requires lacks { lacks ≡ lack_at (providers_of cloud.now) (asked_of query.now) root }
    requires wanting { wanting
        ≡ wanting_where (providers_of cloud.now) (asked_of query.now) root lacks }
    requires unheld { unheld
        ≡ unheld_where (providers_of cloud.now) (asked_of query.now) root lacks }
    ensures { IfOk result (λ _. (before : List (List (List ℕ))) → HasRows rows.old before
        → HasRows rows.new (before
        ++ host_row (providers_of cloud.now) (asked_of query.now) root ∷ [])) }
{
    let name = shown_name(alloc, cloud.name(root))?;
    let asks = asks_of(alloc, query, lacks)?;
    let detail = host_detail(alloc, cloud, query, root, lacks, wanting, unheld)?;
    write_row(
        rows,
        &[
            &cloud.id(root).text(),
            &name,
            yes_or_no(fits),
            slot_digits(lacks).as_bytes(),
            lack_name(lacks),
            &asks,
            detail.as_bytes(),
        ],
    )
}

/// The text of `hosts` of all roots, or of those of an aggregate alone, and of those that fit alone where only they are asked for, by which roots fit and what
/// each lacks.
#[tactic(auto, unfolding(crate::specs::Findings::HostRows::hosts_text))]
pub fn hosts_text(
    alloc: Global,
    cloud: &Cloud,
    query: &Query,
    only_fitting: bool,
    within: Option<u128>,
    fits: &[bool],
    lacks: &[Option<Lack>],
) -> Result<Vec<u8>, NoMemory>
    requires fits { fits.now ≡ fitting (providers_of cloud.now) (asked_of query.now) }
    requires lacks { lacks.now ≡ lacks_of (providers_of cloud.now) (asked_of query.now) }
    ensures { IfOk result (λ text. text.items
        ≡ hosts_text (providers_of cloud.now) (asked_of query.now) only_fitting within) }
{
    let roots = roots_told(alloc, cloud, query, only_fitting, within, fits)?;
    let found = find_wanting(alloc, cloud, query, lacks)?;
    let unheld = find_unheld(alloc, cloud, query, lacks)?;
    let mut rows = begin_rows(
        alloc,
        &[
            b"root", b"name", b"fits", b"slot", b"lacks", b"asks", b"detail",
        ],
    )?;
    for root in &roots {
        let at = *root as usize;
        write_root(
            alloc, &mut rows, cloud, query, *root, fits[at], lacks[at], found[at], unheld[at],
        )?;
    }
    end_rows(rows)
}

// Whether some of these roots fits.
fn some_fit(cloud: &Cloud, query: &Query, roots: &[u32], fits: &[bool]) -> bool
    requires roots { All (λ r. r < length (providers_of cloud.now)) roots.now }
    requires fits { fits.now ≡ fitting (providers_of cloud.now) (asked_of query.now) }
    ensures { result
        ≡ list_any (fits_at (providers_of cloud.now) (asked_of query.now)) roots.now }
{
    for root in roots {
        if fits[*root as usize] {
            return true;
        }
    }
    false
}

/// 0 where some root fits, or some root of an aggregate, 1 where none does.
pub fn hosts_status(
    alloc: Global,
    cloud: &Cloud,
    query: &Query,
    within: Option<u128>,
    fits: &[bool],
) -> Result<u8, NoMemory>
    requires { fits.now ≡ fitting (providers_of cloud.now) (asked_of query.now) }
    ensures said { IfOk result (λ status.
        status ≡ hosts_status (providers_of cloud.now) (asked_of query.now) within) }
    ensures few { IfOk result (λ status. status ≤ 1) }
{
    let roots = roots_within(alloc, cloud, within)?;
    if some_fit(cloud, query, &roots, fits) {
        Ok(0)
    } else {
        Ok(1)
    }
}
