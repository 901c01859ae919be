//! What is amiss in a cloud, as `csv` writes it: a header, and a row for each finding.
ghost use Rattle.std.specs.Prelude.{◌≡◌, ◌++◌, ◌∷◌, ℕ, [], IfOk, List, map, option_map};
ghost use Rattle.ac_base.specs.Writing.Rows.{HasRows};
ghost use Rattle.ac_base.specs.Texts.{id_text};
ghost use Rattle.ac_cloud.specs.Providers.{provider_of};
ghost use Rattle.ac_find.specs.Shown.Audit.{finding_shown};
ghost use Rattle.ac_report.specs.Findings.AuditRows.{audit_text, finding_row, kind_name, provider_id, provider_name};

use crate::names::shown_name;
use ac_base::rows::{begin_rows, end_rows, write_row};
use ac_base::{Id, NoMemory};
use ac_cloud::Provider;
use ac_find::{Finding, Kind};
use csv::Writer;
use std::alloc::Global;

fn kind_name(kind: Kind) -> &'static [u8]
    ensures { result.now ≡ kind_name kind }
{
    match kind {
        Kind::OverCapacity => b"over capacity",
        Kind::NeverFits => b"never fits",
        Kind::SharesWithNobody => b"shares with nobody",
        Kind::SharesNothing => b"shares nothing",
        Kind::NoInventory => b"no inventory",
        Kind::NoStorage => b"no storage",
        Kind::OutsideZone => b"outside its hosts' aggregates",
        Kind::NameTwice => b"name twice",
        Kind::NoUsage => b"no usage",
        Kind::Disabled => b"disabled",
    }
}

// A UUID, as it is written.
fn id_cell(alloc: Global, id: Id) -> Result<Vec<u8>, NoMemory>
    ensures { IfOk result (λ text. text.items ≡ id_text id) }
{
    Ok(id.text().to_vec(alloc)?)
}

// The UUID of a provider, where there is one.
fn provider_id(alloc: Global, provider: Option<Provider>) -> Result<Vec<u8>, NoMemory>
    ensures { IfOk result (λ text. text.items
        ≡ provider_id (option_map provider_of provider.entry)) }
{
    match provider {
        Some(provider) => id_cell(alloc, provider.id()),
        None => Ok(Vec::new(alloc)),
    }
}

// Its name.
fn provider_name(alloc: Global, provider: Option<Provider>) -> Result<Vec<u8>, NoMemory>
    ensures { IfOk result (λ text. text.items
        ≡ provider_name (option_map provider_of provider.entry)) }
{
    match provider {
        Some(provider) => shown_name(alloc, provider.cloud.name(provider.ix)),
        None => Ok(Vec::new(alloc)),
    }
}

// Writes a row.
fn write_cells(
    rows: &mut Writer<Vec<u8>>,
    kind: &[u8],
    id: &[u8],
    name: &[u8],
    detail: &[u8],
) -> Result<(), NoMemory>
    ensures { IfOk result (λ _. (before : List (List (List ℕ))) → HasRows rows.old before
        → HasRows rows.new (before ++ (kind.now ∷ id.now ∷ name.now ∷ detail.now ∷ []) ∷ [])) }
{
    write_row(rows, &[kind, id, name, detail])
}

// Writes the row of a finding.
fn write_finding(
    alloc: Global,
    rows: &mut Writer<Vec<u8>>,
    finding: &Finding,
) -> Result<(), NoMemory>
    ensures { IfOk result (λ _. (before : List (List (List ℕ))) → HasRows rows.old before
        → HasRows rows.new (before ++ finding_row (finding_shown finding.now) ∷ [])) }
{
    let id = provider_id(alloc, finding.provider)?;
    let name = provider_name(alloc, finding.provider)?;
    let detail = finding.detail.as_bytes();
    write_cells(rows, kind_name(finding.kind), &id, &name, detail)
}

/// The text of `audit`.
#[tactic(auto, unfolding(crate::specs::Findings::AuditRows::audit_text))]
pub fn audit_text(alloc: Global, found: &[Finding]) -> Result<Vec<u8>, NoMemory>
    ensures { IfOk result (λ text. text.items ≡ audit_text (map finding_shown found.now)) }
{
    let mut rows = begin_rows(alloc, &[b"kind", b"provider", b"name", b"detail"])?;
    for finding in found {
        write_finding(alloc, &mut rows, finding)?;
    }
    end_rows(rows)
}
