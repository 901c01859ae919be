//! The table of usages as it stands, as `read_usages` reads it.
ghost use Rattle.std.specs.Prelude.{◌≡◌, ◌++◌, ◌∷◌, ◌<◌, ℕ, List, [], IfOk, length};
ghost use Rattle.ac_cloud.specs.World.{provider_at};
ghost use Rattle.ac_cloud.specs.Cloud.CloudWorld.{providers_of};
ghost use Rattle.ac_cloud.specs.Cloud.Entries.{entry_pair};
ghost use Rattle.ac_base.specs.Writing.Rows.{HasRows};
ghost use Rattle.ac_tables.specs.UsageRows.{entries_fit, fits_table, rows_of_provider, usage_row, usages_fit, usages_text};

use crate::columns::Column;
use ac_base::rows::{begin_rows, end_rows, write_row};
use ac_base::{Id, NoMemory};
use ac_cloud::{Cloud, Entry};
use csv::Writer;
use itoa::Buffer;
use std::alloc::Global;

// The greatest amount that may stand in a table.
const GREATEST: u64 = 2_147_483_647;

// Whether so much may stand in a table.
fn fits_table(entry: &Entry) -> bool
    ensures { result ≡ fits_table (entry_pair entry.now) }
{
    entry.used() <= GREATEST
}

// Whether all that is used of a provider may stand in a table.
fn entries_fit(cloud: &Cloud, ix: u32) -> bool
    requires { ix < length (providers_of cloud.now) }
    ensures { result ≡ entries_fit (provider_at (providers_of cloud.now) ix) }
{
    cloud.entries(ix).iter().all(|entry| fits_table(entry))
}

/// Whether all that is used of all providers may stand in a table.
pub fn usages_fit(cloud: &Cloud) -> bool
    ensures { result ≡ usages_fit (providers_of cloud.now) }
{
    (0..cloud.len()).all(|ix| entries_fit(cloud, ix))
}

// Writes the row of an entry.
fn write_usage(rows: &mut Writer<Vec<u8>>, id: Id, entry: &Entry) -> Result<(), NoMemory>
    ensures { IfOk result (λ _. (before : List (List (List ℕ))) → HasRows rows.old before
        → HasRows rows.new (before ++ usage_row id (entry_pair entry.now) ∷ [])) }
{
    let mut digits = Buffer::new();
    let used = digits.format(entry.used()).as_bytes();
    write_row(rows, &[&id.text(), entry.class().text().as_bytes(), used])
}

// Writes the rows of a provider.
fn write_provider(rows: &mut Writer<Vec<u8>>, cloud: &Cloud, ix: u32) -> Result<(), NoMemory>
    requires { ix < length (providers_of cloud.now) }
    ensures { IfOk result (λ _. (before : List (List (List ℕ))) → HasRows rows.old before
        → HasRows rows.new (before
        ++ rows_of_provider (provider_at (providers_of cloud.now) ix))) }
{
    let id = cloud.id(ix);
    let entries = cloud.entries(ix);
    for entry in entries {
        if entry.used() > 0 {
            write_usage(rows, id, entry)?;
        }
    }
    Ok(())
}

/// The table: a row for each class of which a provider has some in use.
#[tactic(auto, unfolding(crate::specs::Tables::Names::columns_needed))]
pub fn usages_text(alloc: Global, cloud: &Cloud) -> Result<Vec<u8>, NoMemory>
    ensures { IfOk result (λ text. text.items ≡ usages_text (providers_of cloud.now)) }
{
    let mut rows = begin_rows(
        alloc,
        &[
            Column::Owner.name(),
            Column::Class.name(),
            Column::Usage.name(),
        ],
    )?;
    for ix in 0..cloud.len() {
        write_provider(&mut rows, cloud, ix)?;
    }
    end_rows(rows)
}
