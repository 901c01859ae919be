//! What is left of each inventory, as `csv` writes it: a header, and a row for each.
ghost use Rattle.std.specs.Prelude.{◌≡◌, ◌++◌, ◌∷◌, ◌<◌, ℕ, List, [], IfOk, IfSome, length, map, option_map};
ghost use Rattle.ac_base.specs.Writing.Rows.{HasRows};
ghost use Rattle.ac_cloud.specs.Cloud.CloudWorld.{providers_of};
ghost use Rattle.ac_cloud.specs.Cloud.Entries.{entry_pair};
ghost use Rattle.ac_cloud.specs.World.{Provider, id_at, provider_at};
ghost use Rattle.ac_report.specs.Names.{shown_name};
ghost use Rattle.ac_run.specs.Answer.{written};
ghost use Rattle.ac_run.specs.Run.{Delivers};
ghost use Rattle.ac_session.specs.LeftRows.{is_told, left_row, left_rows, left_text};

use ac_base::rows::{begin_rows, end_rows, write_row};
use ac_base::{Id, NoMemory, Sink, push_all};
use ac_cloud::{Cloud, Entry};
use ac_report::{PageFault, shown_name};
use csv::Writer;
use itoa::Buffer;
use std::alloc::Global;

// Writes the row of a class of a provider.
fn write_inventory(
    rows: &mut Writer<Vec<u8>>,
    id: Id,
    name: &[u8],
    entry: &Entry,
) -> Result<(), NoMemory>
    ensures { IfOk result (λ _. (before : List (List (List ℕ))) (p : Provider) → p.id ≡ id
        → shown_name p.name ≡ name.now → HasRows rows.old before
        → HasRows rows.new (before ++ left_row p (entry_pair entry.now) ∷ [])) }
{
    let room = entry.inventory().capacity();
    let mut capacity = Buffer::new();
    let mut used = Buffer::new();
    let mut left = Buffer::new();
    write_row(
        rows,
        &[
            &id.text(),
            name,
            entry.class().text().as_bytes(),
            capacity.format(room).as_bytes(),
            used.format(entry.used()).as_bytes(),
            left.format(room.saturating_sub(entry.used())).as_bytes(),
        ],
    )
}

// Writes the rows of a provider.
fn write_provider(
    alloc: Global,
    rows: &mut Writer<Vec<u8>>,
    cloud: &Cloud,
    ix: u32,
) -> Result<(), NoMemory>
    requires { ix < length (providers_of cloud.now) }
    ensures { IfOk result (λ _. (before : List (List (List ℕ))) → HasRows rows.old before
        → HasRows rows.new (before ++ map (left_row (provider_at (providers_of cloud.now) ix))
        (provider_at (providers_of cloud.now) ix).entries)) }
{
    let id = cloud.id(ix);
    let name = shown_name(alloc, cloud.name(ix))?;
    let entries = cloud.entries(ix);
    for entry in entries {
        write_inventory(rows, id, &name, entry)?;
    }
    Ok(())
}

// Whether a provider is told: it is of the tree of this root, or no tree is asked for.
fn is_told(cloud: &Cloud, root: Option<u32>, ix: u32) -> bool
    requires inside { ix < length (providers_of cloud.now) }
    requires root { IfSome root (λ place. place < length (providers_of cloud.now)) }
    ensures { result ≡ is_told (providers_of cloud.now)
        (option_map (id_at (providers_of cloud.now)) root)
        (provider_at (providers_of cloud.now) ix) }
{
    match root {
        None => true,
        Some(root) => cloud.id(cloud.root(ix)) == cloud.id(root),
    }
}

// Writes the rows of a provider, where it is told.
fn write_told(
    alloc: Global,
    rows: &mut Writer<Vec<u8>>,
    cloud: &Cloud,
    root: Option<u32>,
    ix: u32,
) -> Result<(), NoMemory>
    requires inside { ix < length (providers_of cloud.now) }
    requires root { IfSome root (λ place. place < length (providers_of cloud.now)) }
    ensures { IfOk result (λ _. (before : List (List (List ℕ))) → HasRows rows.old before
        → HasRows rows.new (before ++ left_rows (providers_of cloud.now)
        (option_map (id_at (providers_of cloud.now)) root)
        (provider_at (providers_of cloud.now) ix))) }
{
    if is_told(cloud, root, ix) {
        write_provider(alloc, rows, cloud, ix)
    } else {
        Ok(())
    }
}

// The rows of all providers, or of those of the tree of a root.
fn left_text(alloc: Global, cloud: &Cloud, root: Option<u32>) -> Result<Vec<u8>, NoMemory>
    requires { IfSome root (λ place. place < length (providers_of cloud.now)) }
    ensures { IfOk result (λ text. text.items ≡ left_text (providers_of cloud.now)
        (option_map (id_at (providers_of cloud.now)) root)) }
{
    let mut rows = begin_rows(
        alloc,
        &[
            b"resource_provider",
            b"name",
            b"resource_class",
            b"capacity",
            b"used",
            b"left",
        ],
    )?;
    for ix in 0..cloud.len() {
        write_told(alloc, &mut rows, cloud, root, ix)?;
    }
    end_rows(rows)
}

/// Writes what is left of all providers, or of those of the tree of a root.
#[tactic(auto, using(ac_base::proofs::Leaving::part_none))]
pub(crate) fn write_left<W: Sink>(
    alloc: Global,
    cloud: &Cloud,
    root: Option<u32>,
    out: &mut W,
) -> Result<u8, PageFault>
    requires { IfSome root (λ place. place < length (providers_of cloud.now)) }
    ensures { Delivers (written (left_text (providers_of cloud.now)
        (option_map (id_at (providers_of cloud.now)) root)) 0) ⊥ result (W.taken out.old)
        (W.taken out.new) (W.failures out.old) (W.failures out.new) }
{
    let text = left_text(alloc, cloud, root)?;
    push_all(out, &text)?;
    Ok(0)
}
