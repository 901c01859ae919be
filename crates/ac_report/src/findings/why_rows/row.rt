//! A row of `why`.
ghost use Rattle.std.specs.Prelude.{◌≡◌, ◌++◌, ◌∷◌, ◌<◌, ℕ, List, [], IfOk, length};
ghost use Rattle.ac_base.specs.Writing.Rows.{HasRows};
ghost use Rattle.ac_cloud.specs.Cloud.CloudWorld.{providers_of};
ghost use Rattle.ac_report.specs.Findings.WhyRows.{other_front, provider_fields, why_fields};
ghost use Rattle.ac_report.specs.Findings.WhyRows.Shown.{front_shown};

use crate::names::shown_name;
use ac_base::NoMemory;
use ac_base::rows::write_row;
use ac_cloud::Cloud;
use csv::Writer;
use std::alloc::Global;

/// What a row is of: a slot by its number, the suffix of its group and what it asks, or something else by its name.
#[derive(Clone, Copy)]
pub(super) struct Front<'a> {
    pub(super) slot: &'a [u8],
    pub(super) suffix: &'a [u8],
    pub(super) asks: &'a [u8],
}

impl<'a> Front<'a> {
    /// Of no slot.
    pub(super) fn other(name: &'a [u8]) -> Front<'a>
        ensures { front_shown result ≡ other_front name.now }
    {
        Front {
            slot: name,
            suffix: b"",
            asks: b"",
        }
    }
}

/// Writes a row of a provider by its UUID and its name, with what is lacking, and of what.
pub(super) fn write_fields<'a>(
    rows: &mut Writer<Vec<u8>>,
    front: Front<'a>,
    provider: &'a [u8],
    name: &'a [u8],
    lacks: &'a [u8],
    detail: &'a [u8],
) -> Result<(), NoMemory>
    ensures { IfOk result (λ _. (before : List (List (List ℕ))) → HasRows rows.old before
        → HasRows rows.new (before ++ why_fields (front_shown front.entry) provider.now name.now
        lacks.now detail.now ∷ [])) }
{
    write_row(
        rows,
        &[
            front.slot,
            front.suffix,
            front.asks,
            provider,
            name,
            lacks,
            detail,
        ],
    )
}

/// Writes a row of a provider, with what it lacks, and of what.
pub(super) fn write_provider<'a>(
    alloc: Global,
    rows: &mut Writer<Vec<u8>>,
    cloud: &Cloud,
    ix: u32,
    front: Front<'a>,
    lacks: &'a [u8],
    detail: &'a [u8],
) -> Result<(), NoMemory>
    requires { ix < length (providers_of cloud.now) }
    ensures { IfOk result (λ _. (before : List (List (List ℕ))) → HasRows rows.old before
        → HasRows rows.new (before ++ provider_fields (front_shown front.entry)
        (providers_of cloud.now) ix lacks.now detail.now ∷ [])) }
{
    let name = shown_name(alloc, cloud.name(ix))?;
    write_fields(rows, front, &cloud.id(ix).text(), &name, lacks, detail)
}
