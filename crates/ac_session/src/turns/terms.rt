//! How lines are read and answered, and what names stand for in them.
ghost use Rattle.std.specs.Prelude.{◌≡◌, IfErr, IfOk, IfSome, OnOk, None, is_some, map, option_map};
ghost use Rattle.std.specs.Option.{option_and_then};
ghost use Rattle.ac_cloud.specs.Cloud.CloudWorld.{providers_of, world_of};
ghost use Rattle.ac_cloud.specs.World.{World};
ghost use Rattle.ac_report.specs.Called.{AreCalled, providers_called};
ghost use Rattle.ac_run.specs.Naming.{ExplainsNames, names_refused, naming_in};
ghost use Rattle.ac_run.specs.Tasks.{changes_shown};
ghost use Rattle.ac_run.specs.Wanted.Named.{AreNamed};
ghost use Rattle.ac_session.specs.Turns.Named.{IsDirectory, Knows, KnowsNames, are_named, table_in, terms_of};
ghost use Rattle.ac_tables.specs.Called.{called_shown};

use ac_base::NoMemory;
use ac_query::Version;
use ac_report::Names;
use ac_run::{NamesRefusal, Naming, read_names};
use ac_tables::{Called, Cloud};
use std::alloc::Global;

/// What names stand for, and the table of those of aggregates.
#[derive(Drop)]
pub(crate) struct ByNames<'a> {
    table: &'a [u8],
    naming: Naming<'a>,
}

/// By which version queries are read, how many tries each search may make, and what names stand for where they stand in place of UUIDs.
#[derive(Clone, Copy)]
pub(crate) struct Terms<'a, 'b> {
    pub(crate) version: Version,
    pub(crate) tries: Option<u64>,
    pub(crate) names: Option<&'a ByNames<'b>>,
}

impl<'a> ByNames<'a> {
    /// What names stand for.
    pub(super) fn naming(&self) -> &Naming<'a>
        ensures { (world : World) → KnowsNames world self.now
            → AreNamed (naming_in world self.now.table.now) result.now }
    {
        &self.naming
    }
}

impl<'a, 'b> Terms<'a, 'b> {
    /// The table of names of aggregates, where names stand in place of UUIDs.
    pub(super) fn table(&self) -> Option<&'b [u8]>
        ensures { changes_shown result ≡ (terms_of self.now).names }
    {
        match self.names {
            Some(names) => Some(names.table),
            None => None,
        }
    }

    /// What names of providers stand for, where they stand in place of UUIDs.
    pub(super) fn providers(&self) -> Option<&'a Names<'b>>
        ensures named { is_some result ≡ are_named (terms_of self.now) }
        ensures known { (world : World) → Knows self.now world → IfSome result (λ names.
            AreCalled (providers_called world.providers) names.now) }
    {
        match self.names {
            Some(names) => Some(&names.naming.providers),
            None => None,
        }
    }
}

/// What has names, for as long as a session: its providers, and the aggregates of a table.
#[derive(Drop)]
pub(crate) struct Directory<'a> {
    table: &'a [u8],
    providers: Vec<Called>,
    aggregates: Vec<Called>,
}

// The providers of a cloud, with their names.
fn called_providers(alloc: Global, cloud: &Cloud) -> Result<Vec<Called>, NoMemory>
    ensures { IfOk result (λ called. map called_shown called.items
        ≡ providers_called (providers_of cloud.now)) }
{
    let mut called = Vec::new(alloc);
    for ix in 0..cloud.len() {
        let name = cloud.name(ix).to_vec(alloc)?;
        called.push(Called {
            id: cloud.id(ix),
            name,
        })?;
    }
    Ok(called)
}

impl<'a> Directory<'a> {
    /// What has names in a cloud, and in a table, where there is one.
    pub(crate) fn read(
        alloc: Global,
        table: Option<&'a [u8]>,
        cloud: &Cloud,
    ) -> Result<Option<Directory<'a>>, NamesRefusal>
        ensures fine { OnOk result
            (option_and_then names_refused (changes_shown table.entry) ≡ None) }
        ensures table { IfOk result (λ directory.
            table_in directory ≡ changes_shown table.entry) }
        ensures directory { IfOk result (IsDirectory (world_of cloud.now)) }
        ensures fault { IfErr result (ExplainsNames
            (option_and_then names_refused (changes_shown table.entry))) }
    {
        let Some(table) = table else {
            return Ok(None);
        };
        let aggregates = match read_names(alloc, table) {
            Ok(called) => called,
            Err(refusal) => return Err(refusal),
        };
        match called_providers(alloc, cloud) {
            Ok(providers) => Ok(Some(Directory {
                table,
                providers,
                aggregates,
            })),
            Err(NoMemory) => Err(NamesRefusal::NoMemory),
        }
    }
}

/// What names stand for by a directory, where there is one.
pub(crate) fn look_up<'a>(
    alloc: Global,
    directory: &'a Option<Directory<'a>>,
) -> Result<Option<ByNames<'a>>, NoMemory>
    ensures known { IfOk result (λ names. (world : World) → IsDirectory world directory.now
        → IfSome names (KnowsNames world)) }
    ensures table { IfOk result (λ names.
        option_map (λ n. n.table.now) names ≡ table_in directory.now) }
{
    let Some(directory) = directory else {
        return Ok(None);
    };
    let naming = Naming::of(alloc, &directory.providers, &directory.aggregates)?;
    Ok(Some(ByNames {
        table: directory.table,
        naming,
    }))
}
