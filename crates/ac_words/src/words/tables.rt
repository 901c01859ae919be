//! How the tables are named: by the option of each, or by one folder.
ghost use Rattle.std.specs.Prelude.{◌≡◌, ◌∷◌, IfErr, IfOk, OnOk, Some, [], option_map, string_bytes};
ghost use Rattle.std.specs.List.{list_any};
ghost use Rattle.clap.specs.Words.{found_of, rows_of};
ghost use Rattle.ac_words.specs.Words.{Tells, aggregate_names_of, all_tables, has_option, has_tables, needed_kinds, needed_paths, no_paths, option_of, path_in, paths_in, paths_kept, paths_of, paths_said, table_kinds};
ghost use Rattle.clap.specs.declared.error.kind.ErrorKind.TheVariants.{ArgumentConflict, MissingRequiredArgument};

use super::WordFault;
use super::entries::{entry, refusal};
use crate::name::Name;
use ac_tables::{FiveTables, Table};
use clap::ArgMatches;
use clap::error::ErrorKind;
use std::alloc::{AllocError, Global};

const ALL_TABLES: [Table; 5] = [
    Table::Providers,
    Table::Inventories,
    Table::Usages,
    Table::Traits,
    Table::Aggregates,
];

// What the option of a table says, where it is given.
fn option_of<'a>(entries: &ArgMatches<'a>, table: Table) -> Option<&'a str>
    ensures { option_map (λ text. text.now) result
        ≡ option_of (rows_of (found_of entries.now)) table }
{
    entry(entries, table.name())
}

// Whether the option of a table is given.
fn has_option(entries: &ArgMatches<'_>, table: Table) -> bool
    ensures { result ≡ has_option (rows_of (found_of entries.now)) table }
{
    option_of(entries, table).is_some()
}

// Whether the option of some table is given.
fn has_some_option(entries: &ArgMatches<'_>) -> bool
    ensures { result ≡ list_any (has_option (rows_of (found_of entries.now))) all_tables }
{
    ALL_TABLES.iter().any(|table| has_option(entries, *table))
}

// The options of these tables that are given, or that aren't: a line for each.
fn option_lines(
    alloc: Global,
    entries: &ArgMatches<'_>,
    tables: &[Table],
    given: bool,
) -> Result<String, AllocError> {
    let mut lines = String::new(alloc);
    for table in tables {
        if has_option(entries, *table) == given {
            let name = table.name();
            write!(lines, "\n  --{name} <FILE>")?;
        }
    }
    Ok(lines)
}

// What the user is told of options beside the folder.
fn options_beside_the_folder(
    alloc: Global,
    name: Name,
    entries: &ArgMatches<'_>,
) -> Result<WordFault, AllocError>
    ensures { IfOk result (Tells (ArgumentConflict ∷ [])) }
{
    let beside = option_lines(alloc, entries, &ALL_TABLES, true)?;
    let message = format!(in alloc; "the argument '--tables <DIR>' cannot be used with:{beside}")?;
    refusal(alloc, name, ErrorKind::ArgumentConflict, message.as_str())
}

// What the user is told of needed options that are missing: the folder, where no table is named.
fn missing_options(
    alloc: Global,
    name: Name,
    entries: &ArgMatches<'_>,
) -> Result<WordFault, AllocError>
    ensures { IfOk result (Tells (MissingRequiredArgument ∷ [])) }
{
    let needed = [Table::Providers, Table::Inventories];
    let missing = if has_some_option(entries) {
        option_lines(alloc, entries, &needed, false)?
    } else {
        String::from_str(alloc, "\n  --tables <DIR>")?
    };
    let message = format!(in alloc;
        "the following required arguments were not provided:{missing}"
    )?;
    refusal(
        alloc,
        name,
        ErrorKind::MissingRequiredArgument,
        message.as_str(),
    )
}

// The path of a table's file in the folder.
fn path_in(alloc: Global, folder: &str, table: Table) -> Result<String, AllocError>
    ensures { IfOk result (λ path. string_bytes path ≡ path_in folder.now table) }
{
    let name = table.name();
    Ok(format!(in alloc; "{folder}/{name}.csv")?)
}

/// The path of the table of names of aggregates, where a folder is given.
pub(super) fn aggregate_names(
    alloc: Global,
    entries: &ArgMatches<'_>,
) -> Result<Option<String>, AllocError>
    ensures { IfOk result (λ path. option_map string_bytes path
        ≡ aggregate_names_of (rows_of (found_of entries.now))) }
{
    match entry(entries, "tables") {
        Some(folder) => Ok(Some(format!(in alloc; "{folder}/aggregate-names.csv")?)),
        None => Ok(None),
    }
}

// The paths of all five.
fn paths_in(alloc: Global, folder: &str) -> Result<FiveTables<String>, AllocError>
    ensures { IfOk result (λ paths. paths_kept paths ≡ paths_in folder.now) }
{
    Ok(FiveTables {
        providers: path_in(alloc, folder, Table::Providers)?,
        inventories: path_in(alloc, folder, Table::Inventories)?,
        usages: Some(path_in(alloc, folder, Table::Usages)?),
        traits: Some(path_in(alloc, folder, Table::Traits)?),
        aggregates: Some(path_in(alloc, folder, Table::Aggregates)?),
    })
}

// A copy of what the option of a table says, where it is given.
fn copied_option(
    alloc: Global,
    entries: &ArgMatches<'_>,
    table: Table,
) -> Result<Option<String>, AllocError>
    ensures { IfOk result (λ copy. option_map string_bytes copy
        ≡ option_of (rows_of (found_of entries.now)) table) }
{
    match option_of(entries, table) {
        Some(text) => Ok(Some(String::from_str(alloc, text)?)),
        None => Ok(None),
    }
}

// The paths that the options say, with these two.
fn paths_said(
    alloc: Global,
    entries: &ArgMatches<'_>,
    providers: &str,
    inventories: &str,
) -> Result<FiveTables<String>, AllocError>
    ensures { IfOk result (λ paths. paths_kept paths
        ≡ paths_said (rows_of (found_of entries.now)) providers.now inventories.now) }
{
    Ok(FiveTables {
        providers: String::from_str(alloc, providers)?,
        inventories: String::from_str(alloc, inventories)?,
        usages: copied_option(alloc, entries, Table::Usages)?,
        traits: copied_option(alloc, entries, Table::Traits)?,
        aggregates: copied_option(alloc, entries, Table::Aggregates)?,
    })
}

// The paths of the tables, where they are named as they should be: by their folder alone, or by options of which two are needed.
fn paths(
    alloc: Global,
    name: Name,
    entries: &ArgMatches<'_>,
) -> Result<FiveTables<String>, WordFault>
    ensures paths { IfOk result (λ paths. paths_of (rows_of (found_of entries.now))
        ≡ Some (paths_kept paths)) }
    ensures ok { OnOk result (table_kinds (rows_of (found_of entries.now)) ≡ []) }
    ensures fault { IfErr result (Tells (table_kinds (rows_of (found_of entries.now)))) }
{
    if let Some(folder) = entry(entries, "tables") {
        if has_some_option(entries) {
            return Err(options_beside_the_folder(alloc, name, entries)?);
        }
        return Ok(paths_in(alloc, folder)?);
    }
    let providers = option_of(entries, Table::Providers);
    let inventories = option_of(entries, Table::Inventories);
    match (providers, inventories) {
        (Some(providers), Some(inventories)) => {
            Ok(paths_said(alloc, entries, providers, inventories)?)
        }
        _ => Err(missing_options(alloc, name, entries)?),
    }
}

// No paths.
fn no_paths(alloc: Global) -> FiveTables<String>
    ensures { paths_kept result ≡ no_paths }
{
    FiveTables {
        providers: String::new(alloc),
        inventories: String::new(alloc),
        usages: None,
        traits: None,
        aggregates: None,
    }
}

// Whether a command is about tables.
fn has_tables(name: Name) -> bool
    ensures { result ≡ has_tables name }
{
    !matches!(name, Name::Query)
}

// The paths of the tables, where a command is about some.
pub(super) fn needed_paths(
    alloc: Global,
    name: Name,
    entries: &ArgMatches<'_>,
) -> Result<FiveTables<String>, WordFault>
    ensures paths { IfOk result (λ paths. needed_paths name (rows_of (found_of entries.now))
        ≡ Some (paths_kept paths)) }
    ensures ok { OnOk result (needed_kinds name (rows_of (found_of entries.now)) ≡ []) }
    ensures fault { IfErr result (Tells (needed_kinds name (rows_of (found_of entries.now)))) }
{
    if has_tables(name) {
        paths(alloc, name, entries)
    } else {
        Ok(no_paths(alloc))
    }
}
