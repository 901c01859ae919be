//! A token by names, as it is read.
ghost use Rattle.std.specs.Prelude.{◌≡◌, IfErr, IfOk, Ok, string_bytes};
ghost use Rattle.csv.specs.Records.{fields_of};
ghost use Rattle.ac_report.specs.Called.{AreCalled, Called};
ghost use Rattle.ac_run.specs.Wanted.Named.{TellsName, ids_each, token_with_ids};

use super::LookupFault;
use ac_base::Id;
use ac_query::write_ids;
use ac_report::Names;
use ac_tables::{next_row, open_rows};
use csv::ByteRecord;
use std::alloc::Global;

// The UUIDs of the fields of a record.
fn ids_of(alloc: Global, names: &Names<'_>, row: &ByteRecord) -> Result<Vec<Id>, LookupFault>
    ensures ids { IfOk result (λ ids. (called : Called) → AreCalled called names.now
        → ids_each called (fields_of row.now) ≡ Ok ids.items) }
    ensures fault { IfErr result (λ fault. (called : Called) → AreCalled called names.now
        → TellsName (ids_each called (fields_of row.now)) fault) }
{
    let mut ids = Vec::new(alloc);
    for field in row.iter() {
        match names.find(field) {
            Ok(id) => ids.push(id)?,
            Err(fault) => return Err(LookupFault::Name(fault)),
        }
    }
    Ok(ids)
}

/// A token with UUIDs in place of names. A text that is no one record of comma-separated values stays as it is.
#[tactic(auto, using(crate::proofs::EachFound::tells_mapped), unfolding(crate::specs::Wanted::Named::token_with_ids))]
pub fn token_with_ids(alloc: Global, names: &Names<'_>, text: &str) -> Result<String, LookupFault>
    ensures text { IfOk result (λ token. (called : Called) → AreCalled called names.now
        → token_with_ids called text.now ≡ Ok (string_bytes token)) }
    ensures fault { IfErr result (λ fault. (called : Called) → AreCalled called names.now
        → TellsName (token_with_ids called text.now) fault) }
{
    let mut reader = open_rows(alloc, text.as_bytes());
    let mut row = ByteRecord::new(alloc);
    if !next_row(&mut reader, &mut row)? {
        return Ok(String::from_str(alloc, text)?);
    }
    let mut more = ByteRecord::new(alloc);
    if next_row(&mut reader, &mut more)? {
        return Ok(String::from_str(alloc, text)?);
    }
    match ids_of(alloc, names, &row) {
        Ok(ids) => Ok(write_ids(alloc, &ids)?),
        Err(fault) => Err(fault),
    }
}
