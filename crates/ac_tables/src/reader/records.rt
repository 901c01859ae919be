//! The records of a table, or of any text of comma-separated values, one by one.
ghost use Rattle.std.specs.Prelude.{◌≡◌, [], get_or, IfOk, true};
ghost use Rattle.csv.specs.Records.{fields_of};
ghost use Rattle.ac_tables.specs.Tables.Rows.{records_of, rows_left, IsReading, Gives};

use ac_base::NoMemory;
use csv::{ByteRecord, Reader, ReaderBuilder};
use std::alloc::Global;

/// A reader of the records of a text: the default dialect, without a header, each record of any width.
#[tactic(auto, using(crate::proofs::Gathered::RowsLeft::rows_start))]
pub fn open_rows<'a>(alloc: Global, text: &'a [u8]) -> Reader<&'a [u8]>
    ensures reading { IsReading result }
    ensures left { rows_left result ≡ records_of text.now }
{
    let mut builder = ReaderBuilder::new();
    let flexible = builder.has_headers(false).flexible(true);
    flexible.from_reader(alloc, text)
}

/// The next record into `row`, and whether there was one. Over bytes in memory nothing but a refused growth fails.
#[tactic(auto, using(crate::proofs::Gathered::RowsLeft::gives_clause))]
pub fn next_row(reader: &mut Reader<&[u8]>, row: &mut ByteRecord) -> Result<bool, NoMemory>
    requires { IsReading reader.old }
    ensures gives { IfOk result (λ found.
        Gives (rows_left reader.old) found (fields_of row.new) (rows_left reader.new)) }
    ensures goes_on { IfOk result (λ found. found ≡ true → IsReading reader.new) }
{
    reader.read_byte_record(row).ok().ok_or(NoMemory)
}

/// A field, or the empty text where there is none.
#[tactic(auto, using(crate::proofs::Gathered::FieldTexts::text_some, crate::proofs::Gathered::FieldTexts::text_none))]
pub fn text_at(row: &ByteRecord, place: usize) -> &[u8]
    ensures { result.now ≡ get_or (fields_of row.now) place [] }
{
    match row.get(place) {
        Some(text) => text,
        None => b"",
    }
}
