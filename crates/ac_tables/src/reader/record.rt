//! What the reader of all tables asks of a table: its columns, and what a record says alone.
ghost use Rattle.std.specs.Prelude.{◌≡◌, ◌<◌, ◌&&◌, ℕ, Bool, List, Option, None, IfOk, IfErr};
ghost use Rattle.ac_tables.specs.declared.fault.Table.{Table};
ghost use Rattle.csv.specs.Records.{fields_of};
ghost use Rattle.std.specs.Ordering.{nat_cmp, ordering_then, is_eq};
ghost use Rattle.ac_tables.specs.Reader.TableRows.{IsKeyed};
ghost use Rattle.ac_tables.specs.Tables.Checks.{Row, Check, first_failing, TellsKind};

use crate::fault::{RecordFault, Table};
use ac_base::Names;
use ac_cloud::Expected;
use csv::ByteRecord;
use std::alloc::Global;

// What was seen of a table so far, to guess by.
#[derive(Drop)]
pub(crate) struct Seen {
    pub(crate) names: Names,
    pub(crate) expected: Expected,
}

// A table's record.
pub(crate) trait Record {
    // What a record is read beside, as the ids of all providers.
    type Beside;

    // Where its columns stand.
    type Columns: Copy;

    // What tells rows of one provider apart.
    type Key: Ord + Drop;

    // What else a row says.
    type Value: Drop;

    const TABLE: Table;

    ghost TABLE: { Table };

    // Whether no two records may have one key.
    const UNIQUE: bool;

    ghost UNIQUE: { Bool };

    // The most records, where their number has a limit.
    const MOST: Option<usize>;

    ghost MOST: { Option ℕ };

    // what a record says
    ghost Said: { Type 0 };

    ghost says: { Row → Row → Said };

    // all checks of a record, beside what is said before it
    ghost checks: { Self.Beside → Row → List Said → Row → List Check };

    // those that no other record has a part in
    ghost alone: { Self.Beside → Row → Row → List Check };

    // what is said has this key
    ghost same: { Said → Said → Bool };

    // how many providers there are
    ghost count: { Self.Beside → ℕ };

    // what a row shows
    ghost shown: { Self.Beside → ℕ → Self.Key → Self.Value → Said };

    ghost places: { Row → Self.Columns };

    fn columns(header: &ByteRecord) -> Self::Columns
        ensures { result ≡ places (fields_of header.now) };

    // What a record says, or the first fault that it has alone.
    fn read(
        alloc: Global,
        seen: &mut Seen,
        beside: &Self::Beside,
        header: &ByteRecord,
        columns: Self::Columns,
        row: &ByteRecord,
    ) -> Result<(u32, Self::Key, Self::Value), RecordFault>
        requires { columns ≡ places (fields_of header.now) }
        ensures ok { IfOk result (λ _.
            first_failing (alone beside.now (fields_of header.now) (fields_of row.now)) ≡ None) }
        ensures inside { IfOk result (λ v. v.0 < count beside.now) }
        ensures value { IfOk result (λ v. shown beside.now v.0 v.1 v.2
            ≡ says (fields_of header.now) (fields_of row.now)) }
        ensures fault { IfErr result (λ e.
            TellsKind (first_failing (alone beside.now (fields_of header.now) (fields_of row.now)))
            e) };

    ghost keyed: { (beside : Self.Beside) (header : Row) → IsKeyed MOST (says header) (checks beside header) (alone beside header) same };

    ghost apart: { (beside : Self.Beside) (p q : ℕ) (k l : Self.Key) (x y : Self.Value) → p < count beside → q < count beside → same (shown beside q l y) (shown beside p k x) ≡ (UNIQUE && is_eq (ordering_then (nat_cmp p q) (Self.Key.cmp k l))) };
}
