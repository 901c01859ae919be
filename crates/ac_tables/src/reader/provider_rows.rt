//! The rows of a table, and where those of each provider stand among them.
ghost use Rattle.std.specs.Prelude.{◌≡◌, ◌≤◌, ◌<◌, ◌-◌, ◌==◌, IfOk, drop, length, take};
ghost use Rattle.std.specs.List.{filter, All};
ghost use Rattle.ac_tables.specs.Drain.{most_bytes};
ghost use Rattle.ac_tables.specs.Reader.TableRows.{AreSpans, IsGrouped};

use crate::reader::row::{TableRow, run_end};
use std::alloc::{AllocError, Global};

// Where rows stand: from one place up to another.
#[derive(Clone, Copy)]
pub(crate) struct Span {
    from: u32,
    end: u32,
}

// Rows of which those of each provider stand side by side, and where these are.
#[derive(Drop)]
pub(crate) struct ProviderRows<K, X> {
    pub(crate) rows: Vec<TableRow<K, X>>,
    spans: Vec<Span>,
    ghost spanned: { AreSpans rows.items spans.items },
}

// Where the rows of each provider stand.
fn find_spans<K, X>(
    alloc: Global,
    count: usize,
    rows: &[TableRow<K, X>],
) -> Result<Vec<Span>, AllocError>
    requires grouped { IsGrouped rows.now }
    requires inside { All (λ r. r.place < count) rows.now }
    requires few { length rows.now ≤ most_bytes }
    ensures count { IfOk result (λ spans. length spans.items ≡ count) }
    ensures spans { IfOk result (λ spans. AreSpans rows.now spans.items) }
{
    let mut spans = vec![in alloc; Span { from: 0, end: 0 }; count]?;
    let mut from = 0usize;
    'runs: while from < rows.len() {
        let end = run_end(rows, from);
        spans[rows[from].place as usize] = Span {
            from: from as u32,
            end: end as u32,
        };
        from = end;
    }
    Ok(spans)
}

// The rows that stand at a span.
fn rows_at<K, X>(rows: &[TableRow<K, X>], span: Span) -> &[TableRow<K, X>]
    requires order { span.from ≤ span.end }
    requires inside { span.end ≤ length rows.now }
    ensures { result.now ≡ take (span.end - span.from) (drop span.from rows.now) }
{
    &rows[span.from as usize..span.end as usize]
}

#[tactic(auto, using(crate::proofs::Gathered::OwnRows::own_size))]
impl<K, X> ProviderRows<K, X> {
    ghost use Rattle.ac_tables.specs.Reader.OwnRows.{own_rows};

    // How many providers there are.
    pub(crate) fn len(&self) -> usize
        ensures { result ≡ length (own_rows self.now) }
    {
        self.spans.len()
    }

    // How many rows there are.
    pub(crate) fn count(&self) -> usize
        ensures { result ≡ length self.now.rows.items }
    {
        self.rows.len()
    }

    // The rows of a provider.
    pub(crate) fn of(&self, place: usize) -> &[TableRow<K, X>]
        requires { place < length (own_rows self.now) }
        ensures { result.now ≡ filter (λ r. r.place == place) self.now.rows.items }
    {
        rows_at(&self.rows, self.spans[place])
    }
}

impl<K: Ord + Drop, X: Drop> ProviderRows<K, X> {
    ghost use Rattle.ac_tables.specs.Reader.OwnRows.{own_rows};
    ghost use Rattle.ac_tables.specs.Reader.TableRows.{IsInOrder};

    // The rows of each provider, by rows that are in order.
    pub(crate) fn new(
        alloc: Global,
        count: usize,
        rows: Vec<TableRow<K, X>>,
    ) -> Result<ProviderRows<K, X>, AllocError>
        requires sorted { IsInOrder K.cmp rows.items }
        requires inside { All (λ r. r.place < count) rows.items }
        requires few { length rows.items ≤ most_bytes }
        ensures rows { IfOk result (λ own. own.rows.items ≡ rows.items) }
        ensures count { IfOk result (λ own. length (own_rows own) ≡ count) }
    {
        let spans = find_spans(alloc, count, &rows)?;
        Ok(ProviderRows { rows, spans })
    }
}
