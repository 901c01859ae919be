//! The bytes of the five tables.
ghost use Rattle.std.specs.Prelude.{◌≡◌, ◌≤◌, IfOk, IfErr, length, None};
ghost use Rattle.std.specs.Option.{option_map};
ghost use Rattle.ac_base.specs.Devices.{Rises};
ghost use Rattle.ac_tables.specs.Drain.{AllBytes, AreTooMany, most_bytes};
ghost use Rattle.ac_run.specs.Feeds.{Bytes, TellBytes, RisesIn, too_large};
ghost use Rattle.ac_run.specs.Feeds.Draining.{AreTooManyThere, ExplainsDraining, ExplainsReading, GaveAll, texts_shown};

use crate::refusal::TablesRefusal;
use ac_base::Feed;
use ac_tables::{FiveTables, ReadFault, Table, drain};
use std::alloc::Global;

/// The feeds of the tables.
pub type Inputs<R> = FiveTables<R>;

/// The bytes of the tables.
pub type Texts = FiveTables<Vec<u8>>;

// The bytes of a table's feed.
fn drain_table<R: Feed>(alloc: Global, table: Table, feed: &mut R) -> Result<Vec<u8>, TablesRefusal>
    ensures bytes { IfOk result (λ bytes. AllBytes (R.remaining feed.old) bytes.items) }
    ensures few { IfOk result (λ bytes. length bytes.items ≤ most_bytes) }
    ensures fault { IfErr result (ExplainsDraining
        (Rises (R.failures feed.old) (R.failures feed.new))
        (AreTooMany (R.remaining feed.old)) table) }
{
    match drain(alloc, feed) {
        Ok(bytes) => Ok(bytes),
        Err(ReadFault::Unreadable) => Err(TablesRefusal::Unreadable(table)),
        Err(ReadFault::TooLarge) => Err(TablesRefusal::TooLarge(table)),
        Err(ReadFault::NoMemory) => Err(TablesRefusal::NoMemory),
    }
}

// The bytes of a table that may not be there.
fn drain_some<R: Feed>(
    alloc: Global,
    table: Table,
    feed: &mut Option<R>,
) -> Result<Option<Vec<u8>>, TablesRefusal>
    ensures bytes { IfOk result (λ bytes.
        GaveAll (option_map R.remaining feed.old) (option_map (λ v. v.items) bytes)) }
    ensures fault { IfErr result (ExplainsDraining (RisesIn R.failures feed.old feed.new)
        (AreTooManyThere (option_map R.remaining feed.old)) table) }
{
    match feed {
        None => Ok(None),
        Some(feed) => Ok(Some(drain_table(alloc, table, feed)?)),
    }
}

/// Reads all tables to their ends, in their order.
pub fn read_tables<R: Feed>(alloc: Global, inputs: &mut Inputs<R>) -> Result<Texts, TablesRefusal>
    ensures bytes { IfOk result (λ texts. (b : Bytes) → TellBytes R.remaining inputs.old b
        → texts_shown texts ≡ b) }
    ensures few { IfOk result (λ texts. too_large (texts_shown texts) ≡ None) }
    ensures fault { IfErr result (ExplainsReading R.remaining R.failures inputs.old inputs.new) }
{
    Ok(Texts {
        providers: drain_table(alloc, Table::Providers, &mut inputs.providers)?,
        inventories: drain_table(alloc, Table::Inventories, &mut inputs.inventories)?,
        usages: drain_some(alloc, Table::Usages, &mut inputs.usages)?,
        traits: drain_some(alloc, Table::Traits, &mut inputs.traits)?,
        aggregates: drain_some(alloc, Table::Aggregates, &mut inputs.aggregates)?,
    })
}
