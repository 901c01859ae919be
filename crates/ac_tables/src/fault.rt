//! The tables and what can be wrong with them.
ghost use Rattle.std.specs.Prelude.{◌≡◌};
ghost use Rattle.ac_tables.specs.Tables.Checks.{fault_at};
ghost use Rattle.ac_tables.specs.Tables.Names.{kind_name, table_name};

use ac_base::NoMemory;
use std::alloc::{AllocError, AllocFailed};

/// A table, in the order in which the tables are read and checked.
#[derive(Clone, Copy, Debug, PartialEq, Eq)]
pub enum Table {
    /// The resource providers and their trees.
    Providers,
    /// What each provider has of each resource class.
    Inventories,
    /// How much of it is used.
    Usages,
    /// The traits of each provider.
    Traits,
    /// The aggregates of each provider.
    Aggregates,
}

impl Table {
    /// The name of the table, as it is printed.
    #[tactic(auto, unfolding(crate::specs::Tables::Names::table_name))]
    pub fn name(self) -> &'static str
        ensures { result.now ≡ table_name self }
    {
        match self {
            Table::Providers => "providers",
            Table::Inventories => "inventories",
            Table::Usages => "usages",
            Table::Traits => "traits",
            Table::Aggregates => "aggregates",
        }
    }
}

/// What is wrong with a table.
#[derive(Clone, Copy, Debug, PartialEq, Eq)]
pub enum TableKind {
    /// The table has no record.
    NoHeader,
    /// A needed column isn't in the header.
    MissingColumn,
    /// A needed column is in the header twice.
    DoubleColumn,
    /// A record has another number of fields than the header.
    Width,
    /// A field that must be a UUID isn't.
    BadUuid,
    /// A field isn't the name of a resource class.
    BadClass,
    /// A field isn't the name of a trait.
    BadTrait,
    /// A field isn't 1 to 10 digits of a value of at most 2147483647.
    BadNumber,
    /// A field isn't an allocation ratio.
    BadRatio,
    /// `step_size` is 0.
    ZeroStep,
    /// `reserved` is greater than `total`.
    ReservedOverTotal,
    /// The provider, or the pair of provider and class, stands in an earlier record.
    Duplicate,
    /// The provider isn't in the table of providers.
    UnknownProvider,
    /// A usage of a class of which the provider has no inventory.
    NoInventory,
    /// There are more than 65536 providers.
    TooManyProviders,
    /// A parent isn't in the table of providers.
    UnknownParent,
    /// The chain of parents of a provider doesn't end.
    ParentCycle,
    /// The root that a record names isn't the top of the provider's tree.
    WrongRoot,
}

impl TableKind {
    /// The name of the fault, as it is printed.
    #[tactic(auto, unfolding(crate::specs::Tables::Names::kind_name))]
    pub fn name(self) -> &'static str
        ensures { result.now ≡ kind_name self }
    {
        match self {
            TableKind::NoHeader => "NoHeader",
            TableKind::MissingColumn => "MissingColumn",
            TableKind::DoubleColumn => "DoubleColumn",
            TableKind::Width => "Width",
            TableKind::BadUuid => "BadUuid",
            TableKind::BadClass => "BadClass",
            TableKind::BadTrait => "BadTrait",
            TableKind::BadNumber => "BadNumber",
            TableKind::BadRatio => "BadRatio",
            TableKind::ZeroStep => "ZeroStep",
            TableKind::ReservedOverTotal => "ReservedOverTotal",
            TableKind::Duplicate => "Duplicate",
            TableKind::UnknownProvider => "UnknownProvider",
            TableKind::NoInventory => "NoInventory",
            TableKind::TooManyProviders => "TooManyProviders",
            TableKind::UnknownParent => "UnknownParent",
            TableKind::ParentCycle => "ParentCycle",
            TableKind::WrongRoot => "WrongRoot",
        }
    }
}

/// The first fault of the tables, or a refused growth.
#[derive(Clone, Copy, Debug, PartialEq, Eq)]
pub enum TableFault {
    /// Records are numbered from 1, the header is the first.
    At {
        table: Table,
        row: u32,
        kind: TableKind,
    },
    /// A growth was refused; it says nothing of the tables.
    NoMemory,
}

impl From<NoMemory> for TableFault {
    ghost use Rattle.ac_tables.specs.declared.fault.TableFault.TheVariants.{NoMemory as refused};

    ghost from_gives = { λ _ fault. fault ≡ refused };

    fn from(_error: NoMemory) -> TableFault {
        TableFault::NoMemory
    }
}

impl From<AllocError> for TableFault {
    ghost use Rattle.ac_tables.specs.declared.fault.TableFault.TheVariants.{NoMemory as refused};

    ghost from_gives = { λ _ fault. fault ≡ refused };

    fn from(_error: AllocError) -> TableFault {
        TableFault::NoMemory
    }
}

impl<T: Drop> From<AllocFailed<T>> for TableFault {
    ghost use Rattle.ac_tables.specs.declared.fault.TableFault.TheVariants.{NoMemory as refused};

    ghost from_gives = { λ _ fault. fault ≡ refused };

    fn from(_error: AllocFailed<T>) -> TableFault {
        TableFault::NoMemory
    }
}

// The fault of a record, before its table and number are told, or a refused growth.
#[derive(Clone, Copy, Debug, PartialEq, Eq)]
pub(crate) enum RecordFault {
    Kind(TableKind),
    NoMemory,
}

impl From<TableKind> for RecordFault {
    ghost use Rattle.ac_tables.specs.declared.fault.RecordFault.TheVariants.{Kind as of_kind};

    ghost from_gives = { λ kind fault. fault ≡ of_kind kind };

    fn from(kind: TableKind) -> RecordFault {
        RecordFault::Kind(kind)
    }
}

impl From<NoMemory> for RecordFault {
    ghost use Rattle.ac_tables.specs.declared.fault.RecordFault.TheVariants.{NoMemory as refused};

    ghost from_gives = { λ _ fault. fault ≡ refused };

    fn from(_error: NoMemory) -> RecordFault {
        RecordFault::NoMemory
    }
}

impl From<AllocError> for RecordFault {
    ghost use Rattle.ac_tables.specs.declared.fault.RecordFault.TheVariants.{NoMemory as refused};

    ghost from_gives = { λ _ fault. fault ≡ refused };

    fn from(_error: AllocError) -> RecordFault {
        RecordFault::NoMemory
    }
}

// The fault of a record, told with its table and number, or a refused growth.
pub(crate) fn fault_at(table: Table, row: u32, fault: RecordFault) -> TableFault
    ensures { result ≡ fault_at table row fault }
{
    match fault {
        RecordFault::Kind(kind) => TableFault::At { table, row, kind },
        RecordFault::NoMemory => TableFault::NoMemory,
    }
}
