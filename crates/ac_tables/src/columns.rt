//! The columns of the tables.
ghost use Rattle.std.specs.Prelude.{◌≡◌};
ghost use Rattle.ac_tables.specs.Tables.Names.{columns_needed, name_of};

use crate::fault::Table;

/// A column that some table has.
#[derive(Clone, Copy, Debug, PartialEq, Eq)]
pub enum Column {
    /// A provider's own UUID, or that of an aggregate.
    Uuid,
    /// The root of a provider's tree.
    Root,
    /// A provider's parent.
    Parent,
    /// The provider to which a record belongs.
    Owner,
    /// A resource class.
    Class,
    /// A provider's name, which may be left out, or that of a trait.
    Name,
    /// The numbers of an inventory.
    Total,
    Reserved,
    MinUnit,
    MaxUnit,
    StepSize,
    Ratio,
    /// How much is used.
    Usage,
    /// The name of a flavor.
    Flavor,
    /// What a flavor asks for.
    Query,
    /// How many of a flavor are wanted, which may be left out.
    Wanted,
}

impl Column {
    /// The name that the header has for it.
    #[tactic(auto, unfolding(crate::specs::Tables::Names::name_of))]
    pub fn name(self) -> &'static [u8]
        ensures { result.now ≡ name_of self }
    {
        match self {
            Column::Uuid => b"uuid",
            Column::Root => b"root_provider_uuid",
            Column::Parent => b"parent_provider_uuid",
            Column::Owner => b"resource_provider",
            Column::Class => b"resource_class",
            Column::Name => b"name",
            Column::Total => b"total",
            Column::Reserved => b"reserved",
            Column::MinUnit => b"min_unit",
            Column::MaxUnit => b"max_unit",
            Column::StepSize => b"step_size",
            Column::Ratio => b"allocation_ratio",
            Column::Usage => b"usage",
            Column::Flavor => b"flavor",
            Column::Query => b"query",
            Column::Wanted => b"wanted",
        }
    }
}

/// The columns that a table needs, in the order in which they are checked.
#[tactic(auto, unfolding(crate::specs::Tables::Names::columns_needed))]
pub fn columns_needed(table: Table) -> &'static [Column]
    ensures { result.now ≡ columns_needed table }
{
    match table {
        Table::Providers => &[Column::Uuid, Column::Root, Column::Parent],
        Table::Inventories => &[
            Column::Owner,
            Column::Class,
            Column::Total,
            Column::Reserved,
            Column::MinUnit,
            Column::MaxUnit,
            Column::StepSize,
            Column::Ratio,
        ],
        Table::Usages => &[Column::Owner, Column::Class, Column::Usage],
        Table::Traits => &[Column::Owner, Column::Name],
        Table::Aggregates => &[Column::Owner, Column::Uuid],
    }
}
