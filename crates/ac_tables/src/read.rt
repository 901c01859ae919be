//! Reading the tables of a cloud.
ghost use Rattle.std.specs.Prelude.{◌≡◌, None, IfOk, IfErr};
ghost use Rattle.std.specs.Option.{option_map};
ghost use Rattle.ac_tables.specs.FiveTables.{IsMapped};
ghost use Rattle.ac_tables.specs.Tables.Checks.{Tells};
ghost use Rattle.ac_tables.specs.Tables.{tables_fault, world_stated};

use crate::fault::{Table, TableFault};
use crate::tables::aggregates::read_aggregates;
use crate::tables::entries::join;
use crate::tables::inventories::Inventories;
use crate::tables::providers::{Providers, read_providers};
use crate::tables::traits::read_traits;
use crate::tables::usages::read_usages;
use ac_cloud::cloud::build::Parts;
use ac_cloud::{Cloud, Counts};
use std::alloc::Global;

/// The five tables, each as a `T`, of which three may not be there.
#[derive(Drop)]
pub struct FiveTables<T> {
    pub providers: T,
    pub inventories: T,
    pub usages: Option<T>,
    pub traits: Option<T>,
    pub aggregates: Option<T>,
}

// What a function gives of what stands for a table, where it is there.
fn map_one<T, U, F: Fn(T) -> U>(one: Option<T>, f: &F) -> Option<U>
    requires { F.IsAlwaysCallable f.now }
    ensures { IsMapped (F.post f.now) one result }
{
    match one {
        Some(one) => Some(f(one)),
        None => None,
    }
}

impl<T> FiveTables<T> {
    ghost use Rattle.ac_tables.specs.FiveTables.{AreMapped, table_in};

    /// What stands for a table, where it is there.
    pub fn get(&self, table: Table) -> Option<&T>
        ensures { option_map (λ one. one.now) result ≡ table_in self.now table }
    {
        match table {
            Table::Providers => Some(&self.providers),
            Table::Inventories => Some(&self.inventories),
            Table::Usages => self.usages.as_ref(),
            Table::Traits => self.traits.as_ref(),
            Table::Aggregates => self.aggregates.as_ref(),
        }
    }

    /// A reference to what stands for each table.
    pub fn as_ref(&self) -> FiveTables<&T>
        ensures { AreMapped (λ one shown. shown.now ≡ one) self.now result }
    {
        FiveTables {
            providers: &self.providers,
            inventories: &self.inventories,
            usages: self.usages.as_ref(),
            traits: self.traits.as_ref(),
            aggregates: self.aggregates.as_ref(),
        }
    }

    /// What a function gives of what stands for each table.
    pub fn map<U, F: Fn(T) -> U>(self, f: F) -> FiveTables<U>
        requires { F.IsAlwaysCallable f }
        ensures { AreMapped (F.post f) self result }
    {
        let FiveTables {
            providers,
            inventories,
            usages,
            traits,
            aggregates,
        } = self;
        FiveTables {
            providers: f(providers),
            inventories: f(inventories),
            usages: map_one(usages, &f),
            traits: map_one(traits, &f),
            aggregates: map_one(aggregates, &f),
        }
    }
}

/// The texts of the tables. A table that isn't there is its header alone.
pub type Sources<'a> = FiveTables<&'a [u8]>;

/// What is read from tables: `Cloud::read`.
pub trait FromTables: Sized {
    ghost use Rattle.ac_tables.specs.Source.{AreFew};

    /// Reads the tables, each of at most 67108864 bytes.
    fn read(alloc: Global, src: &Sources) -> Result<Self, TableFault>
        requires { AreFew src.now };
}

impl FromTables for Cloud {
    ghost use Rattle.ac_cloud.specs.Cloud.CloudWorld.{world_of};
    ghost use Rattle.ac_tables.specs.Source.{tables_of, AreFew};

    /// Reads the tables, each of at most 67108864 bytes.
    ///
    /// The fault is the first in the order of the tables and their checks. Where a growth is refused, a fault that stands
    /// before it is told instead. The growths that are needed to find a fault of the trees stand before that fault.
    #[tactic(auto, unfolding(crate::specs::Tables::tables_fault, crate::specs::Tables::ProviderTable::providers_fault, crate::specs::Tables::InventoryTable::inventories_fault, crate::specs::Tables::UsageTable::usages_fault, crate::specs::Tables::TraitTable::traits_fault, crate::specs::Tables::AggregateTable::aggregates_fault), using(crate::proofs::Records::ProviderFaults::reading, ac_cloud::proofs::ListFacts::of_lists, crate::proofs::Sorted::RiseFacts::rising_lists))]
    fn read(alloc: Global, src: &Sources) -> Result<Cloud, TableFault>
        requires { AreFew src.now }
        ensures world { IfOk result (λ cloud. world_of cloud ≡ world_stated (tables_of src.now)) }
        ensures ok { IfOk result (λ _. tables_fault (tables_of src.now) ≡ None) }
        ensures fault { IfErr result (λ e. Tells (tables_fault (tables_of src.now)) e) }
    {
        let providers = read_providers(alloc, src.providers)?;
        let Providers {
            ids,
            parents,
            roots,
            names,
        } = providers;
        let inventories = Inventories::read(alloc, ids, src.inventories)?;
        let usages = read_usages(alloc, &inventories, src.usages)?;
        let traits = read_traits(alloc, &inventories.ids, src.traits)?;
        let aggregates = read_aggregates(alloc, &inventories.ids, src.aggregates)?;
        let counts = Counts {
            providers: inventories.ids.len() as u32,
            inventories: inventories.rows.count() as u32,
            usages: usages.count() as u32,
            traits: traits.count() as u32,
            aggregates: aggregates.count() as u32,
        };
        let Inventories { ids, rows } = inventories;
        let entries = join(alloc, &rows, &usages)?;
        let parts = Parts {
            ids,
            parents,
            roots,
            entries,
            traits,
            aggregates,
            names,
            counts,
        };
        Ok(Cloud::build(alloc, parts)?)
    }
}
