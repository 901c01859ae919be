//! Reading the table of providers: its ids, and its trees.
ghost use Rattle.std.specs.Prelude.{◌≡◌, ◌≤◌, ◌<◌, None, ℕ, get_or, length, map, IfOk, IfErr};
ghost use Rattle.std.specs.Option.{option_and_then};
ghost use Rattle.ac_tables.specs.Tables.Checks.{Tells};
ghost use Rattle.ac_tables.specs.Drain.{most_bytes};
ghost use Rattle.ac_tables.specs.Reader.Kin.{AreKin};
ghost use Rattle.ac_tables.specs.Reader.Listings.{IsListing};
ghost use Rattle.ac_cloud.specs.Cloud.Places.{parent_in, rank};
ghost use Rattle.ac_tables.specs.Tables.ProviderTable.{providers_said, provider_records_fault, said_name, said_parent, providers_fault};
ghost use Rattle.ac_tables.specs.Tables.Rows.{records_of};
ghost use Rattle.ac_tables.specs.Tables.{ids_of};
ghost use Rattle.ac_cloud.specs.ListsOf.{lists_of};
ghost use Rattle.ac_cloud.specs.Trees.{top};

use crate::fault::{TableFault, TableKind};
use crate::reader::gather::read_table;
use crate::reader::row::TableRow;
use crate::tables::id_order::{
    check_marks, find_ids, find_names, find_parents, mark_endless, mark_other_roots, mark_unknown,
};
use crate::tables::provider_record::{Named, ProviderTable};
use ac_base::Id;
use ac_cloud::cloud::roots::find_tops;
use ac_cloud::{Ids, Lists};
use std::alloc::Global;

// The rows of the providers of a text, before their parents are looked at.
#[tactic(auto, unfolding(crate::specs::Tables::ProviderTable::provider_records_fault), using(crate::proofs::Records::ProviderIds::said_fit))]
fn read_rows(alloc: Global, text: &[u8]) -> Result<Vec<TableRow<Id, Named>>, TableFault>
    requires { length text.now ≤ most_bytes }
    ensures rows { IfOk result (λ rows.
        IsListing (providers_said (records_of text.now)) rows.items) }
    ensures ok { IfOk result (λ _. provider_records_fault (records_of text.now) ≡ None) }
    ensures fault { IfErr result (λ e. Tells (provider_records_fault (records_of text.now)) e) }
{
    read_table::<ProviderTable>(alloc, &(), text)
}

// The providers by their places in the order of their ids, with their parents and roots.
#[derive(Drop)]
pub(crate) struct Providers {
    pub(crate) ids: Ids,
    pub(crate) parents: Vec<Option<u32>>,
    pub(crate) roots: Vec<u32>,
    pub(crate) names: Lists<u8>,
}

// The providers of a text, or the first fault of their table: each check of the trees passes over all before the next.
pub(crate) fn read_providers(alloc: Global, text: &[u8]) -> Result<Providers, TableFault>
    requires { length text.now ≤ most_bytes }
    ensures ids { IfOk result (λ v. v.ids.ids.items ≡ ids_of (records_of text.now)) }
    ensures parents { IfOk result (λ v. v.parents.items
        ≡ map (λ id. option_and_then (rank v.ids.ids.items)
        (said_parent (providers_said (records_of text.now)) id)) v.ids.ids.items) }
    ensures count { IfOk result (λ v. length v.roots.items ≡ length v.parents.items) }
    ensures roots { IfOk result (λ v. (i : ℕ) → i < length v.parents.items
        → get_or v.roots.items i 0 ≡ top (parent_in v.parents.items) (length v.parents.items) i) }
    ensures names { IfOk result (λ v. lists_of v.names
        ≡ map (said_name (providers_said (records_of text.now))) v.ids.ids.items) }
    ensures kin { IfOk result (λ v. AreKin v.ids.ids.items (providers_said (records_of text.now))) }
    ensures ok { IfOk result (λ _. providers_fault (records_of text.now) ≡ None) }
    ensures fault { IfErr result (λ e. Tells (providers_fault (records_of text.now)) e) }
{
    let rows = read_rows(alloc, text)?;
    let ids = find_ids(alloc, &rows)?;
    // Called for what it ensures: there are no more providers than places fit a u32.
    let _count = ids.len();
    let parents = find_parents(alloc, &ids, &rows)?;
    let unknown = mark_unknown(alloc, &rows, &parents)?;
    check_marks(&rows, &unknown, TableKind::UnknownParent)?;
    let roots = find_tops(alloc, &parents)?;
    let endless = mark_endless(alloc, &parents, &roots)?;
    check_marks(&rows, &endless, TableKind::ParentCycle)?;
    let other = mark_other_roots(alloc, &ids, &rows, &roots)?;
    check_marks(&rows, &other, TableKind::WrongRoot)?;
    let names = find_names(alloc, &rows)?;
    Ok(Providers {
        ids,
        parents,
        roots,
        names,
    })
}
