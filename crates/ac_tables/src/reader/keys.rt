//! The keys of rows, as a list for each provider.
ghost use Rattle.std.specs.Prelude.{◌≡◌, ◌≤◌, [], IfOk, length, map};
ghost use Rattle.std.specs.List.{AllZip};
ghost use Rattle.ac_cloud.specs.ListsOf.{lists_of};
ghost use Rattle.ac_tables.specs.Reader.OwnRows.{own_rows};

use crate::reader::provider_rows::ProviderRows;
use crate::reader::row::TableRow;
use ac_cloud::Lists;
use std::alloc::{AllocError, Global};

// Adds the keys of some rows.
fn add_keys<K: Clone>(keys: &mut Vec<K>, rows: &[TableRow<K, ()>]) -> Result<(), AllocError>
    requires { keys.old.items ≡ [] }
    ensures { IfOk result (λ _. AllZip K.is_clone (map (λ r. r.key) rows.now) keys.new.items) }
{
    for row in rows {
        keys.push(row.key.clone()?)?;
    }
    Ok(())
}

// The keys of the rows of each provider.
pub(crate) fn keys_of<K: Clone>(
    alloc: Global,
    own: &ProviderRows<K, ()>,
) -> Result<Lists<K>, AllocError>
    ensures lists { IfOk result (λ keys. AllZip (AllZip K.is_clone)
        (map (map (λ r. r.key)) (own_rows own.now)) (lists_of keys)) }
    ensures few { IfOk result (λ keys.
        length keys.items.items ≤ length own.now.rows.items) }
{
    let mut lists = Lists::new(alloc)?;
    let mut keys = Vec::new(alloc);
    for place in 0..own.len() {
        add_keys(&mut keys, own.of(place))?;
        lists.append(&mut keys)?;
    }
    Ok(lists)
}
