//! Lists of a value: the items between their commas.
ghost use Rattle.std.specs.Prelude.{◌≡◌, ℕ, List, Option, IfOk, map};
ghost use Rattle.std.specs.Option.{option_map};
ghost use Rattle.ac_base.specs.Names.{trait_bytes, suffix_bytes};
ghost use Rattle.ac_base.specs.Texts.{id_value, name_value, suffix_value};
ghost use Rattle.ac_query.specs.Pairs.Values.{list_value};

use ac_base::{Id, NoMemory, Suffix, TraitName};
use std::alloc::Global;

/// An item of a list.
pub(crate) trait Item: Drop + Sized {
    ghost Shown: { Type 0 };

    ghost shown: { Self → Shown };

    ghost value: { List ℕ → Option Shown };

    /// The item that a text is, where it is one.
    fn read_item(alloc: Global, text: &str) -> Result<Option<Self>, NoMemory>
        ensures { IfOk result (λ item. option_map shown item ≡ value text.now) };
}

impl Item for Id {
    ghost Shown = { ℕ };

    ghost shown = { λ id. id };

    ghost value = { id_value };

    fn read_item(_alloc: Global, text: &str) -> Result<Option<Id>, NoMemory> {
        Ok(Id::read(text.as_bytes()))
    }
}

impl Item for TraitName {
    ghost Shown = { List ℕ };

    ghost shown = { trait_bytes };

    ghost value = { name_value };

    fn read_item(alloc: Global, text: &str) -> Result<Option<TraitName>, NoMemory> {
        TraitName::read(alloc, text.as_bytes())
    }
}

impl Item for Suffix {
    ghost Shown = { List ℕ };

    ghost shown = { suffix_bytes };

    ghost value = { suffix_value };

    fn read_item(alloc: Global, text: &str) -> Result<Option<Suffix>, NoMemory> {
        Suffix::read(alloc, text.as_bytes())
    }
}

/// The items of a list, where each text between commas is one.
pub(crate) fn read_list<T: Item>(alloc: Global, text: &str) -> Result<Option<Vec<T>>, NoMemory>
    ensures { IfOk result (λ list. option_map (λ items. map T.shown items.items) list
        ≡ list_value T.value text.now) }
{
    let mut list = Vec::new(alloc);
    for item in text.split(',') {
        match T::read_item(alloc, item)? {
            Some(item) => list.push(item)?,
            None => return Ok(None),
        }
    }
    Ok(Some(list))
}
