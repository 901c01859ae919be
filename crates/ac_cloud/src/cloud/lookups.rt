//! Look-ups in the lists of one provider, each in order.
ghost use Rattle.std.specs.Prelude.{◌≡◌, codes, map, IfOk};
ghost use Rattle.std.specs.List.{list_any};
ghost use Rattle.std.specs.List.Sorted.{IsStrictlySortedBy};
ghost use Rattle.std.specs.Map.{lookup};
ghost use Rattle.std.specs.Option.{option_map, option_copied};
ghost use Rattle.std.specs.Str.{bytes_eq};
ghost use Rattle.ac_base.specs.Names.{class_bytes, trait_bytes};
ghost use Rattle.ac_base.specs.Texts.{text_cmp};
ghost use Rattle.ac_cloud.specs.Cloud.Entries.{StandsAlone, entry_class, entry_value, entry_pair};
ghost use Rattle.ac_cloud.specs.Cloud.Anchors.{shares_by};
ghost use Rattle.ac_cloud.specs.ListsOf.{lists_of};

use crate::cloud::entry::Entry;
use crate::lists::Lists;
use ac_base::{ClassName, TraitName};
use std::alloc::{AllocError, Global};

// The place of a class among entries, where it stands there.
pub(crate) fn find_place(entries: &[Entry], class: &ClassName) -> Option<usize>
    requires { IsStrictlySortedBy text_cmp (map entry_class entries.now) }
    ensures { StandsAlone (class_bytes class.now) entries.now result }
{
    entries
        .binary_search_by(|entry| entry.class().cmp(class))
        .ok()
}

// The entry of a class.
pub(crate) fn find_entry<'a>(entries: &'a [Entry], class: &ClassName) -> Option<&'a Entry>
    requires { IsStrictlySortedBy text_cmp (map entry_class entries.now) }
    ensures { option_map entry_value (option_copied result)
        ≡ lookup (bytes_eq (class_bytes class.now)) (map entry_pair entries.now) }
{
    match find_place(entries, class) {
        Some(place) => Some(&entries[place]),
        None => None,
    }
}

// Whether a trait is one of these.
pub(crate) fn has_name(names: &[TraitName], name: &TraitName) -> bool
    requires { IsStrictlySortedBy text_cmp (map trait_bytes names.now) }
    ensures { result ≡ list_any (bytes_eq (trait_bytes name.now)) (map trait_bytes names.now) }
{
    names.binary_search(name).is_ok()
}

// Whether a provider of these traits shares what it has.
fn shares(names: &[TraitName]) -> bool
    ensures { result ≡ shares_by names.now }
{
    let text = b"MISC_SHARES_VIA_AGGREGATE".as_slice();
    names.iter().any(|name| text == name.text().as_bytes())
}

// Which providers share what they have.
pub(crate) fn find_sharing(
    alloc: Global,
    traits: &Lists<TraitName>,
) -> Result<Vec<bool>, AllocError>
    ensures { IfOk result (λ sharing. sharing.items ≡ map shares_by (lists_of traits.now)) }
{
    let mut sharing = Vec::new(alloc);
    for place in 0..traits.len() {
        sharing.push(shares(traits.of(place)))?;
    }
    Ok(sharing)
}
