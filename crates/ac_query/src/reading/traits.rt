//! Traits that are required or forbidden.
ghost use Rattle.std.specs.Prelude.{◌≡◌, IfOk, OnOk, map};
ghost use Rattle.std.specs.List.Sorted.{IsStrictlySortedBy};
ghost use Rattle.ac_base.specs.Names.{trait_bytes};
ghost use Rattle.ac_base.specs.Texts.{text_cmp};
ghost use Rattle.ac_query.specs.Texts.{in_order_with};
ghost use Rattle.ac_query.specs.Pairs.Values.{Marked, marked_value, parted, no_traits, is_conflicting};
ghost use Rattle.ac_query.specs.Laws.Gathered.{joined_traits};
ghost use Rattle.ac_query.specs.Shown.{names_shown, mark_shown, traits_shown};

use crate::reading::items::Item;
use crate::reading::parameter::behind;
use ac_base::{NoMemory, TraitName};
use std::alloc::Global;
use std::collections::BTreeSet;

/// Traits that are required, and traits that are forbidden.
#[derive(Drop)]
pub(crate) struct Traits {
    pub(crate) required: BTreeSet<TraitName>,
    pub(crate) forbidden: BTreeSet<TraitName>,
}

/// A trait of a list, and whether it is forbidden there.
#[derive(Drop)]
pub(crate) struct MarkedTrait {
    pub(crate) forbids: bool,
    pub(crate) name: TraitName,
}

impl Item for MarkedTrait {
    ghost Shown = { Marked };

    ghost shown = { mark_shown };

    ghost value = { marked_value };

    #[tactic(auto, unfolding(crate::specs::Pairs::Values::marked_value))]
    fn read_item(alloc: Global, text: &str) -> Result<Option<MarkedTrait>, NoMemory> {
        let (forbids, name) = match behind("!", text) {
            Some(name) => (true, name),
            None => (false, text),
        };
        match TraitName::read(alloc, name.as_bytes())? {
            Some(name) => Ok(Some(MarkedTrait { forbids, name })),
            None => Ok(None),
        }
    }
}

/// Adds names to a set.
fn add_names(names: &mut BTreeSet<TraitName>, more: BTreeSet<TraitName>) -> Result<(), NoMemory>
    ensures { OnOk result (names_shown names.new
        ≡ in_order_with (names_shown names.old) (names_shown more)) }
{
    for name in more {
        names.insert(name)?;
    }
    Ok(())
}

/// The names of a set, in byte order.
pub(crate) fn names_in_order(
    alloc: Global,
    names: BTreeSet<TraitName>,
) -> Result<Vec<TraitName>, NoMemory>
    ensures names { IfOk result (λ list. map trait_bytes list.items ≡ names_shown names) }
    ensures rising { IfOk result (λ list.
        IsStrictlySortedBy text_cmp (map trait_bytes list.items)) }
{
    let mut list = Vec::new(alloc);
    for name in names {
        list.push(name)?;
    }
    Ok(list)
}

impl Traits {
    /// Neither required nor forbidden traits.
    pub(crate) fn new(alloc: Global) -> Traits
        ensures { traits_shown result ≡ no_traits }
    {
        Traits {
            required: BTreeSet::new(alloc),
            forbidden: BTreeSet::new(alloc),
        }
    }

    /// The traits of a list.
    pub(crate) fn of(alloc: Global, list: Vec<MarkedTrait>) -> Result<Traits, NoMemory>
        ensures { IfOk result (λ traits. traits_shown traits ≡ parted (map mark_shown list.items)) }
    {
        let mut traits = Traits::new(alloc);
        for marked in list {
            if marked.forbids {
                traits.forbidden.insert(marked.name)?;
            } else {
                traits.required.insert(marked.name)?;
            }
        }
        Ok(traits)
    }

    /// Adds more traits.
    pub(crate) fn join(&mut self, more: Traits) -> Result<(), NoMemory>
        ensures { OnOk result (traits_shown self.new
            ≡ joined_traits (traits_shown self.old) (traits_shown more)) }
    {
        add_names(&mut self.required, more.required)?;
        add_names(&mut self.forbidden, more.forbidden)?;
        Ok(())
    }

    /// Whether a trait is required and forbidden.
    pub(crate) fn is_conflicting(&self) -> bool
        ensures { result ≡ is_conflicting (traits_shown self.now) }
    {
        self.required
            .iter()
            .any(|name| self.forbidden.contains(name))
    }
}
