//! Lists of roots, of which equal ones are kept once.
ghost use Rattle.std.specs.Prelude.{◌≡◌, ◌≤◌, ◌<◌, ◌+◌, ℕ, [], length, IfOk, IfSome};
ghost use Rattle.ac_cloud.specs.Cloud.Anchors.{list_of};

use std::alloc::{AllocError, Global};
use std::collections::BTreeMap;

// How many roots all lists may have together: a quarter of a gigabyte of them.
const MOST_ROOTS: usize = 1 << 26;

// Lists, how many roots they may still have, and where the last one of each mark stands.
#[derive(Drop)]
pub(crate) struct Kept {
    pub(crate) lists: Vec<Vec<u32>>,
    room: usize,
    known: BTreeMap<u64, u32>,
}

impl Kept {
    pub(crate) fn new(alloc: Global) -> Kept
        ensures { result.lists.items ≡ [] }
    {
        Kept {
            lists: Vec::new(alloc),
            room: MOST_ROOTS,
            known: BTreeMap::new(alloc),
        }
    }

    // Where an equal list stands, if it is the last one of this mark.
    fn find(&self, mark: u64, list: &[u32]) -> Option<u32>
        ensures { IfSome result (λ k. (k < length self.now.lists.items)
            × (list_of self.now.lists.items k ≡ list.now)) }
    {
        let place = *self.known.get(&mark)?;
        if (place as usize) < self.lists.len() && self.lists[place as usize].as_slice() == list {
            Some(place)
        } else {
            None
        }
    }

    // The lists with one more, and where that one stands. Where they would have too many roots, that is memory which isn't had.
    fn with(self, mark: u64, list: Vec<u32>) -> Result<(Kept, u32), AllocError>
        requires { length self.lists.items < 65536 }
        ensures grown { IfOk result (λ new. length new.0.lists.items
            ≡ length self.lists.items + 1) }
        ensures inside { IfOk result (λ new. new.1 < length new.0.lists.items) }
        ensures here { IfOk result (λ new. list_of new.0.lists.items new.1 ≡ list.items) }
        ensures stay { IfOk result (λ new. (k : ℕ) → k < length self.lists.items
            → list_of new.0.lists.items k ≡ list_of self.lists.items k) }
    {
        let mut kept = self;
        let place = kept.lists.len() as u32;
        let Some(room) = kept.room.checked_sub(list.len()) else {
            return Err(AllocError);
        };
        kept.room = room;
        kept.known.insert(mark, place)?;
        kept.lists.push(list)?;
        Ok((kept, place))
    }

    // The lists with one more unless an equal one is kept, and where it stands.
    pub(crate) fn keep(self, list: Vec<u32>) -> Result<(Kept, u32), AllocError>
        requires { length self.lists.items < 65536 }
        ensures grown { IfOk result (λ new. length new.0.lists.items
            ≤ length self.lists.items + 1) }
        ensures rest { IfOk result (λ new. length self.lists.items ≤ length new.0.lists.items) }
        ensures inside { IfOk result (λ new. new.1 < length new.0.lists.items) }
        ensures here { IfOk result (λ new. list_of new.0.lists.items new.1 ≡ list.items) }
        ensures stay { IfOk result (λ new. (k : ℕ) → k < length self.lists.items
            → list_of new.0.lists.items k ≡ list_of self.lists.items k) }
    {
        let mark = mark_of(&list);
        match self.find(mark, &list) {
            Some(place) => Ok((self, place)),
            None => self.with(mark, list),
        }
    }
}

// A number that unequal lists seldom have in common.
fn mark_of(list: &[u32]) -> u64 {
    let mut mark = 0u64;
    for root in list {
        mark = mark.wrapping_mul(1_000_003).wrapping_add(u64::from(*root));
    }
    mark
}
