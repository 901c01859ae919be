//! The ids of all providers, rising: a provider's place in them is its number.
ghost use Rattle.std.specs.Prelude.{◌≡◌, ◌≤◌, ◌<◌, ◌^◌, true, false, length, get_or, IfNone, IfSome, IfOk};
ghost use Rattle.std.specs.List.{All};
ghost use Rattle.ac_base.specs.Sorted.{rising};
ghost use Rattle.ac_cloud.specs.Cloud.RisingIds.{IsRising};
ghost use Rattle.ac_base.specs.Sorted.{is_one_of};
ghost use Rattle.ac_cloud.specs.Cloud.Places.{rank, ArePlaced, ArePlaced-prop};

use ac_base::Id;
use std::alloc::{AllocError, Global};

// How many beginnings of 16 bits ids can have.
const BEGINNINGS: usize = 65_536;

// How many places are looked at where ids begin alike, before all are searched.
const NEAR: usize = 8;

// How many guesses of the next provider may fail in a row before none is made any more.
const MOST_FAILED: u32 = 16;

/// Which provider a row is expected to be of: that of the row before, or the next one in the table of providers.
#[derive(Clone, Copy, Drop)]
pub struct Expected {
    place: usize,
    turn: usize,
    failed: u32,
}

impl Expected {
    /// The first provider of the table.
    pub fn new() -> Expected {
        Expected {
            place: 0,
            turn: usize::MAX,
            failed: 0,
        }
    }
}

// A provider as it is listed in its table, with its place.
#[derive(Clone, Copy)]
struct Listed {
    id: Id,
    place: u32,
}

/// The ids of all providers, rising.
#[derive(Drop)]
pub struct Ids {
    pub ids: Vec<Id>,
    // The providers by the turns in which their table lists them, and the turn of each place: other tables mostly keep that order.
    listed: Vec<Listed>,
    turns: Vec<u32>,
    // Where to look first: by the beginning of an id, the first place of an id that begins so. What is found there is checked.
    first: Vec<u16>,
    ghost rising: { IsRising ids.items },
    ghost fit: { All (λ id. id < 2 ^ 128) ids.items },
    ghost few: { length ids.items ≤ 65536 },
    ghost placed: { ArePlaced ids.items listed.items } by { ArePlaced-prop ids.items listed.items },
}

// The providers by their turns.
#[tactic(auto, unfolding(crate::specs::Cloud::Places::ArePlaced))]
fn list_by_turns(alloc: Global, ids: &[Id], turns: &[u32]) -> Result<Vec<Listed>, AllocError>
    requires few { length ids.now ≤ 65536 }
    requires turns { length turns.now ≡ length ids.now }
    ensures { IfOk result (λ listed. ArePlaced ids.now listed.items) }
{
    let mut listed = Vec::new(alloc);
    for place in 0..ids.len() {
        listed.push(Listed {
            id: ids[place],
            place: place as u32,
        })?;
    }
    for place in 0..ids.len() {
        let turn = turns[place] as usize;
        if turn < listed.len() {
            listed[turn] = Listed {
                id: ids[place],
                place: place as u32,
            };
        }
    }
    Ok(listed)
}

// The first 16 bits of an id.
fn beginning(id: Id) -> usize {
    (id.as_u128() >> 112) as usize
}

// The first place of an id with each beginning; 0 where there is none.
fn first_places(alloc: Global, ids: &[Id]) -> Result<Vec<u16>, AllocError>
    requires { length ids.now ≤ 65536 }
{
    let mut first = vec![in alloc; 0u16; BEGINNINGS]?;
    for i in 0..ids.len() {
        let place = ids.len() - 1 - i;
        let beginning = beginning(ids[place]);
        if beginning < first.len() {
            first[beginning] = place as u16;
        }
    }
    Ok(first)
}

impl Ids {
    /// Of ids that rise, each with the turn in which it is listed.
    pub fn new(alloc: Global, ids: Vec<Id>, turns: Vec<u32>) -> Result<Ids, AllocError>
        requires rising { IsRising ids.items }
        requires fit { All (λ id. id < 2 ^ 128) ids.items }
        requires few { length ids.items ≤ 65536 }
        requires turns { length turns.items ≡ length ids.items }
        ensures { IfOk result (λ new. new.ids ≡ ids) }
    {
        let first = first_places(alloc, &ids)?;
        let listed = list_by_turns(alloc, &ids, &turns)?;
        Ok(Ids {
            ids,
            listed,
            turns,
            first,
        })
    }

    // From where on an id may stand.
    fn first_of(&self, id: Id) -> usize {
        let beginning = beginning(id);
        if beginning < self.first.len() {
            self.first[beginning] as usize
        } else {
            0
        }
    }

    /// How many providers there are.
    pub fn len(&self) -> usize
        ensures value { result ≡ length self.now.ids.items }
        ensures few { result ≤ 65536 }
    {
        self.ids.len()
    }

    /// The place of a provider, where it is one.
    pub fn find(&self, id: Id) -> Option<usize>
        ensures inside { IfSome result (λ place. place < length self.now.ids.items) }
        ensures found { IfSome result (λ place. get_or self.now.ids.items place 0 ≡ id) }
        ensures absent { IfNone result (is_one_of self.now.ids.items id ≡ false) }
        ensures value { result ≡ rank self.now.ids.items id }
    {
        self.ids.binary_search(&id).ok()
    }

    // Whether this is the provider at a place.
    fn is_at(&self, place: usize, id: Id) -> bool
        ensures { result ≡ true → (place < length self.now.ids.items)
            × (get_or self.now.ids.items place 0 ≡ id) }
    {
        place < self.ids.len() && self.ids[place] == id
    }

    // The place of a provider, where it is listed in this turn.
    #[tactic(auto, unfolding(crate::specs::Cloud::Places::ArePlaced))]
    fn in_turn(&self, turn: usize, id: Id) -> Option<usize>
        ensures { IfSome result (λ place. (place < length self.now.ids.items)
            × (get_or self.now.ids.items place 0 ≡ id)) }
    {
        let listed = *self.listed.get(turn)?;
        if listed.id == id {
            Some(listed.place as usize)
        } else {
            None
        }
    }

    // The place of a provider, where it is listed after the one before.
    fn find_next(&self, expected: &mut Expected, id: Id) -> Option<usize>
        ensures { IfSome result (λ place. (place < length self.now.ids.items)
            × (get_or self.now.ids.items place 0 ≡ id)) }
    {
        if expected.failed == MOST_FAILED {
            return None;
        }
        let turn = expected.turn.wrapping_add(1);
        let place = self.in_turn(turn, id)?;
        *expected = Expected {
            place,
            turn,
            failed: 0,
        };
        Some(place)
    }

    // The place of a provider among the first whose ids begin as its id does.
    fn find_alike(&self, id: Id) -> Option<usize>
        ensures { IfSome result (λ place. (place < length self.now.ids.items)
            × (get_or self.now.ids.items place 0 ≡ id)) }
    {
        let first = self.first_of(id);
        for place in first..first.saturating_add(NEAR) {
            if self.is_at(place, id) {
                return Some(place);
            }
        }
        None
    }

    // What is expected after a provider that was not.
    fn expect(&self, expected: &mut Expected, place: usize) {
        expected.place = place;
        if expected.failed < MOST_FAILED {
            expected.failed += 1;
            if let Some(turn) = self.turns.get(place) {
                expected.turn = *turn as usize;
            }
        }
    }

    // The place of a provider, where it is that of the row before. As long as guesses by turns hold, it is compared in the list of turns, which
    // is read from front to back; the places are far apart in memory.
    fn find_same(&self, expected: &Expected, id: Id) -> Option<usize>
        ensures { IfSome result (λ place. (place < length self.now.ids.items)
            × (get_or self.now.ids.items place 0 ≡ id)) }
    {
        if expected.failed < MOST_FAILED {
            return self.in_turn(expected.turn, id);
        }
        if self.is_at(expected.place, id) {
            return Some(expected.place);
        }
        None
    }

    // The place of a provider, where it is the expected one, or stands where ids begin as its id does.
    fn guess(&self, expected: &mut Expected, id: Id) -> Option<usize>
        ensures { IfSome result (λ place. (place < length self.now.ids.items)
            × (get_or self.now.ids.items place 0 ≡ id)) }
    {
        if let Some(place) = self.find_same(expected, id) {
            return Some(place);
        }
        if let Some(place) = self.find_next(expected, id) {
            return Some(place);
        }
        let place = self.find_alike(id)?;
        self.expect(expected, place);
        Some(place)
    }

    /// The place of a provider, which is guessed before it is searched for.
    #[tactic(auto, using(crate::proofs::Rising::rank_at))]
    pub fn find_near(&self, expected: &mut Expected, id: Id) -> Option<usize>
        ensures inside { IfSome result (λ place. place < length self.now.ids.items) }
        ensures found { IfSome result (λ place. get_or self.now.ids.items place 0 ≡ id) }
        ensures absent { IfNone result (is_one_of self.now.ids.items id ≡ false) }
        ensures value { result ≡ rank self.now.ids.items id }
    {
        match self.guess(expected, id) {
            Some(place) => Some(place),
            None => self.find(id),
        }
    }
}
