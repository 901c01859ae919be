//! What the path of a walk takes, in plain numbers, so that a try looks at one provider alone.

ghost use Rattle.std.specs.Prelude.{◌≡◌, ◌<◌, ◌≤◌, ◌*◌, ◌++◌, ◌∷◌, ◌&&◌, ◌==◌, [], ℕ, List, length, map, true, false, not, nat_lt, slice_index, slice_index_or, IfOk};
ghost use Rattle.std.specs.List.{All, list_all, list_any, range_with_len};
ghost use Rattle.ac_base.specs.Names.{class_bytes};
ghost use Rattle.ac_cloud.specs.Cloud.CloudWorld.{providers_of};
ghost use Rattle.ac_cloud.specs.World.{anchors_of};
ghost use Rattle.ac_query.specs.Asked.{slots_of};
ghost use Rattle.ac_query.specs.Shown.Queries.{asked_of};
ghost use Rattle.ac_rules.specs.Placed.{slot_at, assigned};
ghost use Rattle.ac_rules.specs.Together.{takes_root};
ghost use Rattle.ac_rules.specs.Judge.{is_open};
ghost use Rattle.ac_rules.specs.Own.{fits};
ghost use Rattle.ac_rules.specs.Room.{IsKnown};
ghost use Rattle.ac_prune.specs.Left.{ask_pair, numbered, AreSmall, suffices};
ghost use Rattle.ac_prune.specs.Marks.{needs_own, stand_at_marked, IsWithAll};

pub mod marks;
pub mod rooms;

use crate::ledger::marks::{has_full, hit, lone_slots, mark, taken_roots, unhit, unmark};
use crate::ledger::rooms::{Ask, all_asks, all_rooms, give_back, has_each, take};
use crate::tuning::WIDER;
use ac_base::{ClassName, NoMemory};
use ac_cloud::Cloud;
use ac_query::Query;
use ac_rules::all_classes;
use ac_rules::slots::count_slots;
use std::alloc::Global;

/// What a path takes of the rooms, and which providers and roots it meets.
#[derive(Drop)]
pub struct Ledger<'a> {
    pub cloud: &'a Cloud,
    pub query: &'a Query,
    // The classes that the slots ask for, what each slot asks of them, and what is left of each, provider by provider.
    pub(crate) classes: Vec<&'a ClassName>,
    pub(crate) asks: Vec<Vec<Ask>>,
    rooms: Vec<u64>,
    // The slots that need a provider for themselves, and how many of them each provider has.
    pub(crate) lone: Vec<bool>,
    marks: Vec<u32>,
    // The roots that the query takes, and at each root how many providers of the path are available, up to the first that isn't.
    pub(crate) taken: Vec<bool>,
    pub(crate) hits: Vec<u32>,
    // For each provider of the path the one with the fewest roots up to it: it is available wherever they all are.
    narrowest: Vec<u32>,
    ghost known: { (s : ℕ) → s < length (slots_of (asked_of query.now)) → All (λ need. IsKnown (map (λ c. class_bytes c.now) classes.items) need.0) (slot_at (asked_of query.now) s).needs },
    ghost asked: { map (λ v. map ask_pair v.items) asks.items ≡ map (λ slot. map (numbered (map (λ c. class_bytes c.now) classes.items)) slot.needs) (slots_of (asked_of query.now)) },
    ghost sized: { length rooms.items ≡ length (providers_of cloud.now) * length classes.items },
    ghost small: { (c : List ℕ) → IsKnown (map (λ c. class_bytes c.now) classes.items) c → AreSmall (providers_of cloud.now) c },
    ghost alone: { lone.items ≡ map (needs_own (asked_of query.now)) (slots_of (asked_of query.now)) },
    ghost marked: { length marks.items ≡ length (providers_of cloud.now) },
    ghost rooted: { taken.items ≡ map (takes_root (providers_of cloud.now) (asked_of query.now)) (range_with_len 0 (length (providers_of cloud.now))) },
    ghost met: { length hits.items ≡ length (providers_of cloud.now) },
    ghost narrowed: { length narrowest.items ≡ length (slots_of (asked_of query.now)) },
}

impl<'a> Ledger<'a> {
    ghost use Rattle.ac_prune.specs.Left.Accounts.{providers_in, asked_in, texts_in, left_in, Accounts, IsSameLedger};

    /// The ledger of an empty path. All its memory is taken here.
    pub fn new(alloc: Global, cloud: &'a Cloud, query: &'a Query) -> Result<Ledger<'a>, NoMemory>
        ensures cloud { IfOk result (λ ledger. ledger.cloud ≡ cloud.entry) }
        ensures query { IfOk result (λ ledger. ledger.query ≡ query.entry) }
        ensures accounts { IfOk result (λ ledger. Accounts ledger []) }
    {
        let classes = all_classes(alloc, query)?;
        let asks = all_asks(alloc, query, &classes)?;
        let rooms = all_rooms(alloc, cloud, &classes)?;
        let lone = lone_slots(alloc, query)?;
        let taken = taken_roots(alloc, cloud, query)?;
        let count = cloud.len() as usize;
        let marks = vec![in alloc; 0u32; count]?;
        let hits = vec![in alloc; 0u32; count]?;
        let narrowest = vec![in alloc; 0u32; count_slots(query)]?;
        Ok(Ledger {
            cloud,
            query,
            classes,
            asks,
            rooms,
            lone,
            marks,
            taken,
            hits,
            narrowest,
        })
    }

    // Where the rooms of a provider begin.
    fn row(&self, ix: usize) -> usize
        requires { ix < length (providers_in self.now) }
        ensures { result ≡ ix * length self.now.classes.items }
    {
        ix * self.classes.len()
    }

    /// What a provider has left of the class of a number.
    pub(crate) fn left(&self, ix: usize, class: usize) -> u64
        requires provider { ix < length (providers_in self.now) }
        requires class { class < length self.now.classes.items }
        ensures { result ≡ left_in self.now ix class }
    {
        self.rooms[self.row(ix) + class]
    }

    // Whether the next slot may have a provider as far as Isolate goes.
    fn is_apart(&self, s: usize, ix: u32) -> bool
        requires slot { s < length (slots_of (asked_in self.now)) }
        requires provider { ix < length (providers_in self.now) }
        ensures { result ≡ not (needs_own (asked_in self.now) (slot_at (asked_in self.now) s)
            && nat_lt 0 (slice_index self.now.marks.items ix)) }
    {
        !(self.lone[s] && self.marks[ix as usize] > 0)
    }

    /// Whether a provider has enough left for a slot.
    pub(crate) fn has_enough(&self, s: usize, ix: u32) -> bool
        requires slot { s < length (slots_of (asked_in self.now)) }
        requires provider { ix < length (providers_in self.now) }
        ensures { result ≡ suffices (left_in self.now ix)
            (map (numbered (texts_in self.now)) (slot_at (asked_in self.now) s).needs) }
    {
        has_each(&self.rooms, self.row(ix as usize), &self.asks[s])
    }

    // The narrowest provider of a front where one more behind it has more than so many times its roots, else that one. All roots
    // at which they are all available are among its own.
    fn narrower(&self, front: &[u32], ix: u32, times: usize) -> u32
        requires provider { ix < length (providers_in self.now) }
        requires accounts { Accounts self.now front.now }
        requires some { 0 < times }
        ensures within { result < length (providers_in self.now) }
        ensures with_all { IsWithAll (providers_in self.now) (front.now ++ ix ∷ []) result }
    {
        let most = self.cloud.anchors(ix).len() / times;
        if most == 0 || front.is_empty() {
            return ix;
        }
        let narrowest = self.narrowest[front.len() - 1];
        if self.cloud.anchors(narrowest).len() < most {
            narrowest
        } else {
            ix
        }
    }

    /// Whether all of a front and one more provider are available in the tree of some marked root.
    pub fn stands_at(&self, marks: &[bool], front: &[u32], ix: u32) -> bool
        requires marks { length marks.now ≡ length (providers_in self.now) }
        requires provider { ix < length (providers_in self.now) }
        requires accounts { Accounts self.now front.now }
        ensures { result
            ≡ stand_at_marked (providers_in self.now) marks.now (front.now ++ ix ∷ []) }
    {
        let other = self.narrower(front, ix, WIDER);
        let roots = self.cloud.anchors(other);
        has_full(&self.hits, marks, self.cloud, roots, other, ix, front.len())
    }

    /// Whether an open front stays open with one more provider, which fits its slot.
    #[tactic(auto, using(crate::proofs::Paths::LedgerLemmas::open_next))]
    pub fn admits(&self, front: &[u32], ix: u32) -> bool
        requires slots { length front.now < length (slots_of (asked_in self.now)) }
        requires provider { ix < length (providers_in self.now) }
        requires accounts { Accounts self.now front.now }
        requires own { list_all (λ x. fits (providers_in self.now) x)
            (assigned (asked_in self.now) (front.now ++ ix ∷ [])) ≡ true }
        requires open { is_open (providers_in self.now) (asked_in self.now) front.now ≡ true }
        ensures { result ≡ is_open (providers_in self.now) (asked_in self.now)
            (front.now ++ ix ∷ []) }
    {
        let s = front.len();
        self.has_enough(s, ix) && self.is_apart(s, ix) && self.stands_at(&self.taken, front, ix)
    }

    /// Takes what one more provider behind an open front gives to its slot.
    pub fn take(&mut self, front: &[u32], ix: u32)
        requires slots { length front.now < length (slots_of (asked_in self.old)) }
        requires provider { ix < length (providers_in self.old) }
        requires accounts { Accounts self.old front.now }
        requires open { is_open (providers_in self.old) (asked_in self.old) (front.now ++ ix ∷ [])
            ≡ true }
        ensures same { IsSameLedger self.old self.new }
        ensures accounts { Accounts self.new (front.now ++ ix ∷ []) }
    {
        let s = front.len();
        let at = ix as usize;
        let row = self.row(at);
        let other = self.narrower(front, ix, WIDER);
        let narrowest = self.narrower(front, ix, 1);
        take(&mut self.rooms, row, &self.asks[s]);
        mark(&mut self.marks, self.lone[s], at);
        let roots = self.cloud.anchors(other);
        hit(&mut self.hits, self.cloud, roots, other, ix, s);
        self.narrowest[s] = narrowest;
    }

    /// Gives back what the last provider of a front took.
    pub fn give_back(&mut self, front: &[u32], ix: u32)
        requires slots { length front.now < length (slots_of (asked_in self.old)) }
        requires provider { ix < length (providers_in self.old) }
        requires accounts { Accounts self.old (front.now ++ ix ∷ []) }
        ensures same { IsSameLedger self.old self.new }
        ensures accounts { Accounts self.new front.now }
    {
        let s = front.len();
        let at = ix as usize;
        let row = self.row(at);
        let other = self.narrowest[s];
        give_back(&mut self.rooms, row, &self.asks[s]);
        unmark(&mut self.marks, self.lone[s], at);
        unhit(&mut self.hits, self.cloud.anchors(other), s);
    }
}
