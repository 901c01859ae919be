//! What placements have taken of each provider, beside the cloud as it was.

ghost use Rattle.std.specs.Prelude.{◌≡◌, ◌+◌, ◌*◌, ◌<◌, ◌≤◌, ◌∷◌, ◌&&◌, ◌==◌, [], ℕ, List, Some, true, false, bytes_eq, length, map, nat_lt, slice_index, IfOk, if◌then◌else◌, ◌^◌};
ghost use Rattle.std.specs.List.{All, AllByRecursion};
ghost use Rattle.ac_base.specs.Names.{class_bytes};
ghost use Rattle.ac_cloud.specs.Cloud.CloudWorld.{providers_of, root_lists_of, world_of};
ghost use Rattle.ac_cloud.specs.World.{provider_at, used_of};
ghost use Rattle.ac_rules.specs.Room.{IsKnown, class_number};
ghost use Rattle.ac_query.specs.Asked.{slots_of};
ghost use Rattle.ac_query.specs.Shown.Groups.{need_entry};
ghost use Rattle.ac_query.specs.Shown.Queries.{asked_of};
ghost use Rattle.ac_rules.specs.Placed.{assigned, placed_at, slot_at};
ghost use Rattle.ac_rules.specs.Shown.Assignments.{assigned_of};
ghost use Rattle.ac_rules.specs.Shown.Changes.{asked_of_one};
ghost use Rattle.ac_rules.specs.Together.{amount_of, has_room, holds, holds_sums, sum_on, sums};

use ac_base::{ClassName, Inventory, NoMemory};
use ac_cloud::Cloud;
use ac_query::{Need, Query};
use ac_rules::slots::needs_at;
use ac_rules::{Assignment, all_classes, number_of};
use std::alloc::Global;

/// How much of the classes of a query placements have taken of each provider.
#[derive(Drop)]
pub struct Takings<'a> {
    query: &'a Query,
    // The classes that the slots ask for, how many providers there are, and what is taken of each, class by class.
    classes: Vec<&'a ClassName>,
    count: usize,
    amounts: Vec<u64>,
    ghost known: { (s : ℕ) → s < length (slots_of (asked_of query.now)) → All (λ need. IsKnown (map (λ c. class_bytes c.now) classes.items) need.0) (slot_at (asked_of query.now) s).needs },
    ghost sized: { length amounts.items ≡ count * length classes.items },
}

// How often, one after another, an inventory of which so much is used has room for a sum, at most 4294967295 times.
fn times_in(inventory: &Inventory, used: u128, sum: u128) -> u32
    ensures room { (k : ℕ) → k < 4294967295
        → has_room (Some inventory.now) (used + k * sum) sum ≡ nat_lt k result }
    ensures small { (n : ℕ) → 0 < n → n ≤ result → used + n * sum < 2 ^ 64 }
{
    let capacity = u128::from(inventory.capacity());
    if sum > u128::from(inventory.max_unit()) {
        return 0;
    }
    if used > capacity {
        return 0;
    }
    if sum == 0 {
        return u32::MAX;
    }
    ((capacity - used) / sum).min(u128::from(u32::MAX)) as u32
}

impl<'a> Takings<'a> {
    ghost use Rattle.ac_fill.specs.Shown.{asked_in, count_in, texts_in, taken_in, with_more, with_taken, has_room_beside, IsTakenOf, IsSame, NeedFits, NeedTimesFit, SumsFit, TimesFit};

    /// Nothing is taken yet. All its memory is taken here.
    pub fn new(alloc: Global, cloud: &Cloud, query: &'a Query) -> Result<Takings<'a>, NoMemory>
        ensures nothing { IfOk result (λ t.
            with_taken t (providers_of cloud.now) ≡ providers_of cloud.now) }
        ensures query { IfOk result (λ t. asked_in t ≡ asked_of query.now) }
        ensures fits { IfOk result (IsTakenOf (providers_of cloud.now)) }
    {
        let classes = all_classes(alloc, query)?;
        let count = cloud.len() as usize;
        let Some(size) = count.checked_mul(classes.len()) else {
            return Err(NoMemory);
        };
        let amounts = vec![in alloc; 0u64; size]?;
        Ok(Takings {
            query,
            classes,
            count,
            amounts,
        })
    }

    // Where the amount of a class of a provider stands.
    fn place(&self, ix: u32, class: &ClassName) -> usize
        requires provider { ix < count_in self.now }
        requires class { IsKnown (texts_in self.now) (class_bytes class.now) }
        ensures place { result
            ≡ class_number (texts_in self.now) (class_bytes class.now) * count_in self.now + ix }
        ensures inside { result < length self.now.amounts.items }
    {
        number_of(&self.classes, class) * self.count + ix as usize
    }

    // How much is taken of a class of a provider.
    fn taken(&self, ix: u32, class: &ClassName) -> u64
        requires provider { ix < count_in self.now }
        requires class { IsKnown (texts_in self.now) (class_bytes class.now) }
        ensures { result ≡ taken_in self.now ix (class_bytes class.now) }
    {
        self.amounts[self.place(ix, class)]
    }

    // Whether a provider has room for a sum beside what is taken.
    fn has_room_for(&self, cloud: &Cloud, ix: u32, class: &ClassName, sum: u128) -> bool
        requires provider { ix < length (providers_of cloud.now) }
        requires count { count_in self.now ≡ length (providers_of cloud.now) }
        requires class { IsKnown (texts_in self.now) (class_bytes class.now) }
        ensures room { result
            ≡ holds (provider_at (with_taken self.now (providers_of cloud.now)) ix)
            (class_bytes class.now) sum }
        ensures small { result ≡ true
            → used_of (provider_at (providers_of cloud.now) ix) (class_bytes class.now)
            + (taken_in self.now ix (class_bytes class.now) + sum) < 2 ^ 64 }
    {
        match cloud.inventory(ix, class) {
            Some(inventory) => {
                let used = u128::from(cloud.used(ix, class)) + u128::from(self.taken(ix, class));
                sum <= u128::from(inventory.max_unit())
                    && used + sum <= u128::from(inventory.capacity())
            }
            None => false,
        }
    }

    // Whether the provider of a slot has, of each of the slot's classes, room for what all slots ask of it, beside what is taken.
    #[tactic(auto, unfolding(ac_rules::specs::Together::holds_sums))]
    fn has_room_at(&self, assignment: &Assignment<'_>, s: usize) -> bool
        requires slot { s < length assignment.now.list.now }
        requires query { asked_of assignment.now.query.now ≡ asked_in self.now }
        requires count { count_in self.now ≡ length (providers_of assignment.now.cloud.now) }
        ensures room { result
            ≡ holds_sums (with_taken self.now (providers_of assignment.now.cloud.now))
            (assigned_of assignment.now)
            (placed_at (asked_in self.now) s (slice_index assignment.now.list.now s)) }
        ensures small { result ≡ true → AllByRecursion
            (NeedFits (providers_of assignment.now.cloud.now) self.now (assigned_of assignment.now)
            (slice_index assignment.now.list.now s)) (slot_at (asked_in self.now) s).needs }
    {
        let ix = assignment.list[s];
        for need in needs_at(self.query, s) {
            let sum = assignment.sum_on(ix, need.class());
            if !self.has_room_for(assignment.cloud, ix, need.class(), sum) {
                return false;
            }
        }
        true
    }

    /// Whether Sums is kept by an assignment beside what is taken: each provider has room for all that its slots ask of it.
    #[tactic(auto, unfolding(ac_rules::specs::Together::sums))]
    pub fn has_room(&self, assignment: &Assignment<'_>) -> bool
        requires query { asked_of assignment.now.query.now ≡ asked_in self.now }
        requires slots { length assignment.now.list.now ≡ length (slots_of (asked_in self.now)) }
        requires count { count_in self.now ≡ length (providers_of assignment.now.cloud.now) }
        ensures room { result
            ≡ sums (with_taken self.now (providers_of assignment.now.cloud.now))
            (assigned_of assignment.now) }
        ensures small { result ≡ true
            → SumsFit (providers_of assignment.now.cloud.now) self.now
            (assigned_of assignment.now) }
    {
        for s in 0..assignment.list.len() {
            if !self.has_room_at(assignment, s) {
                return false;
            }
        }
        true
    }

    /// The shortest front of an assignment whose last provider has no room for what the front asks of it, beside what is taken; where each has, all of it.
    #[tactic(auto, using(crate::proofs::Ending::slot_full))]
    pub(crate) fn full_front<'b>(&self, assignment: &Assignment<'b>) -> &'b [u32]
        requires query { asked_of assignment.now.query.now ≡ asked_in self.now }
        requires count { count_in self.now ≡ length (providers_of assignment.now.cloud.now) }
        ensures { sums (with_taken self.now (providers_of assignment.now.cloud.now))
            (assigned_of assignment.now) ≡ false
            → sums (with_taken self.now (providers_of assignment.now.cloud.now))
            (assigned (asked_in self.now) result.now) ≡ false }
    {
        for s in 0..assignment.list.len() {
            let front = Assignment {
                cloud: assignment.cloud,
                query: assignment.query,
                list: &assignment.list[..s + 1],
            };
            if !self.has_room_at(&front, s) {
                return front.list;
            }
        }
        assignment.list
    }

    // How often, one after another, a provider has room for a sum beside what is taken, at most 4294967295 times.
    fn times_for(&self, cloud: &Cloud, ix: u32, class: &ClassName, sum: u128) -> u32
        requires provider { ix < length (providers_of cloud.now) }
        requires count { count_in self.now ≡ length (providers_of cloud.now) }
        requires class { IsKnown (texts_in self.now) (class_bytes class.now) }
        ensures room { (k : ℕ) → k < 4294967295
            → has_room_beside (provider_at (providers_of cloud.now) ix) (class_bytes class.now)
            (taken_in self.now ix (class_bytes class.now) + k * sum) sum ≡ nat_lt k result }
        ensures small { (n : ℕ) → 0 < n → n ≤ result
            → used_of (provider_at (providers_of cloud.now) ix) (class_bytes class.now)
            + (taken_in self.now ix (class_bytes class.now) + n * sum) < 2 ^ 64 }
    {
        match cloud.inventory(ix, class) {
            Some(inventory) => {
                let used = u128::from(cloud.used(ix, class)) + u128::from(self.taken(ix, class));
                times_in(inventory, used, sum)
            }
            None => 0,
        }
    }

    // How many placements of an assignment, one after another, the provider of a slot has room for in each of the slot's classes.
    fn times_at(&self, assignment: &Assignment<'_>, s: usize) -> u32
        requires slot { s < length assignment.now.list.now }
        requires query { asked_of assignment.now.query.now ≡ asked_in self.now }
        requires count { count_in self.now ≡ length (providers_of assignment.now.cloud.now) }
        ensures room { (k : ℕ) → k < 4294967295
            → holds_sums (with_more self.now (assigned_of assignment.now) k
            (providers_of assignment.now.cloud.now)) (assigned_of assignment.now)
            (placed_at (asked_in self.now) s (slice_index assignment.now.list.now s))
            ≡ nat_lt k result }
        ensures small { (n : ℕ) → 0 < n → n ≤ result → AllByRecursion
            (NeedTimesFit (providers_of assignment.now.cloud.now) self.now
            (assigned_of assignment.now) n (slice_index assignment.now.list.now s))
            (slot_at (asked_in self.now) s).needs }
    {
        let ix = assignment.list[s];
        let mut times = u32::MAX;
        for need in needs_at(self.query, s) {
            let class = need.class();
            let sum = assignment.sum_on(ix, class);
            times = times.min(self.times_for(assignment.cloud, ix, class, sum));
        }
        times
    }

    /// How many placements of an assignment, one after another, there is room for beside what is taken, at most 4294967295: behind fewer there is
    /// room for one more, and behind so many there is none.
    pub(crate) fn times(&self, assignment: &Assignment<'_>) -> u32
        requires query { asked_of assignment.now.query.now ≡ asked_in self.now }
        requires slots { length assignment.now.list.now ≡ length (slots_of (asked_in self.now)) }
        requires count { count_in self.now ≡ length (providers_of assignment.now.cloud.now) }
        ensures room { (k : ℕ) → k < 4294967295
            → sums (with_more self.now (assigned_of assignment.now) k
            (providers_of assignment.now.cloud.now)) (assigned_of assignment.now)
            ≡ nat_lt k result }
        ensures small { (n : ℕ) → n ≤ result
            → TimesFit (providers_of assignment.now.cloud.now) self.now
            (assigned_of assignment.now) n }
    {
        let mut times = u32::MAX;
        for s in 0..assignment.list.len() {
            times = times.min(self.times_at(assignment, s));
        }
        times
    }

    // Takes what one need asks of a provider, so many times.
    fn take_need(&mut self, ix: u32, need: &Need, times: u32)
        requires provider { ix < count_in self.old }
        requires class { IsKnown (texts_in self.old) (need_entry need.now).0 }
        requires small { 0 < times * (need_entry need.now).1
            → taken_in self.old ix (need_entry need.now).0 + times * (need_entry need.now).1
            < 2 ^ 64 }
        ensures taken { (p : ℕ) (class : List ℕ) → p < count_in self.old
            → taken_in self.new p class ≡ taken_in self.old p class
            + times * asked_of_one ix (need_entry need.now ∷ []) p class }
        ensures same { IsSame self.old self.new }
    {
        let place = self.place(ix, need.class());
        self.amounts[place] += u64::from(need.amount()) * u64::from(times);
    }

    // Takes what needs ask of a provider, so many times.
    fn take_needs(&mut self, ix: u32, needs: &[Need], times: u32)
        requires provider { ix < count_in self.old }
        requires classes { AllByRecursion (λ need. IsKnown (texts_in self.old) need.0)
            (map need_entry needs.now) }
        requires small { (class : List ℕ) → 0 < times * amount_of (map need_entry needs.now) class
            → taken_in self.old ix class + times * amount_of (map need_entry needs.now) class
            < 2 ^ 64 }
        ensures taken { (p : ℕ) (class : List ℕ) → p < count_in self.old
            → taken_in self.new p class ≡ taken_in self.old p class
            + times * asked_of_one ix (map need_entry needs.now) p class }
        ensures same { IsSame self.old self.new }
    {
        for need in needs {
            self.take_need(ix, need, times);
        }
    }

    /// Takes what so many placements of an assignment ask, where there is room for them.
    pub(crate) fn take_times(&mut self, list: &[u32], times: u32)
        requires slots { length list.now ≡ length (slots_of (asked_in self.old)) }
        requires providers { All (λ p. p < count_in self.old) list.now }
        requires small { (p : ℕ) (class : List ℕ)
            → 0 < times * sum_on (assigned (asked_in self.old) list.now) p class
            → taken_in self.old p class
            + times * sum_on (assigned (asked_in self.old) list.now) p class < 2 ^ 64 }
        ensures taken { (p : ℕ) (class : List ℕ) → p < count_in self.old
            → taken_in self.new p class ≡ taken_in self.old p class
            + times * sum_on (assigned (asked_in self.old) list.now) p class }
        ensures same { IsSame self.old self.new }
    {
        let query = self.query;
        for (s, ix) in list.iter().enumerate() {
            self.take_needs(*ix, needs_at(query, s), times);
        }
    }

    /// Takes what an assignment asks, where there is room for it.
    pub fn take(&mut self, list: &[u32])
        requires slots { length list.now ≡ length (slots_of (asked_in self.old)) }
        requires providers { All (λ p. p < count_in self.old) list.now }
        requires small { (p : ℕ) (class : List ℕ)
            → 0 < sum_on (assigned (asked_in self.old) list.now) p class
            → taken_in self.old p class + sum_on (assigned (asked_in self.old) list.now) p class
            < 2 ^ 64 }
        ensures taken { (p : ℕ) (class : List ℕ) → p < count_in self.old
            → taken_in self.new p class ≡ taken_in self.old p class
            + sum_on (assigned (asked_in self.old) list.now) p class }
        ensures same { IsSame self.old self.new }
    {
        self.take_times(list, 1);
    }

    // Moves what is taken of a class of a provider into the cloud.
    fn settle_one(&mut self, cloud: &mut Cloud, ix: u32, class: &ClassName)
        requires provider { ix < count_in self.old }
        requires class { IsKnown (texts_in self.old) (class_bytes class.now) }
        requires fits { IsTakenOf (providers_of cloud.old) self.old }
        ensures world { with_taken self.new (providers_of cloud.new)
            ≡ with_taken self.old (providers_of cloud.old) }
        ensures taken { (p : ℕ) (c : List ℕ) → p < count_in self.old → taken_in self.new p c
            ≡ (if (p == ix) && bytes_eq (class_bytes class.now) c then 0
            else taken_in self.old p c) }
        ensures fits { IsTakenOf (providers_of cloud.new) self.new }
        ensures same { IsSame self.old self.new }
        ensures sizes { (world_of cloud.new).sizes ≡ (world_of cloud.old).sizes }
        ensures root_lists { root_lists_of cloud.new ≡ root_lists_of cloud.old }
    {
        let place = self.place(ix, class);
        let taken = self.amounts[place];
        if taken > 0 {
            let used = cloud.used(ix, class) + taken;
            cloud.set_used(ix, class, used);
            self.amounts[place] = 0;
        }
    }

    // Moves what is taken of a class into the cloud.
    fn settle_class(&mut self, cloud: &mut Cloud, class: &ClassName)
        requires class { IsKnown (texts_in self.old) (class_bytes class.now) }
        requires fits { IsTakenOf (providers_of cloud.old) self.old }
        ensures world { with_taken self.new (providers_of cloud.new)
            ≡ with_taken self.old (providers_of cloud.old) }
        ensures gone { (p : ℕ) → p < count_in self.old
            → taken_in self.new p (class_bytes class.now) ≡ 0 }
        ensures less { (p : ℕ) (c : List ℕ) → p < count_in self.old
            → taken_in self.new p c ≤ taken_in self.old p c }
        ensures fits { IsTakenOf (providers_of cloud.new) self.new }
        ensures same { IsSame self.old self.new }
        ensures sizes { (world_of cloud.new).sizes ≡ (world_of cloud.old).sizes }
        ensures root_lists { root_lists_of cloud.new ≡ root_lists_of cloud.old }
    {
        for ix in 0..cloud.len() {
            self.settle_one(cloud, ix, class);
        }
    }

    /// Moves all that is taken into the cloud, as if each placement was claimed there.
    pub fn settle(&mut self, cloud: &mut Cloud)
        requires fits { IsTakenOf (providers_of cloud.old) self.old }
        ensures providers { providers_of cloud.new ≡ with_taken self.old (providers_of cloud.old) }
        ensures sizes { (world_of cloud.new).sizes ≡ (world_of cloud.old).sizes }
        ensures root_lists { root_lists_of cloud.new ≡ root_lists_of cloud.old }
    {
        for k in 0..self.classes.len() {
            let class = self.classes[k];
            self.settle_class(cloud, class);
        }
    }
}
