//! Choices that a walk passes over, since nothing is lost behind them.
ghost use Rattle.std.specs.Prelude.{◌≡◌, ◌+◌, ◌<◌, ◌≤◌, length, true, IfSome};
ghost use Rattle.ac_base.specs.Devices.{one_more};
ghost use Rattle.ac_prune.specs.Search.{IsDead, AllDead};
ghost use Rattle.ac_search.specs.Search.{next_front};
ghost use Rattle.ac_prune.specs.Trees.Keys.{is_there};

use super::Walk;
use super::steps::one_more;
use ac_prune::{Front, LookAhead, bound_by};

impl<'a> Walk<'a> {
    ghost use Rattle.ac_search.specs.Shown.Walk.{search_in, path_in, place_in, slot_in, front_in, StaysWithin};
    ghost use Rattle.ac_search.specs.Search.Steps.{Passes};

    // Where it stands, by the provider of its path to whose trees it is bound.
    fn front(&self, bound: Option<u32>) -> Front<'_, 'a>
        requires { IfSome bound (λ p. is_there (path_in self.now) p ≡ true) }
        ensures ledger { result.ledger.now ≡ self.now.ledger }
        ensures path { result.path.now ≡ path_in self.now }
        ensures choices { result.choices.now ≡ slot_in self.now }
    {
        Front {
            ledger: &self.ledger,
            path: &self.path[..self.depth],
            choices: &self.choices[self.depth],
            bound,
        }
    }

    // The next place of the slot whose choice may lead on by the tests that don't look at choices one by one, and whether that choice is looked at
    // and can't follow.
    fn look(&self, bound: Option<u32>) -> (usize, bool)
        requires { IfSome bound (λ p. is_there (path_in self.now) p ≡ true) }
        ensures from { place_in self.now ≤ result.0 }
        ensures within { result.0 ≤ length (slot_in self.now) }
        ensures jumped { AllDead (search_in self.now) (path_in self.now) self.now.depth
            (place_in self.now) result.0 }
        ensures among { result.1 ≡ true → result.0 < length (slot_in self.now) }
        ensures dead { result.1 ≡ true
            → IsDead (search_in self.now)
            (next_front (search_in self.now) (path_in self.now) self.now.depth result.0) }
    {
        let front = self.front(bound);
        let place = self.lookout.next(&front, self.places[self.depth]);
        let some = place < front.choices.len();
        let dead = some && !self.lookout.may_follow(&front, front.choices[place]);
        (place, dead)
    }

    // Goes on to a place of the slot, where nothing is lost up to there. No choice is looked at, so there is no try.
    fn go_on(&mut self, place: usize)
        requires from { place_in self.old ≤ place }
        requires within { place ≤ length (slot_in self.old) }
        requires dead { AllDead (search_in self.old) (path_in self.old) self.old.depth
            (place_in self.old) place }
        ensures passes { Passes self.old self.new }
        ensures at { place_in self.new ≡ place }
        ensures probes { self.new.probes ≡ self.old.probes }
    {
        if place > self.places[self.depth] {
            self.places[self.depth] = place;
            self.seeking = false;
        }
    }

    // Goes on to the next choice that may lead on by the tests that don't look at choices one by one: whether there is one, and it is looked at and
    // can't follow.
    fn go_beside(&mut self, bound: Option<u32>) -> bool
        requires { IfSome bound (λ p. is_there (path_in self.old) p ≡ true) }
        ensures passes { Passes self.old self.new }
        ensures probes { self.new.probes ≡ self.old.probes }
        ensures among { result ≡ true → place_in self.new < length (slot_in self.new) }
        ensures dead { result ≡ true → IsDead (search_in self.new) (front_in self.new) }
    {
        let (place, dead) = self.look(bound);
        self.go_on(place);
        dead
    }

    // Passes over the next choice, which can't follow. It was looked at, so that is a try, and counted.
    fn pass_over(&mut self)
        requires among { place_in self.old < length (slot_in self.old) }
        requires dead { IsDead (search_in self.old) (front_in self.old) }
        ensures passes { Passes self.old self.new }
        ensures on { place_in self.new ≡ place_in self.old + 1 }
        ensures probes { self.new.probes ≡ one_more self.old.probes }
    {
        let tries = one_more(self.probes);
        self.skip(tries);
    }

    // Goes on to the next choice that may follow, or to the end of the slot, and counts each choice that it passes over, while it may.
    pub(super) fn pass(&mut self)
        ensures passes { Passes self.old self.new }
        ensures within { StaysWithin self.old self.new }
    {
        let bound = bound_by(self.ledger.cloud, &self.path[..self.depth]);
        'choices: loop {
            if !self.go_beside(bound) {
                return;
            }
            if self.is_spent() {
                return;
            }
            self.pass_over();
        }
    }
}
