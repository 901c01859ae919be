//! A walk over the forest of the providers, which tells at once who is above whom. It is drawn up, and then checked place by place.
ghost use Rattle.std.specs.Prelude.{◌≡◌, ◌<◌, ◌≤◌, ◌+◌, ◌&&◌, ℕ, Some, None, true, length, get_or, nat_le, nat_lt, IfOk, IfSome};
ghost use Rattle.ac_cloud.specs.Cloud.Places.{parent_in, along, AreParents};
ghost use Rattle.ac_cloud.specs.Cloud.Visits.{IsPlaced, IsWalk};

use std::alloc::{AllocError, Global};

// For each place the turn at which it is entered, how many were entered when it is left, and the sibling before it; and the
// places in the order of their turns.
#[derive(Drop)]
struct Draft {
    entered: Vec<u32>,
    left: Vec<u32>,
    order: Vec<u32>,
    before: Vec<Option<u32>>,
    ghost left_sized: { length left.items ≡ length entered.items },
    ghost order_sized: { length order.items ≡ length entered.items },
    ghost before_sized: { length before.items ≡ length entered.items },
}

// The last children, and the siblings before each place.
#[derive(Drop)]
struct Family {
    before: Vec<Option<u32>>,
    last: Vec<Option<u32>>,
    last_root: Option<u32>,
}

fn put(list: &mut Vec<u32>, place: u32, value: u32)
    ensures { length list.new.items ≡ length list.old.items }
{
    if (place as usize) < list.len() {
        list[place as usize] = value;
    }
}

fn look(list: &[Option<u32>], place: u32) -> Option<u32> {
    if (place as usize) < list.len() {
        list[place as usize]
    } else {
        None
    }
}

fn find_family(alloc: Global, parents: &[Option<u32>]) -> Result<Family, AllocError>
    requires few { length parents.now ≤ 65536 }
    requires known { AreParents parents.now }
    ensures { IfOk result (λ family. length family.before.items ≡ length parents.now) }
{
    let mut before = Vec::new(alloc);
    let mut last = vec![in alloc; None; parents.len()]?;
    let mut last_root = None;
    for place in 0..parents.len() {
        match parents[place] {
            Some(parent) => {
                before.push(last[parent as usize])?;
                last[parent as usize] = Some(place as u32);
            }
            None => {
                before.push(last_root)?;
                last_root = Some(place as u32);
            }
        }
    }
    Ok(Family {
        before,
        last,
        last_root,
    })
}

// A walk from the last root to the first, and below each place from its last child to its first: so turns fall.
fn make_draft(alloc: Global, parents: &[Option<u32>]) -> Result<Draft, AllocError>
    requires few { length parents.now ≤ 65536 }
    requires known { AreParents parents.now }
    ensures { IfOk result (λ draft. length draft.entered.items ≡ length parents.now) }
{
    let count = parents.len();
    let family = find_family(alloc, parents)?;
    let mut entered = vec![in alloc; 0u32; count]?;
    let mut left = vec![in alloc; 0u32; count]?;
    let mut order = vec![in alloc; 0u32; count]?;
    let mut turn = count as u32;
    let mut at = family.last_root;
    let mut entering = true;
    for _step in 0..2 * count {
        if let Some(place) = at {
            if entering {
                put(&mut left, place, turn);
                let child = look(&family.last, place);
                entering = child.is_some();
                if entering {
                    at = child;
                }
            } else {
                turn = turn.saturating_sub(1);
                put(&mut entered, place, turn);
                put(&mut order, turn, place);
                let sibling = look(&family.before, place);
                entering = sibling.is_some();
                at = if entering {
                    sibling
                } else {
                    look(parents, place)
                };
            }
        }
    }
    Ok(Draft {
        entered,
        left,
        order,
        before: family.before,
    })
}

// At which turn each place is entered, and how many were entered when it is left.
#[derive(Drop)]
pub(crate) struct Visits {
    pub(crate) entered: Vec<u32>,
    pub(crate) left: Vec<u32>,
}

impl Visits {
    // Whether a place is entered no later than another, and left after that one is entered.
    pub(crate) fn enclose(&self, a: u32, b: u32) -> bool
        requires entered { a < length self.now.entered.items }
        requires left { a < length self.now.left.items }
        requires b { b < length self.now.entered.items }
        ensures { result ≡ (nat_le (along self.now.entered.items a) (along self.now.entered.items b)
            && nat_lt (along self.now.entered.items b) (along self.now.left.items a)) }
    {
        let turn = self.entered[b as usize];
        self.entered[a as usize] <= turn && turn < self.left[a as usize]
    }
}

// Whether a place has a turn of its own and is left after it.
fn has_turn(draft: &Draft, place: usize) -> bool
    requires { place < length draft.now.entered.items }
    ensures { result ≡ true → (along draft.now.entered.items place < length draft.now.order.items)
        × (get_or draft.now.order.items (along draft.now.entered.items place) 0 ≡ place)
        × (along draft.now.entered.items place < along draft.now.left.items place) }
{
    let turn = draft.entered[place];
    if (turn as usize) < draft.order.len() && draft.order[turn as usize] as usize == place {
        turn < draft.left[place]
    } else {
        false
    }
}

// Whether a place is entered after its parent and left no later.
fn is_within_parent(parents: &[Option<u32>], draft: &Draft, place: usize) -> bool
    requires known { AreParents parents.now }
    requires sized { length draft.now.entered.items ≡ length parents.now }
    requires inside { place < length parents.now }
    ensures { result ≡ true → (q : ℕ) → parent_in parents.now place ≡ Some q
        → (along draft.now.entered.items q < along draft.now.entered.items place)
        × (along draft.now.left.items place ≤ along draft.now.left.items q) }
{
    match parents[place] {
        Some(parent) => {
            draft.entered[parent as usize] < draft.entered[place]
                && draft.left[place] <= draft.left[parent as usize]
        }
        None => true,
    }
}

// Whether a place is entered when the sibling before it is left.
fn follows_sibling(parents: &[Option<u32>], draft: &Draft, place: usize) -> bool
    requires sized { length draft.now.entered.items ≡ length parents.now }
    requires inside { place < length parents.now }
    ensures { result ≡ true → (s : ℕ) → get_or draft.now.before.items place None ≡ Some s
        → (s < length parents.now) × (parent_in parents.now s ≡ parent_in parents.now place)
        × (along draft.now.left.items s ≡ along draft.now.entered.items place) }
{
    match draft.before[place] {
        Some(sibling) => {
            if (sibling as usize) < parents.len() && parents[sibling as usize] == parents[place] {
                draft.left[sibling as usize] == draft.entered[place]
            } else {
                false
            }
        }
        None => true,
    }
}

// Whether a first child is entered right after its parent, and the first root first of all.
fn starts_well(parents: &[Option<u32>], draft: &Draft, place: usize) -> bool
    requires known { AreParents parents.now }
    requires sized { length draft.now.entered.items ≡ length parents.now }
    requires inside { place < length parents.now }
    ensures child { result ≡ true → (q : ℕ) → get_or draft.now.before.items place None ≡ None
        → parent_in parents.now place ≡ Some q
        → along draft.now.entered.items place ≡ along draft.now.entered.items q + 1 }
    ensures root { result ≡ true → get_or draft.now.before.items place None ≡ None
        → parent_in parents.now place ≡ None → along draft.now.entered.items place ≡ 0 }
{
    if draft.before[place].is_some() {
        return true;
    }
    match parents[place] {
        Some(parent) => {
            draft.entered[place].checked_sub(1) == Some(draft.entered[parent as usize])
        }
        None => draft.entered[place] == 0,
    }
}

// Whether the visit of a place agrees with those of its neighbours.
fn is_placed(parents: &[Option<u32>], draft: &Draft, place: usize) -> bool
    requires known { AreParents parents.now }
    requires sized { length draft.now.entered.items ≡ length parents.now }
    requires inside { place < length parents.now }
    ensures { result ≡ true → IsPlaced parents.now draft.now.entered.items draft.now.left.items
        draft.now.order.items draft.now.before.items place }
{
    if !has_turn(draft, place) || !is_within_parent(parents, draft, place) {
        return false;
    }
    follows_sibling(parents, draft, place) && starts_well(parents, draft, place)
}

// Whether the visit of each place agrees with those of its neighbours.
fn are_placed(parents: &[Option<u32>], draft: &Draft) -> bool
    requires known { AreParents parents.now }
    requires sized { length draft.now.entered.items ≡ length parents.now }
    ensures { result ≡ true → (b : ℕ) → b < length parents.now
        → IsPlaced parents.now draft.now.entered.items draft.now.left.items draft.now.order.items
        draft.now.before.items b }
{
    for place in 0..parents.len() {
        if !is_placed(parents, draft, place) {
            return false;
        }
    }
    true
}

// The visits of a walk over a forest, checked place by place.
pub(crate) fn walk(alloc: Global, parents: &[Option<u32>]) -> Result<Option<Visits>, AllocError>
    requires few { length parents.now ≤ 65536 }
    requires known { AreParents parents.now }
    ensures { IfOk result (λ found. IfSome found (λ v.
        IsWalk parents.now v.entered.items v.left.items)) }
{
    let draft = make_draft(alloc, parents)?;
    if are_placed(parents, &draft) {
        Ok(Some(Visits {
            entered: draft.entered,
            left: draft.left,
        }))
    } else {
        Ok(None)
    }
}
