//! The classes that a query asks for, each by its number.

ghost use Rattle.std.specs.Prelude.{◌≡◌, ◌<◌, ◌≤◌, ℕ, List, length, map, IfOk};
ghost use Rattle.std.specs.List.{AllByRecursion};
ghost use Rattle.ac_base.specs.Names.{class_bytes};
ghost use Rattle.ac_query.specs.Asked.{slots_of};
ghost use Rattle.ac_query.specs.Laws.InOrder.{AreApart};
ghost use Rattle.ac_query.specs.Shown.Groups.{need_entry};
ghost use Rattle.ac_query.specs.Shown.Queries.{asked_of};
ghost use Rattle.ac_rules.specs.Placed.{slot_at};
ghost use Rattle.ac_rules.specs.Room.{IsAsked, IsKnown, class_number};
ghost use Rattle.ac_rules.specs.Shown.Classes.{with_class, with_classes};

use crate::slots::{count_slots, needs_at};
use ac_base::{ClassName, NoMemory};
use ac_query::{Need, Query};
use std::alloc::Global;

/// The number of a class among classes; past the end where it isn't there.
pub fn number_of(classes: &[&ClassName], class: &ClassName) -> usize
    ensures number { result ≡ class_number (map (λ c. class_bytes c.now) classes.now)
        (class_bytes class.now) }
    ensures within { result ≤ length classes.now }
{
    for (k, known) in classes.iter().enumerate() {
        if *known == class {
            return k;
        }
    }
    classes.len()
}

// Adds a class to a list, unless it is there.
fn with_class<'a>(
    classes: Vec<&'a ClassName>,
    class: &'a ClassName,
) -> Result<Vec<&'a ClassName>, NoMemory>
    ensures { IfOk result (λ all. map (λ c. class_bytes c.now) all.items
        ≡ with_class (map (λ c. class_bytes c.now) classes.entry.items) (class_bytes class.now)) }
{
    if number_of(&classes, class) < classes.len() {
        return Ok(classes);
    }
    let mut all = classes;
    all.push(class)?;
    Ok(all)
}

// Adds the classes of some needs to a list, each once.
fn with_classes<'a>(
    classes: Vec<&'a ClassName>,
    needs: &'a [Need],
) -> Result<Vec<&'a ClassName>, NoMemory>
    ensures { IfOk result (λ all. map (λ c. class_bytes c.now) all.items
        ≡ with_classes (map (λ c. class_bytes c.now) classes.entry.items)
        (map need_entry needs.now)) }
{
    let mut all = classes;
    for need in needs {
        all = with_class(all, need.class())?;
    }
    Ok(all)
}

/// The classes of all slots, each once.
pub fn all_classes(alloc: Global, query: &Query) -> Result<Vec<&ClassName>, NoMemory>
    ensures known { IfOk result (λ all. (s : ℕ) → s < length (slots_of (asked_of query.now))
        → AllByRecursion (λ need. IsKnown (map (λ c. class_bytes c.now) all.items) need.0)
        (slot_at (asked_of query.now) s).needs) }
    ensures asked { IfOk result (λ all. (c : List ℕ)
        → IsKnown (map (λ c. class_bytes c.now) all.items) c → IsAsked (asked_of query.now) c) }
    ensures once { IfOk result (λ all. AreApart (map (λ c. class_bytes c.now) all.items)) }
{
    let mut all = Vec::new(alloc);
    for s in 0..count_slots(query) {
        all = with_classes(all, needs_at(query, s))?;
    }
    Ok(all)
}
