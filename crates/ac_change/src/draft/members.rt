//! Traits and aggregates in order, with one more or one less.
ghost use Rattle.std.specs.Prelude.{◌≡◌, map, IfOk};
ghost use Rattle.std.specs.List.{filter};
ghost use Rattle.std.specs.Ordering.{is_eq, is_lt, nat_cmp};
ghost use Rattle.ac_base.specs.Names.{trait_bytes};
ghost use Rattle.ac_base.specs.Texts.{text_cmp};
ghost use Rattle.ac_change.specs.Changes.{with_item, without_item};

use ac_base::{Id, NoMemory, TraitName};
use std::alloc::Global;

// The same names.
pub(crate) fn copy_names(alloc: Global, names: &[TraitName]) -> Result<Vec<TraitName>, NoMemory>
    ensures { IfOk result (λ copies. map trait_bytes copies.items ≡ map trait_bytes names.now) }
{
    let mut copies = Vec::new(alloc);
    for name in names {
        copies.push(name.clone()?)?;
    }
    Ok(copies)
}

// Whether a name stands before another in the order of their bytes.
fn is_before(name: &TraitName, other: &TraitName) -> bool
    ensures { result ≡ is_lt (text_cmp (trait_bytes name.now) (trait_bytes other.now)) }
{
    name.cmp(other).is_lt()
}

// Whether two names are one.
fn is_same(name: &TraitName, other: &TraitName) -> bool
    ensures { result ≡ is_eq (text_cmp (trait_bytes name.now) (trait_bytes other.now)) }
{
    name.cmp(other).is_eq()
}

// The names before one.
fn names_before(
    alloc: Global,
    names: &[TraitName],
    name: &TraitName,
) -> Result<Vec<TraitName>, NoMemory>
    ensures { IfOk result (λ new. map trait_bytes new.items
        ≡ filter (λ y. is_lt (text_cmp y (trait_bytes name.now))) (map trait_bytes names.now)) }
{
    let mut new = Vec::new(alloc);
    for other in names {
        if is_before(other, name) {
            new.push(other.clone()?)?;
        }
    }
    Ok(new)
}

// The names behind one.
fn names_behind(
    alloc: Global,
    names: &[TraitName],
    name: &TraitName,
) -> Result<Vec<TraitName>, NoMemory>
    ensures { IfOk result (λ new. map trait_bytes new.items
        ≡ filter (λ y. is_lt (text_cmp (trait_bytes name.now) y)) (map trait_bytes names.now)) }
{
    let mut new = Vec::new(alloc);
    for other in names {
        if is_before(name, other) {
            new.push(other.clone()?)?;
        }
    }
    Ok(new)
}

// The names before one, itself, and those behind it.
pub(crate) fn with_name(
    alloc: Global,
    names: &[TraitName],
    name: &TraitName,
) -> Result<Vec<TraitName>, NoMemory>
    ensures { IfOk result (λ new. map trait_bytes new.items
        ≡ with_item text_cmp (trait_bytes name.now) (map trait_bytes names.now)) }
{
    let mut new = names_before(alloc, names, name)?;
    let mut behind = names_behind(alloc, names, name)?;
    new.push(name.clone()?)?;
    new.append(&mut behind)?;
    Ok(new)
}

// The names but one.
pub(crate) fn without_name(
    alloc: Global,
    names: &[TraitName],
    name: &TraitName,
) -> Result<Vec<TraitName>, NoMemory>
    ensures { IfOk result (λ new. map trait_bytes new.items
        ≡ without_item text_cmp (trait_bytes name.now) (map trait_bytes names.now)) }
{
    let mut new = Vec::new(alloc);
    for other in names {
        if !is_same(other, name) {
            new.push(other.clone()?)?;
        }
    }
    Ok(new)
}

// The aggregates before one.
fn ids_before(alloc: Global, ids: &[Id], id: Id) -> Result<Vec<Id>, NoMemory>
    ensures { IfOk result (λ new. new.items ≡ filter (λ y. is_lt (nat_cmp y id)) ids.now) }
{
    let mut new = Vec::new(alloc);
    for &other in ids {
        if other < id {
            new.push(other)?;
        }
    }
    Ok(new)
}

// The aggregates behind one.
fn ids_behind(alloc: Global, ids: &[Id], id: Id) -> Result<Vec<Id>, NoMemory>
    ensures { IfOk result (λ new. new.items ≡ filter (λ y. is_lt (nat_cmp id y)) ids.now) }
{
    let mut new = Vec::new(alloc);
    for &other in ids {
        if id < other {
            new.push(other)?;
        }
    }
    Ok(new)
}

// The aggregates before one, itself, and those behind it.
pub(crate) fn with_id(alloc: Global, ids: &[Id], id: Id) -> Result<Vec<Id>, NoMemory>
    ensures { IfOk result (λ new. new.items ≡ with_item nat_cmp id ids.now) }
{
    let mut new = ids_before(alloc, ids, id)?;
    let mut behind = ids_behind(alloc, ids, id)?;
    new.push(id)?;
    new.append(&mut behind)?;
    Ok(new)
}

// The aggregates but one.
pub(crate) fn without_id(alloc: Global, ids: &[Id], id: Id) -> Result<Vec<Id>, NoMemory>
    ensures { IfOk result (λ new. new.items ≡ without_item nat_cmp id ids.now) }
{
    let mut new = Vec::new(alloc);
    for &other in ids {
        if other != id {
            new.push(other)?;
        }
    }
    Ok(new)
}
