//! An allocation request of the service in order: its allocations as they are, and the providers of
//! each group in byte order.
ghost use Rattle.std.specs.Prelude.{◌≡◌, IfOk, codes, map, option_and_then, option_map, string_bytes};
ghost use Rattle.serde_json.specs.Data.{object};
ghost use Rattle.serde_json.specs.Find.{as_str};
ghost use Rattle.serde_json.specs.View.{view, items_view, members_view};
ghost use Rattle.serde_json.specs.Written.{compact_text};
ghost use Rattle.ac_base.specs.Sorted.{rising};
ghost use Rattle.ac_base.specs.Texts.{text_cmp};
ghost use Rattle.ac_report.specs.Trees.{texts};
ghost use Rattle.ac_run.specs.Compared.{each, in_order, mappings_in_order, object_at, request_in_order, strings};

use super::floats::has_float;
use serde_json::{Map, Value, json};
use std::alloc::{AllocError, Global};
use std::collections::BTreeSet;

// The strings of some items, as a set; `None` where an item is no string.
fn strings_of<'a>(
    alloc: Global,
    items: &'a Vec<Value>,
) -> Result<Option<BTreeSet<&'a str>>, AllocError>
    ensures { IfOk result (λ found. option_map (λ set. map (λ t. t.now) set.keys) found
        ≡ option_map (rising text_cmp) (each as_str (map view items.now.items))) }
{
    let mut strings = BTreeSet::new(alloc);
    for item in items {
        match item.as_str() {
            Some(text) => strings.insert(text)?,
            None => return Ok(None),
        };
    }
    Ok(Some(strings))
}

// Some texts as an array of strings.
#[tactic(auto, unfolding(ac_report::specs::Trees::texts))]
fn text_array(alloc: Global, set: &BTreeSet<&str>) -> Result<Value, AllocError>
    ensures { IfOk result (λ value. view value ≡ texts (map (λ t. t.now) set.now.keys)) }
{
    let mut items = Vec::new(alloc);
    for text in set.iter() {
        items.push(Value::try_from_str(alloc, text)?)?;
    }
    Ok(Value::Array(items))
}

// The strings of an array, as a set; `None` where the value is no array of strings.
#[tactic(auto, using(crate::proofs::Comparing::Reading::items_back))]
fn strings_in(alloc: Global, value: &Value) -> Result<Option<BTreeSet<&str>>, AllocError>
    ensures { IfOk result (λ found. option_map (λ set. map (λ t. t.now) set.keys) found
        ≡ option_map (rising text_cmp) (strings (view value.now))) }
{
    match value.as_array() {
        Some(items) => strings_of(alloc, items),
        None => Ok(None),
    }
}

// An array of strings, put in byte order, each string once; `None` where the value is none.
#[tactic(auto, unfolding(crate::specs::Compared::in_order))]
fn array_in_order(alloc: Global, value: &Value) -> Result<Option<Value>, AllocError>
    ensures { IfOk result (λ found. option_map view found ≡ in_order (view value.now)) }
{
    match strings_in(alloc, value)? {
        Some(set) => {
            let array = text_array(alloc, &set)?;
            Ok(Some(array))
        }
        None => Ok(None),
    }
}

// Members that are arrays of strings, each put in order; `None` where one is none.
fn members_in_order(
    alloc: Global,
    members: &Map<String, Value>,
) -> Result<Option<Value>, AllocError>
    ensures { IfOk result (λ found. option_map view found
        ≡ mappings_in_order (members_view members.now.entries)) }
{
    let mut ordered = Map::new(alloc);
    for (name, member) in members.iter() {
        match array_in_order(alloc, member)? {
            Some(array) => serde_json::put(&mut ordered, alloc, name.as_str(), array)?,
            None => return Ok(None),
        }
    }
    Ok(Some(Value::Object(ordered)))
}

// The mappings of a request, in order; `None` where there are none, or no such.
fn mappings_of(alloc: Global, value: &Value) -> Result<Option<Value>, AllocError>
    ensures { IfOk result (λ found. option_map view found
        ≡ option_and_then mappings_in_order (object_at (codes "mappings") (view value.now))) }
{
    match value.get("mappings").and_then(Value::as_object) {
        Some(members) => members_in_order(alloc, members),
        None => Ok(None),
    }
}

// The allocations of a request, as they are; `None` where there are none, or no such.
fn allocations_of(value: &Value) -> Option<&Value>
    ensures { option_map (λ v. view v.now) result
        ≡ option_map object (object_at (codes "allocations") (view value.now)) }
{
    let allocations = value.get("allocations")?;
    if allocations.is_object() {
        Some(allocations)
    } else {
        None
    }
}

// The request in order of a value; `None` where it is no request.
#[tactic(auto, unfolding(crate::specs::Compared::request_in_order))]
fn request_in_order(alloc: Global, value: &Value) -> Result<Option<Value>, AllocError>
    ensures { IfOk result (λ found. option_map view found ≡ request_in_order (view value.now)) }
{
    if has_float(value) {
        return Ok(None);
    }
    let Some(allocations) = allocations_of(value) else {
        return Ok(None);
    };
    let Some(mappings) = mappings_of(alloc, value)? else {
        return Ok(None);
    };
    let request = json!(in alloc; {"allocations": allocations, "mappings": mappings})?;
    Ok(Some(request))
}

// The text of the request in order of a value; `None` where it is no request.
pub(super) fn ordered_text(alloc: Global, value: &Value) -> Result<Option<String>, AllocError>
    ensures { IfOk result (λ found. option_map string_bytes found
        ≡ option_map compact_text (request_in_order (view value.now))) }
{
    match request_in_order(alloc, value)? {
        Some(request) => {
            let text = request.to_string(alloc)?;
            Ok(Some(text))
        }
        None => Ok(None),
    }
}
