//! Trees without an inventory, and those that have processors and no storage.
ghost use Rattle.std.specs.Prelude.{◌≡◌, ◌<◌, ◌||◌, ℕ, IfOk, None, Some, codes, false, length, option_map, slice_index_or, string_bytes};
ghost use Rattle.ac_base.specs.Names.{class_bytes};
ghost use Rattle.ac_cloud.specs.Cloud.CloudWorld.{providers_of};
ghost use Rattle.ac_cloud.specs.World.{provider_at};
ghost use Rattle.ac_find.specs.Audit.{is_in_tree, no_inventory, no_storage, somebody_in_tree};
ghost use Rattle.ac_find.specs.Shown.Audit.{AreStored, AreTreeMarks, AreTrees, has_one};

use crate::furthest::roots_with;
use ac_base::{ClassName, NoMemory};
use ac_cloud::Cloud;
use std::alloc::Global;

// Whether a provider has an inventory of a class, or of some class where none is named.
#[tactic(auto, unfolding(crate::specs::Explained::has_inventory))]
fn has_one(cloud: &Cloud, ix: u32, class: Option<&ClassName>) -> bool
    requires { ix < length (providers_of cloud.now) }
    ensures { result ≡ has_one (option_map (λ c. class_bytes c.now) class.entry)
        (provider_at (providers_of cloud.now) ix) }
{
    match class {
        Some(class) => cloud.inventory(ix, class).is_some(),
        None => !cloud.entries(ix).is_empty(),
    }
}

// Marks the root of a provider that has one.
fn mark_root(cloud: &Cloud, ix: u32, class: Option<&ClassName>, marks: &mut [bool])
    requires long { length marks.old ≡ length (providers_of cloud.now) }
    requires provider { ix < length (providers_of cloud.now) }
    ensures long { length marks.new ≡ length marks.old }
    ensures marked { (r : ℕ) → r < length marks.old
        → slice_index_or marks.new r false ≡ (slice_index_or marks.old r false
        || is_in_tree (providers_of cloud.now)
        (has_one (option_map (λ c. class_bytes c.now) class.entry)) r ix) }
{
    if has_one(cloud, ix, class) {
        marks[cloud.root(ix) as usize] = true;
    }
}

// Marks the roots of all these.
fn mark_roots(cloud: &Cloud, class: Option<&ClassName>, marks: &mut [bool])
    requires long { length marks.old ≡ length (providers_of cloud.now) }
    ensures long { length marks.new ≡ length marks.old }
    ensures marked { (r : ℕ) → r < length marks.old
        → slice_index_or marks.new r false ≡ (slice_index_or marks.old r false
        || somebody_in_tree (providers_of cloud.now)
        (has_one (option_map (λ c. class_bytes c.now) class.entry)) r) }
{
    for ix in 0..cloud.len() {
        mark_root(cloud, ix, class, marks);
    }
}

// In which trees some provider has an inventory of a class, or of some class where none is named.
fn trees_with(
    alloc: Global,
    cloud: &Cloud,
    class: Option<&ClassName>,
) -> Result<Vec<bool>, NoMemory>
    ensures { IfOk result (λ marks. AreTrees (providers_of cloud.now)
        (option_map (λ c. class_bytes c.now) class.entry) marks.items) }
{
    let mut marks = vec![in alloc; false; cloud.len() as usize]?;
    mark_roots(cloud, class, &mut marks);
    Ok(marks)
}

// The resource class of a valid name.
fn class_named(alloc: Global, name: &[u8]) -> Result<ClassName, NoMemory>
    ensures { IfOk result (λ class. class_bytes class ≡ name.now) }
{
    ClassName::read(alloc, name)?.ok_or(NoMemory)
}

// In which trees some provider has processors.
fn trees_with_processors(alloc: Global, cloud: &Cloud) -> Result<Vec<bool>, NoMemory>
    ensures { IfOk result (λ marks. AreTrees (providers_of cloud.now)
        (Some (codes "VCPU")) marks.items) }
{
    let class = class_named(alloc, b"VCPU")?;
    trees_with(alloc, cloud, Some(&class))
}

// At which roots storage is available.
fn roots_with_storage(alloc: Global, cloud: &Cloud) -> Result<Vec<bool>, NoMemory>
    ensures { IfOk result (λ marks. AreStored (providers_of cloud.now) marks.items) }
{
    let class = class_named(alloc, b"DISK_GB")?;
    let marks = roots_with(alloc, cloud, &class)?;
    Ok(marks)
}

/// Which trees have an inventory, which have processors, and at which roots storage is available.
#[derive(Drop)]
pub(crate) struct TreeMarks {
    held: Vec<bool>,
    processors: Vec<bool>,
    storage: Vec<bool>,
}

impl TreeMarks {
    /// Those of a cloud.
    pub(crate) fn find(alloc: Global, cloud: &Cloud) -> Result<TreeMarks, NoMemory>
        ensures { IfOk result (λ marks. AreTreeMarks (providers_of cloud.now) marks) }
    {
        Ok(TreeMarks {
            held: trees_with(alloc, cloud, None)?,
            processors: trees_with_processors(alloc, cloud)?,
            storage: roots_with_storage(alloc, cloud)?,
        })
    }

    /// No provider of a tree has an inventory.
    pub(crate) fn no_inventory(
        &self,
        alloc: Global,
        cloud: &Cloud,
        ix: u32,
    ) -> Result<Option<String>, NoMemory>
        requires marks { AreTreeMarks (providers_of cloud.now) self.now }
        requires provider { ix < length (providers_of cloud.now) }
        ensures { IfOk result (λ detail. option_map string_bytes detail
            ≡ no_inventory (providers_of cloud.now) ix) }
    {
        if cloud.provider(ix).is_root() && !self.held[ix as usize] {
            let words = "no provider of its tree has one";
            Ok(Some(String::from_str(alloc, words)?))
        } else {
            Ok(None)
        }
    }

    /// A tree has processors, and no storage is available there.
    pub(crate) fn no_storage(
        &self,
        alloc: Global,
        cloud: &Cloud,
        ix: u32,
    ) -> Result<Option<String>, NoMemory>
        requires marks { AreTreeMarks (providers_of cloud.now) self.now }
        requires provider { ix < length (providers_of cloud.now) }
        ensures { IfOk result (λ detail. option_map string_bytes detail
            ≡ no_storage (providers_of cloud.now) ix) }
    {
        let at = ix as usize;
        if cloud.provider(ix).is_root() && self.processors[at] && !self.storage[at] {
            let words = "VCPU in its tree, and no DISK_GB there, its own or shared";
            Ok(Some(String::from_str(alloc, words)?))
        } else {
            Ok(None)
        }
    }
}
