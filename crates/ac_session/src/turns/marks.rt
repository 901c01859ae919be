//! Marks: what was used of each inventory, and what each name stood for.
ghost use Rattle.std.specs.Prelude.{◌≡◌, ◌<◌, ◌++◌, ◌∷◌, [], IfOk, OnOk, length, map};
ghost use Rattle.ac_cloud.specs.Cloud.CloudWorld.{providers_of, world_of};
ghost use Rattle.ac_session.specs.Held.{mark_shown, marked, named_in};
ghost use Rattle.ac_session.specs.Marks.{kept_at, kept_shown, restored};

use super::names::Names;
use ac_base::{ClassName, NoMemory};
use ac_tables::Cloud;
use std::alloc::Global;

/// How much of a class of a provider was used.
#[derive(Drop)]
pub(crate) struct Kept {
    place: u32,
    class: ClassName,
    used: u64,
}

/// What was used of each inventory, and what each name stood for.
#[derive(Drop)]
pub(crate) struct Mark {
    used: Vec<Kept>,
    names: Names,
}

// Adds what is used of a provider.
fn keep_provider(kept: &mut Vec<Kept>, cloud: &Cloud, ix: u32) -> Result<(), NoMemory>
    requires { ix < length (providers_of cloud.now) }
    ensures { OnOk result (map kept_shown kept.new.items
        ≡ map kept_shown kept.old.items ++ kept_at (providers_of cloud.now) ix) }
{
    for entry in cloud.entries(ix) {
        let class = entry.class().clone()?;
        kept.push(Kept {
            place: ix,
            class,
            used: entry.used(),
        })?;
    }
    Ok(())
}

// Uses of a class of its provider as much as was kept.
fn use_one(kept: &Kept, cloud: &mut Cloud)
    ensures providers { providers_of cloud.new
        ≡ restored (kept_shown kept.now ∷ []) (providers_of cloud.old) }
    ensures sizes { (world_of cloud.new).sizes ≡ (world_of cloud.old).sizes }
{
    if kept.place < cloud.len() {
        cloud.set_used(kept.place, &kept.class, kept.used);
    }
}

// Uses of each inventory as much as was kept.
fn use_again(kept: &[Kept], cloud: &mut Cloud)
    ensures providers { providers_of cloud.new
        ≡ restored (map kept_shown kept.now) (providers_of cloud.old) }
    ensures sizes { (world_of cloud.new).sizes ≡ (world_of cloud.old).sizes }
{
    for one in kept {
        use_one(one, cloud);
    }
}

impl Mark {
    /// A mark of a cloud as it stands, and of its names.
    pub(super) fn new(alloc: Global, cloud: &Cloud, names: &Names) -> Result<Mark, NoMemory>
        ensures { IfOk result (λ mark. mark_shown mark
            ≡ marked (world_of cloud.now) (named_in names.now)) }
    {
        let mut used = Vec::new(alloc);
        for ix in 0..cloud.len() {
            keep_provider(&mut used, cloud, ix)?;
        }
        let names = names.copy()?;
        Ok(Mark { used, names })
    }

    /// Uses of each inventory as much as then, and gives the names.
    pub(super) fn restore(self, cloud: &mut Cloud) -> Names
        ensures providers { providers_of cloud.new
            ≡ restored (mark_shown self).used (providers_of cloud.old) }
        ensures sizes { (world_of cloud.new).sizes ≡ (world_of cloud.old).sizes }
        ensures names { named_in result ≡ (mark_shown self).named }
    {
        let Mark { used, names } = self;
        use_again(&used, cloud);
        names
    }
}
