//! What a session holds between its questions.
ghost use Rattle.std.specs.Prelude.{◌≡◌};
ghost use Rattle.ac_cloud.specs.Cloud.CloudWorld.{world_of};
ghost use Rattle.ac_session.specs.Held.{held_of, unnamed};

use super::marks::Mark;
use super::names::Names;
use ac_tables::Cloud;
use std::alloc::Global;

/// The cloud as it stands, what each name stands for, and what was marked, the last behind the others.
#[derive(Drop)]
pub(crate) struct Held {
    pub(super) cloud: Cloud,
    pub(super) names: Names,
    pub(super) marks: Vec<Mark>,
}

impl Held {
    /// A cloud, and neither names nor marks.
    pub(crate) fn new(alloc: Global, cloud: Cloud) -> Held
        ensures { held_of result ≡ unnamed (world_of cloud) }
    {
        Held {
            cloud,
            names: Names::new(alloc),
            marks: Vec::new(alloc),
        }
    }
}
