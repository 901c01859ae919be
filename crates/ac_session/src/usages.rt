//! The table of usages as it stands, as `--usages` reads it.
ghost use Rattle.ac_cloud.specs.Cloud.CloudWorld.{providers_of};
ghost use Rattle.ac_run.specs.Run.{Delivers};
ghost use Rattle.ac_session.specs.UsageRows.{usage_rows};

use ac_base::{Sink, push_all};
use ac_cloud::Cloud;
use ac_report::PageFault;
use ac_tables::{usages_fit, usages_text};
use std::alloc::Global;

/// Writes the table of usages, or, where more is used than may stand in one, a line that says so.
#[tactic(auto, unfolding(crate::specs::UsageRows::usage_rows), using(ac_base::proofs::Leaving::part_none))]
pub fn write_usages<W: Sink>(alloc: Global, cloud: &Cloud, out: &mut W) -> Result<u8, PageFault>
    ensures { Delivers (usage_rows (providers_of cloud.now)) ⊥ result (W.taken out.old)
        (W.taken out.new) (W.failures out.old) (W.failures out.new) }
{
    if usages_fit(cloud) {
        let text = usages_text(alloc, cloud)?;
        push_all(out, &text)?;
        return Ok(0);
    }
    push_all(out, b"too much in use to be written\n")?;
    Ok(1)
}
