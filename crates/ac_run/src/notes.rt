//! What is told behind an answer, where more is told: that nothing counts as used, and where the service may answer otherwise.
ghost use Rattle.std.specs.Prelude.{◌≡◌, IfOk};
ghost use Rattle.ac_cloud.specs.Cloud.CloudWorld.{world_of};
ghost use Rattle.ac_run.specs.Notes.{note_to, told_behind, usages_told};
ghost use Rattle.ac_run.specs.Tasks.{command_shown, paths_shown, task_of};

use crate::job::{Command, Job, Paths};
use crate::wanted::Wanted;
use ac_base::NoMemory;
use ac_cloud::Cloud;
use ac_report::findings::differences_text;
use std::alloc::Global;

/// What is told behind the answer to what is wanted.
pub(crate) fn note_to(alloc: Global, cloud: &Cloud, wanted: &Wanted) -> Result<Vec<u8>, NoMemory>
    ensures { IfOk result (λ note. note.items ≡ note_to wanted.now (world_of cloud.now)) }
{
    match wanted {
        Wanted::Lines(page) => differences_text(alloc, cloud, &page.query, true),
        Wanted::Fill(query, _) | Wanted::Hosts { query, .. } | Wanted::Comparison(query, _) => {
            differences_text(alloc, cloud, query, true)
        }
        _ => Ok(Vec::new(alloc)),
    }
}

// What is told of the usages, where more is told.
#[tactic(auto, unfolding(crate::specs::Notes::none_given, crate::specs::Notes::none_listed))]
fn usages_told(command: Command, paths: &Paths, cloud: &Cloud) -> &'static [u8]
    ensures { result.now ≡ usages_told (command_shown command.entry) (paths_shown paths.now).usages
        (world_of cloud.now) }
{
    match (command, paths.usages) {
        (Command::Query | Command::Parameters, _) => b"",
        (Command::Check, Some(_)) if cloud.counts().usages == 0 => {
            b"usages: the table has no rows, so nothing counts as used\n"
        }
        (_, Some(_)) => b"",
        (_, None) => b"usages: no table is given, so nothing counts as used\n",
    }
}

/// What is told behind the answer to a job, where more is told: of the usages, and of what is wanted.
pub(crate) fn note_if_told(
    alloc: Global,
    job: &Job,
    cloud: &Cloud,
    wanted: &Wanted,
) -> Result<Vec<u8>, NoMemory>
    ensures { IfOk result (λ note. note.items ≡ told_behind (task_of job.now).command
        (task_of job.now).detail (world_of cloud.now) (note_to wanted.now (world_of cloud.now))) }
{
    let Some(paths) = job.detail else {
        return Ok(Vec::new(alloc));
    };
    let mut note = usages_told(job.command, paths, cloud).to_vec(alloc)?;
    let mut more = note_to(alloc, cloud, wanted)?;
    note.append(&mut more)?;
    Ok(note)
}
