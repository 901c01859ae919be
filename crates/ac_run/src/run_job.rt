//! A run: from feeds and a job to sinks and a status.
ghost use Rattle.std.specs.Prelude.{◌≡◌, ◌≢◌, ◌≤◌, IfErr, IfOk, IfSome, Option, Some, is_some, ◌∷◌, [], Contains};
ghost use Rattle.std.specs.Io.KnownBytes.{Keeps};
ghost use Rattle.ac_base.specs.Devices.{Rises, TakesPart};
ghost use Rattle.ac_tables.specs.declared.fault.Table.{Table};
ghost use Rattle.ac_cloud.specs.Cloud.CloudWorld.{providers_of, world_of};
ghost use Rattle.ac_report.specs.Called.{AreCalled, providers_called};
ghost use Rattle.ac_run.specs.Answer.{answer, answer_named, answer_within};
ghost use Rattle.ac_run.specs.Feeds.{Bytes, FeedRose, TellBytes};
ghost use Rattle.ac_run.specs.Naming.{task_told};
ghost use Rattle.ac_run.specs.Notes.{noted, noted_in};
ghost use Rattle.ac_run.specs.Tasks.{detail_shown, task_of};
ghost use Rattle.ac_run.specs.Lines.{memory_line, output_line, tries_line};
ghost use Rattle.ac_run.specs.Refusals.{IsNamesRefused, line_told, status_told};
ghost use Rattle.ac_run.specs.Stops.{StopsIn, TaskMayStop};
ghost use Rattle.ac_run.specs.Run.{Ends, EndsIn, FailsOr, IsAnswered, IsRefused, IsUnread, IsWritten};
ghost use Rattle.ac_base.specs.Writing.{TakesLine};

use crate::answer::write_answer;
use crate::inputs::Inputs;
use crate::job::{Job, Paths};
use crate::ready::{make_ready, read_inputs};
use crate::refusal::details::names_detail;
use crate::refusal::lines::tell;
use crate::refusal::{NamesRefusal, Refusal, Refused};
use crate::wanted::named::Naming;
use crate::wanted::named::texts::{Texts, read_names};
use ac_base::{Feed, NoMemory, Sink};
use ac_report::{Names, PageFault};
use ac_tables::Cloud;
use std::alloc::Global;

// Writes the answer to a job over a cloud, its lines by names where they are given: its status and what is to be told behind it, or why there is none.
fn answer_over<W: Sink>(
    alloc: Global,
    job: &Job,
    cloud: &Cloud,
    names: Option<&Names<'_>>,
    out: &mut W,
) -> Result<(u8, Vec<u8>), Refused>
    requires named { is_some names ≡ is_some (task_of job.now).names }
    requires names { IfSome names (λ names.
        AreCalled (providers_called (providers_of cloud.now)) names.now) }
    ensures few { IfOk result (λ answered. answered.0 ≤ 1) }
    ensures note { IfOk result (λ answered.
        answered.1.items ≡ noted_in (task_of job.now) (world_of cloud.now)) }
    ensures ok { IfOk result (λ answered. IsWritten
        (answer_within (task_of job.now) (world_of cloud.now))
        (W.taken out.old) (W.taken out.new) answered.0) }
    ensures fault { IfErr result (λ told. EndsIn
        (answer_within (task_of job.now) (world_of cloud.now))
        (StopsIn (task_of job.now) (world_of cloud.now)) (line_told told) (status_told told)
        (out.new ≡ out.old) (W.taken out.old) (W.taken out.new)
        (W.failures out.old) (W.failures out.new)) }
    ensures failures { W.failures out.old ≤ W.failures out.new }
{
    let ready = match make_ready(alloc, job, cloud) {
        Ok(ready) => ready,
        Err(refused) => return Err(refused),
    };
    match write_answer(alloc, cloud, names, &ready.wanted, job.tries, out) {
        Ok(status) => Ok((status, ready.note)),
        Err(PageFault::WriteFailed) => Err(Refused::of(alloc, Refusal::Output)),
        Err(PageFault::NoMemory) => Err(Refused::of(alloc, Refusal::NoMemory)),
        Err(PageFault::TooManyTries) => Err(Refused::of(alloc, Refusal::TooManyTries)),
    }
}

/// Why names can't be read, with what stands behind that line where more is told.
pub fn refuse_names(alloc: Global, detail: Option<&Paths>, refusal: NamesRefusal) -> Refused
    ensures { IsNamesRefused (detail_shown detail.entry) refusal result }
{
    let text = names_detail(alloc, detail, refusal);
    Refused::new(alloc, Refusal::Names(refusal), text)
}

// Writes the answer to a job in which names stand in place of UUIDs, over a cloud: those of aggregates are what this table says.
fn answer_named<W: Sink>(
    alloc: Global,
    job: &Job,
    cloud: &Cloud,
    table: &[u8],
    out: &mut W,
) -> Result<(u8, Vec<u8>), Refused>
    requires { (task_of job.now).names ≡ Some table.now }
    ensures few { IfOk result (λ answered. answered.0 ≤ 1) }
    ensures note { IfOk result (λ answered. answered.1.items
        ≡ noted_in (task_told (task_of job.now) (world_of cloud.now)) (world_of cloud.now)) }
    ensures ok { IfOk result (λ answered. IsWritten
        (answer_named (task_of job.now) (world_of cloud.now))
        (W.taken out.old) (W.taken out.new) answered.0) }
    ensures fault { IfErr result (λ told. EndsIn
        (answer_named (task_of job.now) (world_of cloud.now))
        (StopsIn (task_told (task_of job.now) (world_of cloud.now)) (world_of cloud.now))
        (line_told told) (status_told told)
        (out.new ≡ out.old) (W.taken out.old) (W.taken out.new)
        (W.failures out.old) (W.failures out.new)) }
    ensures failures { W.failures out.old ≤ W.failures out.new }
{
    let called = match read_names(alloc, table) {
        Ok(called) => called,
        Err(refusal) => return Err(refuse_names(alloc, job.detail, refusal)),
    };
    let naming = match Naming::new(alloc, cloud, &called) {
        Ok(naming) => naming,
        Err(NoMemory) => return Err(refuse_names(alloc, job.detail, NamesRefusal::NoMemory)),
    };
    let texts = match Texts::read(alloc, job, &naming) {
        Ok(texts) => texts,
        Err(refusal) => return Err(refuse_names(alloc, job.detail, refusal)),
    };
    answer_over(alloc, &texts.job(job), cloud, Some(&naming.providers), out)
}

// Reads the tables in their order, then the names, the query and the token, and writes the answer: its status and what is to be told behind it, or why there is none.
fn answer_job<R: Feed, W: Sink>(
    alloc: Global,
    job: &Job,
    inputs: &mut Inputs<R>,
    out: &mut W,
) -> Result<(u8, Vec<u8>), Refused>
    ensures few { IfOk result (λ answered. answered.0 ≤ 1) }
    ensures note { IfOk result (λ answered. (b : Bytes) → TellBytes R.remaining inputs.old b
        → answered.1.items ≡ noted (task_of job.now) b) }
    ensures ok { IfOk result (λ answered. (b : Bytes) → TellBytes R.remaining inputs.old b
        → IsWritten (answer (task_of job.now) b) (W.taken out.old) (W.taken out.new) answered.0) }
    ensures fault { IfErr result (λ told. Ends R.remaining R.failures (task_of job.now).detail
        (answer (task_of job.now)) (TaskMayStop (task_of job.now)) inputs.old inputs.new
        (line_told told) (status_told told) (out.new ≡ out.old)
        (W.taken out.old) (W.taken out.new) (W.failures out.old) (W.failures out.new)) }
    ensures failures { W.failures out.old ≤ W.failures out.new }
{
    let cloud = read_inputs(alloc, job.detail, job.changes, inputs)?;
    match job.names {
        Some(table) => answer_named(alloc, job, &cloud, table, out),
        None => answer_over(alloc, job, &cloud, None, out),
    }
}

/// Runs a job: reads the tables in their order, then the names, the query and the token, and writes the answer. Answers the status, and in `note` what is to be told
/// behind an answer, once it is handed on: where the service may answer otherwise.
///
/// 0: written; 1: the verdict is no candidate, or there is none to explain; 3: a table or its reading refused; 4: the query refused; 5: the token
/// refused; 6: the output failed; 7: want of memory; 8: the search made as many tries as it may. With 3 to 8 a line on the error sink says so.
pub fn run<R: Feed, W: Sink, E: Sink>(
    alloc: Global,
    job: &Job,
    inputs: &mut Inputs<R>,
    out: &mut W,
    err: &mut E,
    note: &mut Vec<u8>,
) -> u8
    // Where memory and tries suffice and no device fails: exactly the answer.
    ensures answered { result ≢ 7 → result ≢ 8
        → ((t : Table) → FeedRose R.failures inputs.old inputs.new t → ⊥)
        → (Rises (W.failures out.old) (W.failures out.new) → ⊥)
        → (Rises (E.failures err.old) (E.failures err.new) → ⊥)
        → (b : Bytes) → TellBytes R.remaining inputs.old b
        → IsAnswered (answer (task_of job.now) b) (W.taken out.old) (W.taken out.new)
        (E.taken err.old) (E.taken err.new) result }

    // Whatever the devices do: what each status says.
    ensures written { result ≤ 1 → (b : Bytes) → TellBytes R.remaining inputs.old b
        → IsAnswered (answer (task_of job.now) b) (W.taken out.old) (W.taken out.new)
        (E.taken err.old) (E.taken err.new) result }
    ensures tables { result ≡ 3 → (failed : Option Table)
        × FailsOr (λ t. IsUnread (FeedRose R.failures inputs.old inputs.new t)
        (task_of job.now).detail t
        (E.taken err.old) (E.taken err.new) (E.failures err.old) (E.failures err.new))
        ((b : Bytes) → TellBytes R.remaining inputs.old b
        → IsRefused (answer (task_of job.now) b) (E.taken err.old) (E.taken err.new)
        (E.failures err.old) (E.failures err.new) result)
        failed }
    ensures query { result ≡ 4 → (b : Bytes) → TellBytes R.remaining inputs.old b
        → IsRefused (answer (task_of job.now) b) (E.taken err.old) (E.taken err.new)
        (E.failures err.old) (E.failures err.new) result }
    ensures token { result ≡ 5 → (b : Bytes) → TellBytes R.remaining inputs.old b
        → IsRefused (answer (task_of job.now) b) (E.taken err.old) (E.taken err.new)
        (E.failures err.old) (E.failures err.new) result }
    ensures untouched { 3 ≤ result → result ≤ 5 → Keeps (W.taken out.old) (W.taken out.new) }
    ensures same { 3 ≤ result → result ≤ 5 → out.new ≡ out.old }
    ensures output { result ≡ 6 → Rises (W.failures out.old) (W.failures out.new)
        × TakesLine (E.taken err.old) (E.taken err.new)
        (E.failures err.old) (E.failures err.new) output_line }
    ensures memory { result ≡ 7 → TakesLine (E.taken err.old) (E.taken err.new) (E.failures err.old)
        (E.failures err.new) memory_line }
    ensures tries { result ≡ 8 → TakesLine (E.taken err.old) (E.taken err.new) (E.failures err.old)
        (E.failures err.new) tries_line }
    ensures stopped { result ≡ 8 → (b : Bytes) → TellBytes R.remaining inputs.old b
        → TaskMayStop (task_of job.now) b }
    ensures part { 6 ≤ result → (b : Bytes) → TellBytes R.remaining inputs.old b
        → TakesPart (W.taken out.old) (W.taken out.new) (answer (task_of job.now) b).output }
    ensures status { Contains (0 ∷ 1 ∷ 3 ∷ 4 ∷ 5 ∷ 6 ∷ 7 ∷ 8 ∷ []) result }
    ensures silent { result ≤ 1 → err.new ≡ err.old }
    ensures note { result ≤ 1 → (b : Bytes) → TellBytes R.remaining inputs.old b
        → note.new.items ≡ noted (task_of job.now) b }
    ensures failures { W.failures out.old ≤ W.failures out.new }
    ensures err_failures { E.failures err.old ≤ E.failures err.new }
{
    match answer_job(alloc, job, inputs, out) {
        Ok((status, told)) => {
            *note = told;
            status
        }
        Err(refused) => tell(err, &refused),
    }
}
