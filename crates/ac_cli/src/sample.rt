//! Built-in tables: those of the job that the program does without words, and the headers over which a command is run that is about no tables.
ghost use Rattle.std.specs.Prelude.{◌≡◌};
ghost use Rattle.ac_run.specs.Feeds.{TellBytes};
ghost use Rattle.ac_run.specs.Tasks.{task_of};
ghost use Rattle.ac_cli.specs.Program.{header_bytes, sample_bytes, sample_task};

use crate::memory::MemFile;
use ac_base::Feed;
use ac_query::Version;
use ac_run::{Command, Inputs, Job};

const PROVIDERS: &str = "\
uuid,root_provider_uuid,parent_provider_uuid
00000000-0000-0000-0000-000000000001,00000000-0000-0000-0000-000000000001,
";

const INVENTORIES: &str = "\
resource_provider,resource_class,total,reserved,min_unit,max_unit,step_size,allocation_ratio
00000000-0000-0000-0000-000000000001,VCPU,8,0,1,8,1,1.0
";

const PROVIDERS_HEADER: &str = "uuid,root_provider_uuid,parent_provider_uuid\n";

const INVENTORIES_HEADER: &str = "\
resource_provider,resource_class,total,reserved,min_unit,max_unit,step_size,allocation_ratio\n";

/// The job.
pub fn job() -> Job<'static>
    ensures { task_of result ≡ sample_task }
{
    Job {
        command: Command::Tokens {
            after: None,
            at: None,
        },
        query: "resources=VCPU:2",
        version: Version::V136,
        tries: None,
        changes: None,
        names: None,
        detail: None,
    }
}

/// Its tables.
#[tactic(auto, unfolding(crate::specs::Program::sample_bytes))]
pub fn inputs() -> Inputs<MemFile<'static>>
    ensures { TellBytes ⟦<MemFile<'static> as Feed>⟧.remaining result sample_bytes }
{
    Inputs {
        providers: MemFile::new(PROVIDERS.as_bytes()),
        inventories: MemFile::new(INVENTORIES.as_bytes()),
        usages: None,
        traits: None,
        aggregates: None,
    }
}

/// The headers of tables, and no rows.
#[tactic(auto, unfolding(crate::specs::Program::header_bytes))]
pub fn headers() -> Inputs<MemFile<'static>>
    ensures { TellBytes ⟦<MemFile<'static> as Feed>⟧.remaining result header_bytes }
{
    Inputs {
        providers: MemFile::new(PROVIDERS_HEADER.as_bytes()),
        inventories: MemFile::new(INVENTORIES_HEADER.as_bytes()),
        usages: None,
        traits: None,
        aggregates: None,
    }
}
