//! What is to be done, and how refusals are told.
use ac_query::Version;
use ac_tables::FiveTables;

/// The paths of the tables' files, as they were given.
pub type Paths<'a> = FiveTables<&'a str>;

/// What is to be done with the tables, or asked of them.
#[derive(Clone, Copy, Debug, PartialEq, Eq)]
pub enum Command<'a> {
    /// Checks the tables, and writes the size of each.
    Check,
    /// Writes the candidates after a token, or all, as JSON with summaries of their providers; with or without traits. Where a host is named, those at its root.
    Candidates {
        after: Option<&'a str>,
        at: Option<&'a str>,
        traits: bool,
    },
    /// Writes each candidate after a token, or all, as a token, one a line. Where a host is named, those at its root.
    Tokens {
        after: Option<&'a str>,
        at: Option<&'a str>,
    },
    /// Writes a row for each provider of each candidate after a token, or of all, as a table; with or without traits. Where a host is named, those at its root.
    List {
        after: Option<&'a str>,
        at: Option<&'a str>,
        traits: bool,
    },
    /// Places again and again, each time at the first candidate that is left, and writes each placement as a token, or how many there are.
    Fill {
        sum: bool,
    },
    /// Writes whether a token is a candidate.
    Verify {
        token: &'a str,
    },
    /// Writes how many providers and roots come how far, and whether there is a candidate.
    Explain,
    /// Writes at which roots candidates stand, and what the others lack, or how many of them lack what: of all roots, or of those of an aggregate, which is
    /// named by its UUID as a number; and of these those alone that fit, where only they are asked for.
    Hosts {
        sum: bool,
        only_fitting: bool,
        within: Option<u128>,
    },
    /// Writes how far each provider of a host comes, and what it lacks. A host is a provider's UUID, or a name that no other provider has.
    Why {
        host: &'a str,
    },
    /// Writes for each flavor of a table at how many hosts it fits, how many of it can be placed, and what is short: as rows, or as metrics.
    Capacity {
        flavors: &'a [u8],
        metrics: bool,
    },
    /// Writes how an answer of the service, as bytes of JSON, differs from the candidates.
    Compare {
        answer: &'a [u8],
    },
    /// Writes what is amiss in the cloud, with an aggregate as the zone of hosts, which is named by its UUID, or with none.
    Audit {
        zone: Option<&'a str>,
    },
    /// Writes how a query is read: a row for each slot, what it asks of the whole, and the query written plainly.
    Query,
    /// Writes the parameters of a query, a line each with an example.
    Parameters,
}

/// What is to be done, for which query.
#[derive(Clone, Copy)]
pub struct Job<'a> {
    pub command: Command<'a>,
    /// What is asked for; empty for `Check`, `Capacity`, `Audit` and `Parameters`.
    pub query: &'a str,
    /// The microversion of the API by which queries are read; for `Check`, `Audit` and `Parameters` it says nothing.
    pub version: Version,
    /// How many tries each search may make; without a number, as many as it takes.
    pub tries: Option<u64>,
    /// What is changed of the cloud before anything is asked of it, a line each.
    pub changes: Option<&'a [u8]>,
    /// The table of names of aggregates, where names stand in place of UUIDs: those of providers and of aggregates in the query and the token, and in lines of
    /// placements and of tokens the names of providers.
    pub names: Option<&'a [u8]>,
    /// The paths of the tables' files, where more is told: behind the line of a refusal what to do about it, of a verdict of what a rule is broken, and in the
    /// note of a run where the service may answer otherwise.
    pub detail: Option<&'a Paths<'a>>,
}

impl<'a> Command<'a> {
    ghost use Rattle.std.specs.Prelude.{◌≡◌, option_map};
    ghost use Rattle.ac_run.specs.Naming.{with_flavors, with_token};
    ghost use Rattle.ac_run.specs.Tasks.{command_shown, flavors_in, host_in, token_in};

    /// The token to judge, or to begin after.
    pub fn token(self) -> Option<&'a str>
        ensures { option_map (λ t. t.now) result ≡ token_in (command_shown self.entry) }
    {
        match self {
            Command::Candidates { after, .. }
            | Command::Tokens { after, .. }
            | Command::List { after, .. } => { after }
            Command::Verify { token } => Some(token),
            _ => None,
        }
    }

    /// The same, with this token to judge or to begin after, where it has one.
    pub fn with_token<'b>(&'b self, token: Option<&'b str>) -> Command<'b>
        ensures { command_shown result
            ≡ with_token (command_shown self.now) (option_map (λ t. t.now) token.entry) }
    {
        match (*self, token) {
            (
                Command::Candidates {
                    after: _,
                    at,
                    traits,
                },
                after,
            ) => { Command::Candidates { after, at, traits } }
            (Command::Tokens { after: _, at }, after) => Command::Tokens { after, at },
            (
                Command::List {
                    after: _,
                    at,
                    traits,
                },
                after,
            ) => Command::List { after, at, traits },
            (Command::Verify { token: _ }, Some(token)) => Command::Verify { token },
            (command, _) => command,
        }
    }

    /// The table of flavors, where it has one.
    pub(crate) fn flavors(self) -> Option<&'a [u8]>
        ensures { option_map (λ t. t.now) result ≡ flavors_in (command_shown self.entry) }
    {
        match self {
            Command::Capacity { flavors, .. } => Some(flavors),
            _ => None,
        }
    }

    /// The same, with this table of flavors, where it has one.
    pub(crate) fn with_flavors(self, flavors: Option<&'a [u8]>) -> Command<'a>
        ensures { command_shown result
            ≡ with_flavors (command_shown self.entry) (option_map (λ t. t.now) flavors.entry) }
    {
        match (self, flavors) {
            (
                Command::Capacity {
                    flavors: _,
                    metrics,
                },
                Some(flavors),
            ) => { Command::Capacity { flavors, metrics } }
            (command, _) => command,
        }
    }

    /// The host that is asked about, or at whose root candidates are to stand.
    pub fn host(self) -> Option<&'a str>
        ensures { option_map (λ t. t.now) result ≡ host_in (command_shown self.entry) }
    {
        match self {
            Command::Candidates { at, .. }
            | Command::Tokens { at, .. }
            | Command::List { at, .. } => { at }
            Command::Why { host } => Some(host),
            _ => None,
        }
    }
}
