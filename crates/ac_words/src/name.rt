//! The names of the commands.
ghost use Rattle.std.specs.Prelude.{◌≡◌};
ghost use Rattle.ac_words.specs.Names.{name_read, name_text};

/// The name of a command.
#[derive(Clone, Copy, Debug, PartialEq, Eq)]
pub enum Name {
    Check,
    Candidates,
    Tokens,
    List,
    Fill,
    Verify,
    Explain,
    Hosts,
    Why,
    Capacity,
    Compare,
    Audit,
    Query,
    Session,
}

const ALL_NAMES: [Name; 14] = [
    Name::Check,
    Name::Candidates,
    Name::Tokens,
    Name::List,
    Name::Fill,
    Name::Verify,
    Name::Explain,
    Name::Hosts,
    Name::Why,
    Name::Capacity,
    Name::Compare,
    Name::Audit,
    Name::Query,
    Name::Session,
];

impl Name {
    /// The name, as it is written.
    pub fn text(self) -> &'static str
        ensures { result.now ≡ name_text self }
    {
        match self {
            Name::Check => "check",
            Name::Candidates => "candidates",
            Name::Tokens => "tokens",
            Name::List => "list",
            Name::Fill => "fill",
            Name::Verify => "verify",
            Name::Explain => "explain",
            Name::Hosts => "hosts",
            Name::Why => "why",
            Name::Capacity => "capacity",
            Name::Compare => "compare",
            Name::Audit => "audit",
            Name::Query => "query",
            Name::Session => "session",
        }
    }

    /// The name that is written so, where it is one.
    #[tactic(auto, unfolding(crate::specs::Names::name_read))]
    pub fn read(text: &str) -> Option<Name>
        ensures { result ≡ name_read text.now }
    {
        ALL_NAMES.iter().copied().find(|name| text == name.text())
    }
}
