//! What `clap` is told of the command line.
ghost use Rattle.std.specs.Prelude.{◌≡◌, IfOk, false};
ghost use Rattle.clap.specs.Words.{app_of, rule_of};
ghost use Rattle.clap.specs.declared.builder.command.Command.TheViews.{out-Command as fields_of};
ghost use Rattle.ac_words.specs.Words.{app_for, audit_app, candidates_app, capacity_app, compare_app, check_app, explain_app, fill_app, flag_rule, free_rule, hosts_app, list_app, option_rule, program, query_app, reading_app, search_app, session_app, shown_app, tokens_app, verify_app, why_app, with_change, with_common, with_detail, with_format, with_names, with_options, with_search, with_tables, with_tries, with_version, word_rule};

use super::help;
use crate::name::Name;
use clap::{Arg, ArgAction, Command};
use std::alloc::{AllocError, Global};

// The program's version, and the logic by which it is proved, as `rt version` names it: toolchains of several names have it.
const VERSION: &str = "1.1.0, proved with Rattle's logic dac8208d650f15bf";

// A word that has to be given.
fn word<'a>(alloc: Global, name: &'a str, shown: &'a str, help: &'a str) -> Arg<'a>
    ensures rule { rule_of result ≡ word_rule name.entry.now }
    ensures local { result.global ≡ false }
{
    Arg::new(alloc, name)
        .value_name(shown)
        .required(true)
        .help(help)
}

// A word that may be left out.
fn free_word<'a>(alloc: Global, name: &'a str, shown: &'a str, help: &'a str) -> Arg<'a>
    ensures rule { rule_of result ≡ free_rule name.entry.now }
    ensures local { result.global ≡ false }
{
    Arg::new(alloc, name).value_name(shown).help(help)
}

// An option with a value.
fn option<'a>(alloc: Global, name: &'a str, shown: &'a str, help: &'a str) -> Arg<'a>
    ensures rule { rule_of result ≡ option_rule name.entry.now }
    ensures local { result.global ≡ false }
{
    Arg::new(alloc, name)
        .long(name)
        .value_name(shown)
        .help(help)
}

// An option without a value.
fn flag<'a>(alloc: Global, name: &'a str, help: &'a str) -> Arg<'a>
    ensures rule { rule_of result ≡ flag_rule name.entry.now }
    ensures local { result.global ≡ false }
{
    let arg = Arg::new(alloc, name).long(name);
    arg.action(ArgAction::SetTrue).help(help)
}

// The option of a table.
fn table<'a>(alloc: Global, name: &'a str, help: &'a str) -> Arg<'a>
    ensures rule { rule_of result ≡ option_rule name.entry.now }
    ensures local { result.global ≡ false }
{
    option(alloc, name, "FILE", help)
}

// Adds the options of the tables.
fn add_tables<'a>(alloc: Global, command: Command<'a>) -> Result<Command<'a>, AllocError>
    ensures app { IfOk result (λ c. app_of c ≡ with_tables (app_of command.entry)) }
    ensures local { (fields_of command.entry).has_globals ≡ false
        → IfOk result (λ c. (fields_of c).has_globals ≡ false) }
{
    let command = command.arg(option(
        alloc,
        "tables",
        "DIR",
        "The five tables of an export, in one folder: providers.csv, inventories.csv, usages.csv, \
         traits.csv, aggregates.csv; and aggregate-names.csv, for --names",
    ))?;
    let command = command.arg(table(
        alloc,
        "providers",
        "The resource providers and their trees (CSV)",
    ))?;
    let command = command.arg(table(
        alloc,
        "inventories",
        "What each provider has of each resource class (CSV)",
    ))?;
    let command = command.arg(table(
        alloc,
        "usages",
        "How much of it is used (CSV); without this table nothing is used",
    ))?;
    let command = command.arg(table(
        alloc,
        "traits",
        "The traits of each provider (CSV); without this table no provider has a trait",
    ))?;
    let command = command.arg(table(
        alloc,
        "aggregates",
        "The aggregates of each provider (CSV); without this table no provider is in an aggregate",
    ))?;
    Ok(command)
}

// Adds whether more is said.
fn add_detail<'a>(alloc: Global, command: Command<'a>) -> Result<Command<'a>, AllocError>
    ensures app { IfOk result (λ c. app_of c ≡ with_detail (app_of command.entry)) }
    ensures local { (fields_of command.entry).has_globals ≡ false
        → IfOk result (λ c. (fields_of c).has_globals ≡ false) }
{
    command.arg(flag(
        alloc,
        "detail",
        "Says below the line of a fault what to do about it; `verify` then also says of what a rule is broken, \
         and `tokens`, `fill`, `hosts` and `compare` where the service may answer otherwise",
    ))
}

// Adds the file of changes.
fn add_change<'a>(alloc: Global, command: Command<'a>) -> Result<Command<'a>, AllocError>
    ensures app { IfOk result (λ c. app_of c ≡ with_change (app_of command.entry)) }
    ensures local { (fields_of command.entry).has_globals ≡ false
        → IfOk result (λ c. (fields_of c).has_globals ≡ false) }
{
    command.arg(option(
        alloc,
        "change",
        "FILE",
        "What if: a change a line, made before the question: `disable HOST`, `enable HOST`, `remove HOST`, `add N like HOST`, \
         `set WHERE CLASS FIELD VALUE`, `trait WHERE +NAME`, `aggregate WHERE +UUID`",
    ))
}

// Adds the options of a command over tables: those of the tables, what is changed of them, and whether more is said.
fn add_common<'a>(alloc: Global, command: Command<'a>) -> Result<Command<'a>, AllocError>
    ensures app { IfOk result (λ c. app_of c ≡ with_common (app_of command.entry)) }
    ensures local { (fields_of command.entry).has_globals ≡ false
        → IfOk result (λ c. (fields_of c).has_globals ≡ false) }
{
    let command = add_tables(alloc, command)?;
    let command = add_change(alloc, command)?;
    add_detail(alloc, command)
}

// Adds the version that reads queries.
fn add_version<'a>(alloc: Global, command: Command<'a>) -> Result<Command<'a>, AllocError>
    ensures app { IfOk result (λ c. app_of c ≡ with_version (app_of command.entry)) }
    ensures local { (fields_of command.entry).has_globals ≡ false
        → IfOk result (λ c. (fields_of c).has_globals ≡ false) }
{
    let command = command.arg(option(
        alloc,
        "microversion",
        "VERSION",
        "Reads the query by 1.36 (as do 1.37 and 1.38), or by 1.39: `required` may then be a list \
         `in:A,B`, which asks for one of its traits, and may be repeated [default: 1.36]",
    ))?;
    Ok(command)
}

// Adds the options of a command with queries: those of a command over tables, and the version.
fn add_options<'a>(alloc: Global, command: Command<'a>) -> Result<Command<'a>, AllocError>
    ensures app { IfOk result (λ c. app_of c ≡ with_options (app_of command.entry)) }
    ensures local { (fields_of command.entry).has_globals ≡ false
        → IfOk result (λ c. (fields_of c).has_globals ≡ false) }
{
    let command = add_common(alloc, command)?;
    add_version(alloc, command)
}

// Adds the options of a command that searches: those of a command with queries, and how many tries a search may make.
fn add_tries<'a>(alloc: Global, command: Command<'a>) -> Result<Command<'a>, AllocError>
    ensures app { IfOk result (λ c. app_of c ≡ with_tries (app_of command.entry)) }
    ensures local { (fields_of command.entry).has_globals ≡ false
        → IfOk result (λ c. (fields_of c).has_globals ≡ false) }
{
    let command = add_options(alloc, command)?;
    let command = command.arg(option(
        alloc,
        "tries",
        "N",
        "Lets each search make at most N tries of a provider in a slot, and then ends with status 8: \
         what is written up to there is a first part of the answer [default: as many as it takes]",
    ))?;
    Ok(command)
}

// Adds whether names stand in place of UUIDs.
fn add_names<'a>(alloc: Global, command: Command<'a>) -> Result<Command<'a>, AllocError>
    ensures app { IfOk result (λ c. app_of c ≡ with_names (app_of command.entry)) }
    ensures local { (fields_of command.entry).has_globals ≡ false
        → IfOk result (λ c. (fields_of c).has_globals ≡ false) }
{
    command.arg(flag(
        alloc,
        "names",
        "Reads names in `in_tree`, `member_of` and tokens too: of providers, and of aggregates by aggregate-names.csv of the folder; \
         tokens are written by names as well",
    ))
}

// Adds the options of a search for a query: those of a command that searches, and whether names stand in place of UUIDs.
fn add_search<'a>(alloc: Global, command: Command<'a>) -> Result<Command<'a>, AllocError>
    ensures app { IfOk result (λ c. app_of c ≡ with_search (app_of command.entry)) }
    ensures local { (fields_of command.entry).has_globals ≡ false
        → IfOk result (λ c. (fields_of c).has_globals ≡ false) }
{
    let command = add_tries(alloc, command)?;
    add_names(alloc, command)
}

// Adds the form in which rows are written.
fn add_format<'a>(alloc: Global, command: Command<'a>) -> Result<Command<'a>, AllocError>
    ensures app { IfOk result (λ c. app_of c ≡ with_format (app_of command.entry)) }
    ensures local { (fields_of command.entry).has_globals ≡ false
        → IfOk result (λ c. (fields_of c).has_globals ≡ false) }
{
    let form = option(
        alloc,
        "format",
        "FORM",
        "Writes the rows as `csv`, as a `table` drawn with lines, or as `json`, a list of objects [default: csv]",
    );
    command.arg(form.short('f'))
}

// A command with a query.
fn with_query<'a>(
    alloc: Global,
    name: &'a str,
    about: &'a str,
    usage: &'a str,
    below: &'a str,
) -> Result<Command<'a>, AllocError>
    ensures app { IfOk result (λ c. app_of c ≡ query_app name.entry.now) }
    ensures local { IfOk result (λ c. (fields_of c).has_globals ≡ false) }
{
    let command = Command::new(alloc, name)
        .about(about)
        .override_usage(usage)
        .after_help(below);
    command.arg(word(
        alloc,
        "query",
        "QUERY",
        "What is asked for, between '..' since the shell reads & ! and ? otherwise; of a URL, what \
         stands behind its ?",
    ))
}

fn check<'a>(alloc: Global) -> Result<Command<'a>, AllocError>
    ensures app { IfOk result (λ c. app_of c ≡ check_app) }
    ensures local { IfOk result (λ c. (fields_of c).has_globals ≡ false) }
{
    let command = Command::new(alloc, "check")
        .about("Checks the tables, and counts what they hold")
        .override_usage(
            "ac_cli check --tables <DIR>\n       \
             ac_cli check [OPTIONS] --providers <FILE> --inventories <FILE>",
        )
        .after_help(help::CHECK);
    add_common(alloc, command)
}

// A command that writes candidates.
fn search<'a>(
    alloc: Global,
    name: &'a str,
    about: &'a str,
    usage: &'a str,
    below: &'a str,
) -> Result<Command<'a>, AllocError>
    ensures app { IfOk result (λ c. app_of c ≡ search_app name.entry.now) }
    ensures local { IfOk result (λ c. (fields_of c).has_globals ≡ false) }
{
    let command = add_search(alloc, with_query(alloc, name, about, usage, below)?)?;
    let command = command.arg(option(
        alloc,
        "after",
        "TOKEN",
        "Begins after this candidate, written as `tokens` writes it",
    ))?;
    command.arg(option(
        alloc,
        "at",
        "HOST",
        "Only the candidates of one host: all their providers are of its tree, or share with it",
    ))
}

// A command that writes candidates with what is told of their providers.
fn shown<'a>(
    alloc: Global,
    name: &'a str,
    about: &'a str,
    usage: &'a str,
    below: &'a str,
) -> Result<Command<'a>, AllocError>
    ensures app { IfOk result (λ c. app_of c ≡ shown_app name.entry.now) }
    ensures local { IfOk result (λ c. (fields_of c).has_globals ≡ false) }
{
    let command = search(alloc, name, about, usage, below)?;
    command.arg(flag(
        alloc,
        "no-traits",
        "Leaves out the traits of providers, which are often more than half of the output",
    ))
}

fn candidates<'a>(alloc: Global) -> Result<Command<'a>, AllocError>
    ensures app { IfOk result (λ c. app_of c ≡ candidates_app) }
    ensures local { IfOk result (λ c. (fields_of c).has_globals ≡ false) }
{
    shown(
        alloc,
        "candidates",
        "Writes the candidates for a query as JSON, with summaries of their providers",
        "ac_cli candidates [OPTIONS] --tables <DIR> <QUERY>\n       \
         ac_cli candidates [OPTIONS] --providers <FILE> --inventories <FILE> <QUERY>",
        help::CANDIDATES,
    )
}

fn tokens<'a>(alloc: Global) -> Result<Command<'a>, AllocError>
    ensures app { IfOk result (λ c. app_of c ≡ tokens_app) }
    ensures local { IfOk result (λ c. (fields_of c).has_globals ≡ false) }
{
    search(
        alloc,
        "tokens",
        "Writes the candidates for a query, one per line: the UUIDs of their providers",
        "ac_cli tokens [OPTIONS] --tables <DIR> <QUERY>\n       \
         ac_cli tokens [OPTIONS] --providers <FILE> --inventories <FILE> <QUERY>",
        help::TOKENS,
    )
}

fn list<'a>(alloc: Global) -> Result<Command<'a>, AllocError>
    ensures app { IfOk result (λ c. app_of c ≡ list_app) }
    ensures local { IfOk result (λ c. (fields_of c).has_globals ≡ false) }
{
    let command = shown(
        alloc,
        "list",
        "Writes the candidates for a query as rows, one for each of their providers",
        "ac_cli list [OPTIONS] --tables <DIR> <QUERY>\n       \
         ac_cli list [OPTIONS] --providers <FILE> --inventories <FILE> <QUERY>",
        help::LIST,
    )?;
    add_format(alloc, command)
}

fn fill<'a>(alloc: Global) -> Result<Command<'a>, AllocError>
    ensures app { IfOk result (λ c. app_of c ≡ fill_app) }
    ensures local { IfOk result (λ c. (fields_of c).has_globals ≡ false) }
{
    let command = with_query(
        alloc,
        "fill",
        "Places a query again and again, as long as there is room: how many more fit, and where",
        "ac_cli fill [OPTIONS] --tables <DIR> <QUERY>\n       \
         ac_cli fill [OPTIONS] --providers <FILE> --inventories <FILE> <QUERY>",
        help::FILL,
    )?;
    let command = add_search(alloc, command)?;
    command.arg(flag(
        alloc,
        "sum",
        "Writes how many fit by first fit, how many can at most, and what hosts are short of, in place of where",
    ))
}

fn verify<'a>(alloc: Global) -> Result<Command<'a>, AllocError>
    ensures app { IfOk result (λ c. app_of c ≡ verify_app) }
    ensures local { IfOk result (λ c. (fields_of c).has_globals ≡ false) }
{
    let command = with_query(
        alloc,
        "verify",
        "Writes whether a token is a candidate for a query, or which rule it breaks",
        "ac_cli verify [OPTIONS] --tables <DIR> <QUERY> <TOKEN>\n       \
         ac_cli verify [OPTIONS] --providers <FILE> --inventories <FILE> <QUERY> <TOKEN>",
        help::VERIFY,
    )?;
    let command = command.arg(word(
        alloc,
        "token",
        "TOKEN",
        "The UUIDs of providers, as `tokens` writes them",
    ))?;
    let command = add_options(alloc, command)?;
    add_names(alloc, command)
}

fn explain<'a>(alloc: Global) -> Result<Command<'a>, AllocError>
    ensures app { IfOk result (λ c. app_of c ≡ explain_app) }
    ensures local { IfOk result (λ c. (fields_of c).has_globals ≡ false) }
{
    let command = with_query(
        alloc,
        "explain",
        "Writes how many providers and trees meet a query, rule by rule: why nothing is found",
        "ac_cli explain [OPTIONS] --tables <DIR> <QUERY>\n       \
         ac_cli explain [OPTIONS] --providers <FILE> --inventories <FILE> <QUERY>",
        help::EXPLAIN,
    )?;
    add_search(alloc, command)
}

fn hosts<'a>(alloc: Global) -> Result<Command<'a>, AllocError>
    ensures app { IfOk result (λ c. app_of c ≡ hosts_app) }
    ensures local { IfOk result (λ c. (fields_of c).has_globals ≡ false) }
{
    let command = with_query(
        alloc,
        "hosts",
        "Writes whether a query fits at each root, and what is missing there",
        "ac_cli hosts [OPTIONS] --tables <DIR> <QUERY>\n       \
         ac_cli hosts [OPTIONS] --providers <FILE> --inventories <FILE> <QUERY>",
        help::HOSTS,
    )?;
    let command = add_search(alloc, command)?;
    let command = command.arg(option(
        alloc,
        "in",
        "UUID",
        "Writes of those roots alone that are in this aggregate, or have a provider in their tree that is",
    ))?;
    let command = command.arg(flag(
        alloc,
        "fits",
        "Writes of those roots alone at which it fits",
    ))?;
    let command = command.arg(flag(
        alloc,
        "sum",
        "Writes how many roots lack what, in place of a row for each",
    ))?;
    add_format(alloc, command)
}

fn why<'a>(alloc: Global) -> Result<Command<'a>, AllocError>
    ensures app { IfOk result (λ c. app_of c ≡ why_app) }
    ensures local { IfOk result (λ c. (fields_of c).has_globals ≡ false) }
{
    let command = with_query(
        alloc,
        "why",
        "Writes how far each provider of a host comes, and what it lacks: why not this host",
        "ac_cli why [OPTIONS] --tables <DIR> <QUERY> <HOST>\n       \
         ac_cli why [OPTIONS] --providers <FILE> --inventories <FILE> <QUERY> <HOST>",
        help::WHY,
    )?;
    let command = command.arg(word(
        alloc,
        "host",
        "HOST",
        "A provider of the host: its UUID, or a name that no other provider has",
    ))?;
    let command = add_search(alloc, command)?;
    add_format(alloc, command)
}

fn capacity<'a>(alloc: Global) -> Result<Command<'a>, AllocError>
    ensures app { IfOk result (λ c. app_of c ≡ capacity_app) }
    ensures local { IfOk result (λ c. (fields_of c).has_globals ≡ false) }
{
    let command = Command::new(alloc, "capacity")
        .about("Writes how many of each flavor fit, at how many hosts, and what is short")
        .override_usage(
            "ac_cli capacity [OPTIONS] --tables <DIR> <FLAVORS>\n       \
             ac_cli capacity [OPTIONS] --providers <FILE> --inventories <FILE> <FLAVORS>",
        )
        .after_help(help::CAPACITY);
    let command = command.arg(word(
        alloc,
        "flavors",
        "FLAVORS",
        "A table of flavors: the columns flavor and query, and wanted if it is there (CSV)",
    ))?;
    let command = add_search(alloc, command)?;
    let command = command.arg(flag(
        alloc,
        "prometheus",
        "Writes the numbers as metrics, in the text format of Prometheus",
    ))?;
    add_format(alloc, command)
}

fn compare<'a>(alloc: Global) -> Result<Command<'a>, AllocError>
    ensures app { IfOk result (λ c. app_of c ≡ compare_app) }
    ensures local { IfOk result (λ c. (fields_of c).has_globals ≡ false) }
{
    let command = with_query(
        alloc,
        "compare",
        "Writes how an answer of the service differs from the allocation candidates",
        "ac_cli compare [OPTIONS] --tables <DIR> <QUERY> <ANSWER>\n       \
         ac_cli compare [OPTIONS] --providers <FILE> --inventories <FILE> <QUERY> <ANSWER>",
        help::COMPARE,
    )?;
    let command = command.arg(word(
        alloc,
        "answer",
        "ANSWER",
        "What the service answered: a body of GET /allocation_candidates (JSON)",
    ))?;
    add_search(alloc, command)
}

fn audit<'a>(alloc: Global) -> Result<Command<'a>, AllocError>
    ensures app { IfOk result (λ c. app_of c ≡ audit_app) }
    ensures local { IfOk result (λ c. (fields_of c).has_globals ≡ false) }
{
    let command = Command::new(alloc, "audit")
        .about("Writes what is amiss in the cloud, whatever is asked of it")
        .override_usage(
            "ac_cli audit [OPTIONS] --tables <DIR>\n       \
             ac_cli audit [OPTIONS] --providers <FILE> --inventories <FILE>",
        )
        .after_help(help::AUDIT);
    let command = add_common(alloc, command)?;
    let command = command.arg(option(
        alloc,
        "zone",
        "UUID",
        "Also tells of each sharing provider that isn't in this aggregate, while hosts that it shares with are",
    ))?;
    add_format(alloc, command)
}

fn query<'a>(alloc: Global) -> Result<Command<'a>, AllocError>
    ensures app { IfOk result (λ c. app_of c ≡ reading_app) }
    ensures local { IfOk result (λ c. (fields_of c).has_globals ≡ false) }
{
    let command = Command::new(alloc, "query")
        .about(
            "Writes how a query is read: its slots, in the order of a token, and the query plainly",
        )
        .override_usage("ac_cli query [OPTIONS] [QUERY]")
        .after_help(help::QUERY);
    let command = command.arg(free_word(
        alloc,
        "query",
        "QUERY",
        "What is asked for, between '..' since the shell reads & ! and ? otherwise; without it, the \
         parameters of a query are written, each with an example",
    ))?;
    let command = add_detail(alloc, command)?;
    add_version(alloc, command)
}

fn session<'a>(alloc: Global) -> Result<Command<'a>, AllocError>
    ensures app { IfOk result (λ c. app_of c ≡ session_app) }
    ensures local { IfOk result (λ c. (fields_of c).has_globals ≡ false) }
{
    let command = Command::new(alloc, "session")
        .about(
            "Answers questions from standard input, one a line, and takes and gives back placements",
        )
        .override_usage(
            "ac_cli session [OPTIONS] --tables <DIR>\n       \
             ac_cli session [OPTIONS] --providers <FILE> --inventories <FILE>",
        )
        .after_help(help::SESSION);
    add_search(alloc, command)
}

// A command by itself.
pub(super) fn command<'a>(alloc: Global, name: Name) -> Result<Command<'a>, AllocError>
    ensures { IfOk result (λ c. app_of c ≡ app_for name) }
{
    match name {
        Name::Check => check(alloc),
        Name::Candidates => candidates(alloc),
        Name::Tokens => tokens(alloc),
        Name::List => list(alloc),
        Name::Fill => fill(alloc),
        Name::Verify => verify(alloc),
        Name::Explain => explain(alloc),
        Name::Hosts => hosts(alloc),
        Name::Why => why(alloc),
        Name::Capacity => capacity(alloc),
        Name::Compare => compare(alloc),
        Name::Audit => audit(alloc),
        Name::Query => query(alloc),
        Name::Session => session(alloc),
    }
}

// The whole command line.
pub(super) fn program<'a>(alloc: Global) -> Result<Command<'a>, AllocError>
    ensures { IfOk result (λ c. app_of c ≡ program) }
{
    let command = Command::new(alloc, "ac_cli")
        .version(VERSION)
        .about(
            "Finds allocation candidates in exported Placement tables; with no arguments, in a built-in sample",
        )
        .after_help(help::PROGRAM)
        .subcommand_required(true);
    let command = command.subcommand(check(alloc)?)?;
    let command = command.subcommand(candidates(alloc)?)?;
    let command = command.subcommand(tokens(alloc)?)?;
    let command = command.subcommand(list(alloc)?)?;
    let command = command.subcommand(fill(alloc)?)?;
    let command = command.subcommand(verify(alloc)?)?;
    let command = command.subcommand(explain(alloc)?)?;
    let command = command.subcommand(hosts(alloc)?)?;
    let command = command.subcommand(why(alloc)?)?;
    let command = command.subcommand(capacity(alloc)?)?;
    let command = command.subcommand(compare(alloc)?)?;
    let command = command.subcommand(audit(alloc)?)?;
    let command = command.subcommand(query(alloc)?)?;
    let command = command.subcommand(session(alloc)?)?;
    Ok(command)
}
