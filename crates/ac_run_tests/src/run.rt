//! Runs over devices in memory.

use crate::left::{Left, expanded, text_of};
use ac_base::{Gathering, MemFeed, MemSink, Turn};
use ac_query::Version;
use ac_run::{Command, Inputs, Job, Paths, run};
use std::alloc::{AllocError, Global};
use std::process::Abort;

mod devices;
mod examples;
mod refusals;

// The rows of the tables. `@1` stands for the UUID that ends with 1.
#[derive(Clone, Copy)]
struct Rows {
    providers: &'static str,
    inventories: &'static str,
    usages: &'static str,
    traits: &'static str,
    aggregates: &'static str,
}

// Tables of headers alone.
const EMPTY: Rows = Rows {
    providers: "",
    inventories: "",
    usages: "",
    traits: "",
    aggregates: "",
};

// One provider with eight units of a class.
const ONE: Rows = Rows {
    providers: "@1,@1,\n",
    inventories: "@1,VCPU,8,0,1,8,1,1.0\n",
    ..EMPTY
};

// The body of its candidates for two units.
const ONE_BODY: &str =
    "{\"allocation_requests\":[{\"allocations\":{\"@1\":{\"resources\":{\"VCPU\":2}}},\
    \"mappings\":{\"\":[\"@1\"]}}],\"provider_summaries\":{\"@1\":{\"parent_provider_uuid\":null,\
    \"resources\":{\"VCPU\":{\"capacity\":8,\"used\":0}},\"root_provider_uuid\":\"@1\",\"traits\":[]}}}\n";

// The texts of the tables.
#[derive(Drop)]
struct Texts {
    providers: String,
    inventories: String,
    usages: String,
    traits: String,
    aggregates: String,
}

// Each table's rows under its header.
fn texts_of(alloc: Global, rows: &Rows) -> Result<Texts, AllocError> {
    let providers = expanded(alloc, rows.providers)?;
    let inventories = expanded(alloc, rows.inventories)?;
    let usages = expanded(alloc, rows.usages)?;
    let traits = expanded(alloc, rows.traits)?;
    let aggregates = expanded(alloc, rows.aggregates)?;
    Ok(Texts {
        providers: format!(in alloc; "uuid,root_provider_uuid,parent_provider_uuid\n{providers}")?,
        inventories: format!(in alloc;
            "resource_provider,resource_class,total,reserved,min_unit,max_unit,step_size,allocation_ratio\n{inventories}"
        )?,
        usages: format!(in alloc; "resource_provider,resource_class,usage\n{usages}")?,
        traits: format!(in alloc; "resource_provider,name\n{traits}")?,
        aggregates: format!(in alloc; "resource_provider,uuid\n{aggregates}")?,
    })
}

// How a run is made, and how its devices go.
#[derive(Clone, Copy)]
struct Turns<'a> {
    providers: &'a [Turn],
    inventories: &'a [Turn],
    usages: &'a [Turn],
    traits: &'a [Turn],
    aggregates: &'a [Turn],
    out: &'a [Turn],
    err: &'a [Turn],
    gathers: bool,
    detail: bool,
}

const SOUND: Turns<'static> = Turns {
    providers: &[],
    inventories: &[],
    usages: &[],
    traits: &[],
    aggregates: &[],
    out: &[],
    err: &[],
    gathers: false,
    detail: false,
};

// Every device goes by these turns.
fn alike<'a>(turns: &'a [Turn]) -> Turns<'a> {
    Turns {
        providers: turns,
        inventories: turns,
        usages: turns,
        traits: turns,
        aggregates: turns,
        out: turns,
        err: turns,
        ..SOUND
    }
}

// What a run is to leave; the number says which run it is.
fn expect_left(rt: &impl Abort, left: &Left, output: &str, line: &str, status: u8, number: usize) {
    assert_eq!(rt; left.output.as_str(), output, "output of run {number}");
    assert_eq!(rt; left.line.as_str(), line, "line of run {number}");
    assert_eq!(rt; left.status, status, "status of run {number}");
}

// The paths of the tables' files.
const PATHS: Paths<'static> = Paths {
    providers: "p.csv",
    inventories: "i.csv",
    usages: Some("u.csv"),
    traits: Some("t.csv"),
    aggregates: Some("a.csv"),
};

// A run over the tables of these rows.
fn run_over(alloc: Global, rows: &Rows, job: &Job<'_>, turns: Turns) -> Result<Left, AllocError> {
    let texts = texts_of(alloc, rows)?;
    let mut inputs = Inputs {
        providers: MemFeed::new(texts.providers.as_bytes(), turns.providers),
        inventories: MemFeed::new(texts.inventories.as_bytes(), turns.inventories),
        usages: Some(MemFeed::new(texts.usages.as_bytes(), turns.usages)),
        traits: Some(MemFeed::new(texts.traits.as_bytes(), turns.traits)),
        aggregates: Some(MemFeed::new(texts.aggregates.as_bytes(), turns.aggregates)),
    };
    let mut out = MemSink::new(vec![in alloc; 0u8; 2000]?, turns.out);
    let mut err = MemSink::new(vec![in alloc; 0u8; 1000]?, turns.err);
    let mut note = Vec::new(alloc);
    let status = if turns.gathers {
        let mut gathering = Gathering::new(out, vec![in alloc; 0u8; 2000]?);
        let status = run(alloc, job, &mut inputs, &mut gathering, &mut err, &mut note);
        out = gathering.finish().1;
        status
    } else {
        run(alloc, job, &mut inputs, &mut out, &mut err, &mut note)
    };
    Ok(Left {
        output: text_of(alloc, out.taken())?,
        line: text_of(alloc, err.taken())?,
        status,
    })
}

// What a run is asked, and what it answers. In all texts `@1` stands for the UUID that ends with 1.
#[derive(Clone, Copy)]
struct Case {
    rows: Rows,
    command: Command<'static>,
    query: &'static str,
    version: Version,
    names: Option<&'static str>,
    output: &'static str,
    line: &'static str,
    status: u8,
}

// The tokens of no candidate.
const TOKENS: Case = Case {
    rows: ONE,
    command: Command::Tokens {
        after: None,
        at: None,
    },
    query: "resources=VCPU:2",
    version: Version::V136,
    names: None,
    output: "",
    line: "",
    status: 0,
};

// An answer of each command over one provider.
static ANSWERS: [Case; 13] = [
    Case {
        output: "@1\n",
        ..TOKENS
    },
    Case {
        command: Command::Candidates {
            after: None,
            at: None,
            traits: true,
        },
        output: ONE_BODY,
        ..TOKENS
    },
    Case {
        command: Command::Check,
        output: "providers 1\ninventories 1\nusages 0\ntraits 0\naggregates 0\n",
        ..TOKENS
    },
    Case {
        command: Command::Verify { token: "@1" },
        output: "candidate\n",
        ..TOKENS
    },
    Case {
        command: Command::Explain,
        output: "slot 1 \"\" VCPU:2: units 1 of 1, traits 1, aggregates 1, tree 1, room 1\n\
            trees 1: root traits 1, each slot 1, required traits 1\n\
            candidates: some\n",
        ..TOKENS
    },
    Case {
        command: Command::Hosts {
            sum: false,
            only_fitting: false,
            within: None,
        },
        output: "root,name,fits,slot,lacks,asks,detail\n@1,,yes,,,,\n",
        ..TOKENS
    },
    Case {
        command: Command::Hosts {
            sum: true,
            only_fitting: true,
            within: None,
        },
        output: "hosts,slot,lacks,asks\n1,,fits,\n",
        ..TOKENS
    },
    Case {
        command: Command::Why { host: "@1" },
        output: "slot,suffix,asks,provider,name,lacks,detail\n\
            1,,VCPU:2,@1,,,\n\
            root,,,@1,,,\n\
            verdict,,,@1,,,fits\n",
        ..TOKENS
    },
    Case {
        command: Command::List {
            after: None,
            at: None,
            traits: true,
        },
        output: "#,allocation,resource provider,inventory used/capacity,traits,name\n1,VCPU=2,@1,VCPU=0/8,,\n",
        ..TOKENS
    },
    Case {
        command: Command::Fill { sum: false },
        query: "resources=VCPU:3",
        output: "@1\n@1\n",
        ..TOKENS
    },
    Case {
        command: Command::Capacity {
            flavors: b"flavor,query\na,resources=VCPU:3\n",
            metrics: false,
        },
        output: "flavor,hosts,at_least,at_most,wanted,short_of,short_at\na,1,2,2,1,VCPU,1\n",
        ..TOKENS
    },
    Case {
        command: Command::Capacity {
            flavors: b"flavor,query\na,resources=VCPU:3\n",
            metrics: true,
        },
        output: "# HELP ac_flavor_hosts Root providers at which the flavor fits.\n\
             # TYPE ac_flavor_hosts gauge\n\
             ac_flavor_hosts{flavor=\"a\"} 1\n\
             # HELP ac_flavor_at_least Placements by first fit.\n\
             # TYPE ac_flavor_at_least gauge\n\
             ac_flavor_at_least{flavor=\"a\"} 2\n\
             # HELP ac_flavor_at_most Placements in any order at most.\n\
             # TYPE ac_flavor_at_most gauge\n\
             ac_flavor_at_most{flavor=\"a\"} 2\n\
             # HELP ac_flavor_wanted Placements that are wanted.\n\
             # TYPE ac_flavor_wanted gauge\n\
             ac_flavor_wanted{flavor=\"a\"} 1\n\
             # HELP ac_flavor_short_at Root providers that are short of the label short_of.\n\
             # TYPE ac_flavor_short_at gauge\n\
             ac_flavor_short_at{flavor=\"a\",short_of=\"VCPU\"} 1\n",
        ..TOKENS
    },
    Case {
        command: Command::Compare {
            answer: b"{\"allocation_requests\":[]}",
        },
        output: "only here: @1\nthe same: 0\n",
        status: 1,
        ..TOKENS
    },
];

// The token or the host of a command.
fn text_in(command: Command<'static>) -> Option<&'static str> {
    match command {
        Command::Why { host } => Some(host),
        _ => command.token(),
    }
}

// A command with this token or host.
fn with_text<'a>(command: Command<'static>, text: Option<&'a str>) -> Command<'a> {
    match command {
        Command::Check => Command::Check,
        Command::Candidates { traits, .. } => Command::Candidates {
            after: text,
            at: None,
            traits,
        },
        Command::Tokens { .. } => Command::Tokens {
            after: text,
            at: None,
        },
        Command::List { traits, .. } => Command::List {
            after: text,
            at: None,
            traits,
        },
        Command::Fill { sum } => Command::Fill { sum },
        Command::Verify { .. } => Command::Verify {
            token: text.unwrap_or(""),
        },
        Command::Explain => Command::Explain,
        Command::Hosts {
            sum,
            only_fitting,
            within,
        } => Command::Hosts {
            sum,
            only_fitting,
            within,
        },
        Command::Why { .. } => Command::Why {
            host: text.unwrap_or(""),
        },
        Command::Capacity { flavors, metrics } => Command::Capacity { flavors, metrics },
        Command::Compare { answer } => Command::Compare { answer },
        Command::Audit { zone } => Command::Audit { zone },
        Command::Query => Command::Query,
        Command::Parameters => Command::Parameters,
    }
}

// A text where there is one, written out.
fn written_out(alloc: Global, text: Option<&str>) -> Result<Option<String>, AllocError> {
    match text {
        Some(text) => Ok(Some(expanded(alloc, text)?)),
        None => Ok(None),
    }
}

// The bytes of a text, where there is one.
fn bytes_of(text: &Option<String>) -> Option<&[u8]> {
    match text {
        Some(text) => Some(text.as_bytes()),
        None => None,
    }
}

// What a run of a case leaves.
fn left_by(rt: &(impl Abort + AllocGlobal), case: &Case, turns: Turns) -> Result<Left, AllocError> {
    let alloc = rt.alloc();
    let query = expanded(alloc, case.query)?;
    let text = written_out(alloc, text_in(case.command))?;
    let names = written_out(alloc, case.names)?;
    let job = Job {
        command: with_text(case.command, text.as_deref()),
        query: query.as_str(),
        version: case.version,
        tries: None,
        changes: None,
        names: bytes_of(&names),
        detail: if turns.detail { Some(&PATHS) } else { None },
    };
    run_over(alloc, &case.rows, &job, turns)
}

// A run of a case answers so; the number says which one it is.
fn check_case(
    rt: &(impl Abort + AllocGlobal),
    case: &Case,
    turns: Turns,
    number: usize,
) -> Result<(), AllocError> {
    let left = left_by(rt, case, turns)?;
    let output = expanded(rt.alloc(), case.output)?;
    expect_left(rt, &left, output.as_str(), case.line, case.status, number);
    Ok(())
}
