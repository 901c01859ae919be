//! Sessions over devices in memory.
use crate::left::{Left, expanded, text_of};
use ac_base::{MemFeed, MemSink, Turn};
use ac_query::Version;
use ac_run::{Inputs, Paths};
use ac_session::{Lines, run_session};
use std::alloc::{AllocError, Global};
use std::process::Abort;

mod devices;
mod refusals;

// Two providers with eight units of a class; of the first one three are used. `@1` stands for the UUID that ends with 1.
const PROVIDERS: &str = "uuid,root_provider_uuid,parent_provider_uuid\n@1,@1,\n@2,@2,\n";

const INVENTORIES: &str =
    "resource_provider,resource_class,total,reserved,min_unit,max_unit,step_size,allocation_ratio\n\
    @1,VCPU,8,0,1,8,1,1.0\n@2,VCPU,8,0,1,8,1,1.0\n";

const USAGES: &str = "resource_provider,resource_class,usage\n@1,VCPU,3\n";

// How the devices of a session go, whether it is held in detail, and the table of names of aggregates where names stand in place of UUIDs.
#[derive(Clone, Copy)]
struct Turns<'a> {
    detail: bool,
    names: Option<&'a [u8]>,
    providers: &'a [Turn],
    questions: &'a [Turn],
    out: &'a [Turn],
    err: &'a [Turn],
}

const SOUND: Turns<'static> = Turns {
    detail: false,
    names: None,
    providers: &[],
    questions: &[],
    out: &[],
    err: &[],
};

// The texts of the tables and of the questions.
#[derive(Drop)]
struct Texts {
    providers: String,
    inventories: String,
    usages: String,
    questions: String,
}

// The paths of the tables' files.
const PATHS: Paths<'static> = Paths {
    providers: "p.csv",
    inventories: "i.csv",
    usages: Some("u.csv"),
    traits: None,
    aggregates: None,
};

// A session over three tables.
fn run_texts(alloc: Global, texts: &Texts, turns: Turns) -> Result<Left, AllocError> {
    let mut inputs = Inputs {
        providers: MemFeed::new(texts.providers.as_bytes(), turns.providers),
        inventories: MemFeed::new(texts.inventories.as_bytes(), &[]),
        usages: Some(MemFeed::new(texts.usages.as_bytes(), &[])),
        traits: None,
        aggregates: None,
    };
    let Ok(mut lines) = Lines::new(
        alloc,
        MemFeed::new(texts.questions.as_bytes(), turns.questions),
    ) else {
        return Err(AllocError);
    };
    let out = MemSink::new(vec![in alloc; 0u8; 4000]?, turns.out);
    let mut err = MemSink::new(vec![in alloc; 0u8; 300]?, turns.err);
    let detail = if turns.detail { Some(&PATHS) } else { None };
    let (status, out) = run_session(
        alloc,
        Version::V139,
        None,
        detail,
        None,
        turns.names,
        &mut inputs,
        &mut lines,
        out,
        &mut err,
    );
    Ok(Left {
        output: text_of(alloc, out.taken())?,
        line: text_of(alloc, err.taken())?,
        status,
    })
}

// A session over these providers and questions.
fn run_over(
    alloc: Global,
    providers: &str,
    questions: &str,
    turns: Turns,
) -> Result<Left, AllocError> {
    let texts = Texts {
        providers: expanded(alloc, providers)?,
        inventories: expanded(alloc, INVENTORIES)?,
        usages: expanded(alloc, USAGES)?,
        questions: expanded(alloc, questions)?,
    };
    run_texts(alloc, &texts, turns)
}

// A session over these questions.
fn run_lines(alloc: Global, questions: &str, turns: Turns) -> Result<Left, AllocError> {
    run_over(alloc, PROVIDERS, questions, turns)
}

// What a session is to leave.
fn expect_left(rt: &(impl Abort + AllocGlobal), left: &Left, output: &str, line: &str, status: u8) {
    let Ok(output) = expanded(rt.alloc(), output) else {
        return;
    };
    assert_eq!(rt; left.output.as_str(), output.as_str());
    assert_eq!(rt; left.line.as_str(), line);
    assert_eq!(rt; left.status, status);
}
