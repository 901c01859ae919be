//! Sessions with each growth refused in turn: all answers, or `out of memory` with status 7 and a first part of them.
use super::{SOUND, Turns, expanded, expect_left, run_lines, run_over};
use std::process::Abort;

fn check(rt: &(impl Abort + AllocGlobal), questions: &str, answers: &str) {
    let Ok(wanted) = expanded(rt.alloc(), answers) else {
        return;
    };
    let Ok(left) = run_lines(rt.alloc(), questions, SOUND) else {
        return;
    };
    if left.status == 7 {
        assert!(rt; left.line.as_str() == "out of memory\n");
        assert!(rt; wanted.as_str().starts_with(left.output.as_str()));
    } else {
        expect_left(rt, &left, answers, "", 0);
    }
}

#[test]
fn claims_and_releases(rt: HostRuntime) {
    check(
        &rt,
        "claim resources=VCPU:5 @1\ntokens resources=VCPU:5\nusages\nrelease resources=VCPU:5 @1\n",
        "claimed\n= 0\n@2\n= 0\nresource_provider,resource_class,usage\n@1,VCPU,8\n= 0\nreleased\n= 0\n",
    );
}

#[test]
fn refused_questions(rt: HostRuntime) {
    check(
        &rt,
        "claim resources=VCPU:5 x\nverify resources=CUSTOM_A:1 @1\nclaim resources=VCPU:5 @8\nhost\n",
        "= 5 token: BadToken\nno: rule 1 Units\n= 1\nunknown provider\n= 1\n= 2 session: unknown command\n",
    );
}

// A table without a provider, and what is told of the inventories.
const NO_PROVIDERS: &str = "uuid,root_provider_uuid,parent_provider_uuid\n";

const UNKNOWN: &str =
    "inventories: record 2: UnknownProvider\n  i.csv, resource_provider \"00000000-0000-0000-0000-000000000001\", VCPU: \
    not in the table of providers; export all tables together, or take the record out\n";

#[test]
fn refused_tables_in_detail(rt: HostRuntime) {
    let turns = Turns {
        detail: true,
        ..SOUND
    };
    let Ok(left) = run_over(rt.alloc(), NO_PROVIDERS, "check\n", turns) else {
        return;
    };
    if left.status == 7 {
        expect_left(&rt, &left, "", "out of memory\n", 7);
    } else {
        expect_left(&rt, &left, "", UNKNOWN, 3);
    }
}

// The same providers, with names.
const NAMED: &str = "uuid,name,root_provider_uuid,parent_provider_uuid\n@1,a,@1,\n@2,b,@2,\n";

#[test]
fn questions_by_names(rt: HostRuntime) {
    let turns = Turns {
        names: Some(b"uuid,name\n"),
        ..SOUND
    };
    let questions =
        "claim resources=VCPU:5 a\ntokens resources=VCPU:5&in_tree=b\nverify resources=VCPU:5 c\nfill resources=VCPU:5\n";
    let answers = "claimed\n= 0\nb\n= 0\n= 5 token: UnknownName\nb\n= 0\n";
    let Ok(left) = run_over(rt.alloc(), NAMED, questions, turns) else {
        return;
    };
    if left.status == 7 {
        assert!(rt; left.line.as_str() == "out of memory\n");
        assert!(rt; answers.starts_with(left.output.as_str()));
    } else {
        expect_left(&rt, &left, answers, "", 0);
    }
}
