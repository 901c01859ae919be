//! Runs with each growth refused in turn: the whole answer, or `out of memory` with status 7 and a first part of it.
use super::devices::{DETAILED, FAULTY};
use super::{ANSWERS, Case, ONE, Rows, SOUND, TOKENS, Turns, expanded, expect_left, left_by};
use ac_run::Command;
use std::process::Abort;

// A parent and its child, with eight units each, and a group for each.
const PAIR: Case = Case {
    rows: Rows {
        providers: "@1,@1,\n@2,@1,@1\n",
        inventories: "@1,VCPU,8,0,1,8,1,1.0\n@2,VCPU,8,0,1,8,1,1.0\n",
        ..ONE
    },
    query: "resources1=VCPU:5&resources2=VCPU:5&group_policy=none",
    ..TOKENS
};

fn check(rt: &(impl Abort + AllocGlobal), case: &Case, turns: Turns) {
    let Ok(output) = expanded(rt.alloc(), case.output) else {
        return;
    };
    let Ok(left) = left_by(rt, case, turns) else {
        return;
    };
    if left.status == 7 {
        assert!(rt; left.line.as_str() == "out of memory\n");
        assert!(rt; output.as_str().starts_with(left.output.as_str()));
    } else {
        expect_left(rt, &left, output.as_str(), case.line, case.status, 0);
    }
}

fn check_all(rt: &(impl Abort + AllocGlobal), cases: &[Case], turns: Turns) {
    for case in cases {
        check(rt, case, turns);
    }
}

#[test]
fn an_answer_of_each_command(rt: HostRuntime) {
    check_all(&rt, &ANSWERS, SOUND);
}

static SUMS_AND_NONE: [Case; 6] = [
    Case {
        command: Command::Explain,
        query: "resources=VCPU:2&required=CUSTOM_A",
        output: "slot 1 \"\" VCPU:2: units 1 of 1, traits 1, aggregates 1, tree 1, room 1\n\
            trees 1: root traits 1, each slot 1, required traits 0\n\
            nobody has CUSTOM_A\n\
            candidates: none\n\
            without required: some\n\
            because no root has all required traits\n",
        status: 1,
        ..TOKENS
    },
    Case {
        command: Command::Why { host: "@1" },
        query: "resources1=VCPU:2&member_of1=!in:@a,@b&root_required=CUSTOM_R",
        rows: Rows {
            aggregates: "@1,@a\n",
            ..ONE
        },
        output: "slot,suffix,asks,provider,name,lacks,detail\n\
            1,1,VCPU:2,@1,,aggregates,\"member_of=!in:@a,@b\"\n\
            root,,,@1,,root traits,CUSTOM_R missing\n\
            verdict,,,@1,,root traits,does not fit\n",
        status: 1,
        ..TOKENS
    },
    Case {
        command: Command::Fill { sum: true },
        query: "resources=VCPU:3&limit=1",
        output: "at least 2, at most 2: short of VCPU at 1 host\n",
        ..TOKENS
    },
    Case {
        command: Command::Fill { sum: false },
        query: "resources=VCPU:3&limit=50",
        output: "@1\n@1\n",
        status: 1,
        ..TOKENS
    },
    Case {
        command: Command::Fill { sum: false },
        query: "resources=VCPU:9",
        status: 1,
        ..TOKENS
    },
    Case {
        command: Command::Verify { token: "@1,@7" },
        output: "unknown provider\n",
        status: 1,
        ..PAIR
    },
];

#[test]
fn sums_and_none(rt: HostRuntime) {
    check_all(&rt, &SUMS_AND_NONE, SOUND);
}

// Lists that break a rule, and of what they do.
const CROWDED: Case = Case {
    command: Command::Verify { token: "@1,@1" },
    output: "no: rule 6 Sums: VCPU on @1, 8 of 8 left, max_unit 8, 10 asked\n",
    status: 1,
    ..PAIR
};

static VERDICTS: [Case; 7] = [
    Case {
        command: Command::Verify { token: "@1,@2" },
        output: "candidate\n",
        ..PAIR
    },
    CROWDED,
    Case {
        query: "resources1=VCPU:9&resources2=VCPU:5&group_policy=none",
        command: Command::Verify { token: "@2,@1" },
        output: "no: rule 1 Units: slot 1 on @2, VCPU:9 not within min_unit 1, max_unit 8, step_size 1\n",
        ..CROWDED
    },
    Case {
        query: "resources=VCPU:1&required=CUSTOM_X",
        command: Command::Verify { token: "@1" },
        output: "no: rule 5 Collective: CUSTOM_X missing\n",
        ..CROWDED
    },
    Case {
        query: "resources1=VCPU:1&resources2=VCPU:1&group_policy=isolate",
        output: "no: rule 7 Isolate: slots 1 and 2 on @1\n",
        ..CROWDED
    },
    Case {
        rows: Rows {
            providers: "@1,@1,\n@2,@1,@1\n@3,@1,@1\n",
            inventories: "@2,VCPU,8,0,1,8,1,1.0\n@3,VCPU,8,0,1,8,1,1.0\n",
            ..ONE
        },
        query: "resources_A=VCPU:1&resources_B=VCPU:1&same_subtree=_A,_B&group_policy=none",
        command: Command::Verify { token: "@2,@3" },
        output: "no: rule 8 Subtree: same_subtree=_A,_B\n",
        ..CROWDED
    },
    Case {
        query: "resources=VCPU:1&root_required=CUSTOM_X",
        command: Command::Verify { token: "@1" },
        output: "no: rule 9 Anchor: on @1, CUSTOM_X missing\n",
        ..CROWDED
    },
];

#[test]
fn verdicts(rt: HostRuntime) {
    check_all(&rt, &VERDICTS, DETAILED);
}

static FAULTS: [Case; 4] = [
    Case {
        line: "usages: record 2: NoInventory\n",
        ..FAULTY
    },
    Case {
        query: "resources1=VCPU:1&same_subtree=1,2",
        line: "query: group \"2\": UnknownSuffix\n",
        status: 4,
        ..TOKENS
    },
    Case {
        command: Command::Tokens {
            after: Some("@1"),
            at: None,
        },
        line: "token: WrongLength\n",
        status: 5,
        ..PAIR
    },
    Case {
        command: Command::Why { host: "h" },
        line: "host: Unknown\n",
        status: 5,
        ..TOKENS
    },
];

#[test]
fn faults(rt: HostRuntime) {
    check_all(&rt, &FAULTS, SOUND);
}

// An answer has nothing behind it, and a verdict says of what a rule is broken.
static WHAT_TO_DO: [Case; 6] = [
    Case {
        output: "@1\n",
        ..TOKENS
    },
    Case {
        query: "resources=VCPU:9",
        command: Command::Verify { token: "@1" },
        output: "no: rule 1 Units: slot 1 on @1, VCPU:9 not within min_unit 1, max_unit 8, step_size 1\n",
        status: 1,
        ..TOKENS
    },
    FAULTY,
    Case {
        query: "resources=VCPU:2&required=hw_cpu",
        line: "query: pair 2: BadValue\n  required=\"hw_cpu\": a trait is written A-Z, 0-9 and _; HW_CPU?\n",
        status: 4,
        ..TOKENS
    },
    Case {
        command: Command::Tokens {
            after: Some("@1,@1"),
            at: None,
        },
        line: "token: WrongLength\n  UUIDs 2, slots 1: one for each of VCPU, in this order\n",
        status: 5,
        ..TOKENS
    },
    Case {
        command: Command::Why { host: "nowhere" },
        line: "host: Unknown\n  \"nowhere\": no provider has this UUID or this name: \
            give one that is in the table of providers\n",
        status: 5,
        ..TOKENS
    },
];

#[test]
fn what_to_do(rt: HostRuntime) {
    check_all(&rt, &WHAT_TO_DO, DETAILED);
}

// Flavors whose queries have the name of an aggregate.
const BY_NAMES: Case = Case {
    rows: Rows {
        aggregates: "@1,@a\n",
        ..ONE
    },
    command: Command::Capacity {
        flavors: b"flavor,query\na,resources=VCPU:3&member_of=az\n",
        metrics: false,
    },
    names: Some("uuid,name\n@a,az\n"),
    output: "flavor,hosts,at_least,at_most,wanted,short_of,short_at\na,1,2,2,1,VCPU,1\n",
    ..TOKENS
};

static FLAVORS_BY_NAMES: [Case; 2] = [
    BY_NAMES,
    Case {
        names: Some("uuid,name\n"),
        output: "",
        line: "flavors: record 2: UnknownName\n",
        status: 4,
        ..BY_NAMES
    },
];

#[test]
fn flavors_by_names(rt: HostRuntime) {
    check_all(&rt, &FLAVORS_BY_NAMES, SOUND);
}
