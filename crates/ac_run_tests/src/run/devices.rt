//! Devices that fail, each at each of its calls, and what they leave of an answer or of a line.
use super::{
    ANSWERS, Case, Left, ONE, ONE_BODY, Rows, SOUND, TOKENS, Turns, alike, check_case, expanded,
    expect_left, left_by,
};
use ac_base::Turn;
use ac_run::Command;
use std::alloc::AllocError;
use std::process::Abort;
use std::test::Fail;

const ONE_TOKEN: Case = Case {
    output: "@1\n",
    ..TOKENS
};

const BODY: Case = Case {
    command: Command::Candidates {
        after: None,
        at: None,
        traits: true,
    },
    output: ONE_BODY,
    ..TOKENS
};

// A command that asks for no query.
const COUNTS: Case = Case {
    command: Command::Check,
    query: "",
    output: "providers 1\ninventories 1\nusages 0\ntraits 0\naggregates 0\n",
    ..TOKENS
};

const NO_QUERY: Case = Case {
    query: "",
    status: 4,
    ..TOKENS
};

const FAILED: &[Turn] = &[Turn::Failed];

const AGAIN: &[Turn] = &[Turn::Again; 1000];

const ONCE_MORE: &[Turn] = &[Turn::Again; 1001];

pub(super) const DETAILED: Turns<'static> = Turns {
    detail: true,
    ..SOUND
};

// An output that fails keeps what it took. One that takes nothing has failed, at its first call and after some bytes: it isn't asked again. A thousand
// interrupted calls in a row are borne, and one more is a failure.
static FAILING_OUTPUTS: [(&[Turn], &str); 4] = [
    (&[Turn::Up(10), Turn::Failed], "{\"allocati"),
    (&[Turn::Up(0)], ""),
    (&[Turn::Up(5), Turn::Up(0)], "{\"all"),
    (ONCE_MORE, ""),
];

#[test]
fn outputs_that_fail(rt: HostRuntime) -> Result<(), Fail> {
    for (number, (out, output)) in FAILING_OUTPUTS.iter().enumerate() {
        let case = Case {
            output,
            line: "output: WriteFailed\n",
            status: 6,
            ..BODY
        };
        check_case(&rt, &case, Turns { out, ..SOUND }, number)?;
    }
    Ok(())
}

// Feeds and error sinks that fail or are interrupted, and what a run over them leaves.
static FAILING: [(Turns<'static>, Case); 8] = [
    (
        Turns {
            providers: AGAIN,
            out: AGAIN,
            ..SOUND
        },
        ONE_TOKEN,
    ),
    (
        Turns {
            out: AGAIN,
            gathers: true,
            ..SOUND
        },
        ONE_TOKEN,
    ),
    (
        Turns {
            providers: ONCE_MORE,
            ..SOUND
        },
        Case {
            line: "providers: Unreadable\n",
            status: 3,
            ..TOKENS
        },
    ),
    // A feed that fails is not at its end.
    (
        Turns {
            inventories: &[Turn::Up(20), Turn::Failed],
            ..SOUND
        },
        Case {
            line: "inventories: Unreadable\n",
            status: 3,
            ..TOKENS
        },
    ),
    // An error sink that fails keeps what it took, and the status is what it would have been.
    (
        Turns {
            err: &[Turn::Up(5), Turn::Failed],
            ..SOUND
        },
        Case {
            line: "query",
            ..NO_QUERY
        },
    ),
    (
        Turns {
            err: FAILED,
            ..SOUND
        },
        NO_QUERY,
    ),
    (
        Turns {
            providers: FAILED,
            err: FAILED,
            ..SOUND
        },
        Case {
            status: 3,
            ..TOKENS
        },
    ),
    (
        Turns {
            out: FAILED,
            err: FAILED,
            ..SOUND
        },
        Case {
            status: 6,
            ..TOKENS
        },
    ),
];

#[test]
fn devices_that_fail(rt: HostRuntime) -> Result<(), Fail> {
    for (number, (turns, case)) in FAILING.iter().enumerate() {
        check_case(&rt, case, *turns, number)?;
    }
    Ok(())
}

// Interrupted calls are counted in a row: where a byte has moved, a thousand more are borne, and not one beyond.
#[test]
fn a_byte_sets_the_count_of_interrupted_calls_back(rt: HostRuntime) -> Result<(), Fail> {
    let mut again = [Turn::Again; 2001];
    again[1000] = Turn::Up(1);
    check_case(&rt, &ONE_TOKEN, alike(&again), 0)?;

    let mut once_more = [Turn::Again; 2002];
    once_more[1000] = Turn::Up(1);
    let feed = Turns {
        traits: &once_more,
        ..SOUND
    };
    let unreadable = Case {
        line: "traits: Unreadable\n",
        status: 3,
        ..TOKENS
    };
    check_case(&rt, &unreadable, feed, 1)?;
    let sink = Turns {
        out: &once_more,
        ..SOUND
    };
    let failed = Case {
        output: "0",
        line: "output: WriteFailed\n",
        status: 6,
        ..TOKENS
    };
    check_case(&rt, &failed, sink, 2)?;
    Ok(())
}

// This call of the feed of one table fails, of each in turn: the table can't be read, unless so many calls, with the one that tells its end, came before.
fn check_feeds(
    rt: &(impl Abort + AllocGlobal),
    turns: &[Turn],
    call: usize,
) -> Result<(), AllocError> {
    for (feed, line, calls) in [
        (
            Turns {
                providers: turns,
                ..SOUND
            },
            "providers: Unreadable\n",
            121,
        ),
        (
            Turns {
                inventories: turns,
                ..SOUND
            },
            "inventories: Unreadable\n",
            150,
        ),
        (
            Turns {
                usages: turns,
                ..SOUND
            },
            "usages: Unreadable\n",
            40,
        ),
        (
            Turns {
                traits: turns,
                ..SOUND
            },
            "traits: Unreadable\n",
            24,
        ),
        (
            Turns {
                aggregates: turns,
                ..SOUND
            },
            "aggregates: Unreadable\n",
            24,
        ),
    ] {
        let failed = Case {
            output: "",
            line,
            status: 3,
            ..COUNTS
        };
        if call < calls {
            check_case(rt, &failed, feed, call)?;
        } else if call == calls {
            check_case(rt, &COUNTS, feed, call)?;
        }
    }
    Ok(())
}

// Each call of each feed fails in turn, where each gives a byte.
#[test]
fn each_call_of_a_feed_fails(rt: HostRuntime) -> Result<(), Fail> {
    let mut turns = Vec::new(rt.alloc());
    for call in 0..151 {
        turns.push(Turn::Failed)?;
        check_feeds(&rt, &turns, call)?;
        let _failed = turns.pop();
        turns.push(Turn::Up(1))?;
    }
    Ok(())
}

// A run whose output failed: it has taken so much of the body.
fn expect_part(rt: &impl Abort, left: &Left, body: &str, call: usize) {
    assert!(rt; body.starts_with(left.output.as_str()), "call {call}");
    assert_eq!(rt; left.line.as_str(), "output: WriteFailed\n");
    assert_eq!(rt; left.status, 6);
}

// Each call of the output fails in turn, where each takes a byte: it has taken one byte a call before.
#[test]
fn each_call_of_the_output_fails(rt: HostRuntime) -> Result<(), Fail> {
    let alloc = rt.alloc();
    let body = expanded(alloc, ONE_BODY)?;
    let mut turns = Vec::new(alloc);
    for call in 0..body.len() {
        turns.push(Turn::Failed)?;
        let out = Turns {
            out: &turns,
            ..SOUND
        };
        let left = left_by(&rt, &BODY, out)?;
        assert_eq!(rt; left.output.len(), call);
        expect_part(&rt, &left, body.as_str(), call);
        let _failed = turns.pop();
        turns.push(Turn::Up(1))?;
    }
    turns.push(Turn::Failed)?;
    let out = Turns {
        out: &turns,
        ..SOUND
    };
    check_case(&rt, &BODY, out, body.len())?;
    Ok(())
}

// Each push of an output fails in turn, where each takes its piece whole, until all have been made.
fn check_pushes(rt: &(impl Abort + AllocGlobal), case: &Case) -> Result<(), AllocError> {
    let alloc = rt.alloc();
    let output = expanded(alloc, case.output)?;
    let mut turns = Vec::new(alloc);
    let mut taken = 0;
    for call in 0..100 {
        turns.push(Turn::Failed)?;
        let out = Turns {
            out: &turns,
            ..SOUND
        };
        let left = left_by(rt, case, out)?;
        assert!(rt; left.output.len() > taken || call == 0, "call {call}");
        taken = left.output.len();
        if left.status == case.status {
            break;
        }
        expect_part(rt, &left, output.as_str(), call);
        let _failed = turns.pop();
        turns.push(Turn::Up(usize::MAX))?;
    }
    assert_eq!(rt; taken, output.len());
    Ok(())
}

// A failed output is told as one, and never as want of memory.
#[test]
fn each_whole_piece_of_an_output_fails(rt: HostRuntime) -> Result<(), Fail> {
    for case in &ANSWERS {
        check_pushes(&rt, case)?;
    }
    Ok(())
}

// A usage of a class of which there is no inventory, in detail.
pub(super) const FAULTY: Case = Case {
    rows: Rows {
        usages: "@1,MEMORY_MB,1\n",
        ..ONE
    },
    command: Command::Check,
    line: "usages: record 2: NoInventory\n  u.csv, resource_class \"MEMORY_MB\", \
        provider 00000000-0000-0000-0000-000000000001: the provider has no inventory of this class; \
        export all tables together, or take the record out\n",
    status: 3,
    ..TOKENS
};

const WHOLE: Turn = Turn::Up(30);

// In detail, an error sink that fails in the second line keeps what it took, and nothing is pushed behind a first line that failed.
static FAILING_LINES: [(&[Turn], &str); 3] = [
    (
        // The first line is pushed in six pieces, the second in one.
        &[
            WHOLE,
            WHOLE,
            WHOLE,
            WHOLE,
            WHOLE,
            WHOLE,
            Turn::Up(8),
            Turn::Failed,
        ],
        "usages: record 2: NoInventory\n  u.csv,",
    ),
    (&[Turn::Up(5), Turn::Failed], "usage"),
    (FAILED, ""),
];

#[test]
fn error_sinks_that_fail_in_detail(rt: HostRuntime) -> Result<(), Fail> {
    for (err, line) in &FAILING_LINES {
        let left = left_by(&rt, &FAULTY, Turns { err, ..DETAILED })?;
        expect_left(&rt, &left, "", line, 3, 0);
    }
    Ok(())
}

// A table of which reading fails in the middle tells its path.
#[test]
fn a_feed_that_fails_in_detail(rt: HostRuntime) -> Result<(), Fail> {
    let turns = Turns {
        inventories: &[Turn::Up(20), Turn::Failed],
        ..DETAILED
    };
    let line =
        "inventories: Unreadable\n  i.csv: reading failed, as it does of a folder; give the path of a file that can be read\n";
    let left = left_by(&rt, &TOKENS, turns)?;
    expect_left(&rt, &left, "", line, 3, 0);
    Ok(())
}
