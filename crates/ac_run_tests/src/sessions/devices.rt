//! Devices of a session that fail.
use super::{SOUND, Turns, expect_left, run_lines};
use ac_base::Turn;
use std::test::Fail;

const CHECKED: &str = "providers 2\ninventories 2\nusages 1\ntraits 0\naggregates 0\n= 0\n";

// What was asked before the feed of the questions failed is answered.
#[test]
fn questions_that_fail_in_the_middle(rt: HostRuntime) -> Result<(), Fail> {
    let turns = Turns {
        questions: &[Turn::Up(8), Turn::Failed],
        ..SOUND
    };
    let left = run_lines(rt.alloc(), "check\ncheck\n", turns)?;
    expect_left(&rt, &left, CHECKED, "questions: Unreadable\n", 3);
    Ok(())
}

#[test]
fn an_output_that_fails_keeps_what_it_took(rt: HostRuntime) -> Result<(), Fail> {
    let turns = Turns {
        out: &[Turn::Up(13), Turn::Failed],
        ..SOUND
    };
    let left = run_lines(rt.alloc(), "check\ncheck\n", turns)?;
    expect_left(&rt, &left, "providers 2\ni", "output: WriteFailed\n", 6);
    // The first answer is handed on whole before the second fails.
    let turns = Turns {
        out: &[Turn::Up(100), Turn::Failed],
        ..SOUND
    };
    let left = run_lines(rt.alloc(), "check\ncheck\n", turns)?;
    expect_left(&rt, &left, CHECKED, "output: WriteFailed\n", 6);
    Ok(())
}

#[test]
fn an_error_sink_that_fails_leaves_the_status(rt: HostRuntime) -> Result<(), Fail> {
    let turns = Turns {
        questions: &[Turn::Failed],
        err: &[Turn::Up(9), Turn::Failed],
        ..SOUND
    };
    let left = run_lines(rt.alloc(), "check\n", turns)?;
    expect_left(&rt, &left, "", "questions", 3);
    Ok(())
}

// A table can't be read, and no question is answered.
#[test]
fn a_table_that_fails(rt: HostRuntime) -> Result<(), Fail> {
    let turns = Turns {
        providers: &[Turn::Up(5), Turn::Failed],
        ..SOUND
    };
    let left = run_lines(rt.alloc(), "check\n", turns)?;
    expect_left(&rt, &left, "", "providers: Unreadable\n", 3);
    Ok(())
}
