//! Runs over slow devices.
use super::{ANSWERS, Case, alike, check_case};
use ac_base::Turn;
use std::alloc::{AllocError, Global};
use std::process::Abort;
use std::test::Fail;

// More calls than a device of an answer gets.
const MANY: usize = 2500;

// Each call moves a byte, and one more is interrupted before it.
fn interrupted(alloc: Global) -> Result<Vec<Turn>, AllocError> {
    let mut turns = Vec::new(alloc);
    for _ in 0..MANY {
        turns.push(Turn::Again)?;
        turns.push(Turn::Up(1))?;
    }
    Ok(turns)
}

// Each case answers so over devices that all go by these turns.
fn check_over(rt: &(impl Abort + AllocGlobal), cases: &[Case], turns: &[Turn]) -> Result<(), Fail> {
    for (place, case) in cases.iter().enumerate() {
        check_case(rt, case, alike(turns), place)?;
    }
    Ok(())
}

// The answers are the same where each call of a device moves one byte, and where one is interrupted before each.
fn check(rt: &(impl Abort + AllocGlobal), cases: &[Case]) -> Result<(), Fail> {
    check_over(rt, cases, &[])?;
    let one_byte = vec![in rt.alloc(); Turn::Up(1); MANY]?;
    check_over(rt, cases, one_byte.as_slice())?;
    let again = interrupted(rt.alloc())?;
    check_over(rt, cases, again.as_slice())
}

#[test]
fn an_answer_of_each_command(rt: HostRuntime) -> Result<(), Fail> {
    check(&rt, &ANSWERS)
}
