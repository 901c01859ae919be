//! The words of a command line, read by themselves.
use ac_query::Version;
use ac_run::Command;
use ac_tables::Table;
use ac_words::{WordFault, Words, read_words};
use std::alloc::{AllocError, Global};
use std::test::Fail;

mod refusals;

// The words of `line`, parted at single blanks.
fn words_of(alloc: Global, line: &str) -> Result<Vec<String>, AllocError> {
    let mut words = Vec::new(alloc);
    for word in line.split(' ') {
        words.push(String::from_str(alloc, word)?)?;
    }
    Ok(words)
}

// Whether words ask for this job.
fn asks(words: &Words<'_>, command: Command<'_>, query: &str, version: Version) -> bool {
    match words.job(b"", None, None, None) {
        Some(job) => job.command == command && job.query == query && job.version == version,
        None => false,
    }
}

#[test]
fn check(rt: HostRuntime) -> Result<(), Fail> {
    let words = words_of(rt.alloc(), "ac_cli check --providers a --inventories b")?;
    match read_words(rt.alloc(), words.as_slice()) {
        Ok(words) => {
            assert!(rt; asks(&words, Command::Check, "", Version::V136));
            assert_eq!(rt; words.path(Table::Providers), Some("a"));
            assert_eq!(rt; words.path(Table::Inventories), Some("b"));
            assert_eq!(rt; words.paths().usages, None);
        }
        Err(_fault) => assert!(rt; false, "the words are accepted"),
    }
    Ok(())
}

// The program's name alone: with no word behind it, the program doesn't ask what the words mean.
#[test]
fn name_alone(rt: HostRuntime) -> Result<(), Fail> {
    let words = words_of(rt.alloc(), "ac_cli")?;
    let fault = read_words(rt.alloc(), words.as_slice());
    assert!(rt; matches!(fault, Err(WordFault::Refused(_))));
    Ok(())
}
