//! Words read with each growth refused in turn: what they say, or want of memory.
use super::{asks, words_of};
use ac_query::Version;
use ac_run::Command;
use ac_tables::Table;
use ac_words::{WordFault, read_words};

#[test]
fn accepted(rt: HostRuntime) {
    let line = "ac_cli tokens q --after t --microversion 1.39 --providers a --inventories b";
    let Ok(given) = words_of(rt.alloc(), line) else {
        return;
    };
    let command = Command::Tokens {
        after: Some("t"),
        at: None,
    };
    match read_words(rt.alloc(), given.as_slice()) {
        Ok(words) => {
            assert!(rt; asks(&words, command, "q", Version::V139));
            assert_eq!(rt; words.path(Table::Providers), Some("a"));
            assert_eq!(rt; words.path(Table::Inventories), Some("b"));
        }
        Err(fault) => assert!(rt; matches!(fault, WordFault::NoMemory)),
    }
}

#[test]
fn session(rt: HostRuntime) {
    let line = "ac_cli session --microversion 1.39 --tables a";
    let Ok(given) = words_of(rt.alloc(), line) else {
        return;
    };
    match read_words(rt.alloc(), given.as_slice()) {
        Ok(words) => {
            assert!(rt; words.job(b"", None, None, None).is_none());
            assert!(rt; words.version() == Version::V139);
            assert_eq!(rt; words.path(Table::Usages), Some("a/usages.csv"));
        }
        Err(fault) => assert!(rt; matches!(fault, WordFault::NoMemory)),
    }
}

#[test]
fn folder(rt: HostRuntime) {
    let Ok(given) = words_of(rt.alloc(), "ac_cli check --tables a") else {
        return;
    };
    match read_words(rt.alloc(), given.as_slice()) {
        Ok(words) => {
            assert_eq!(rt; words.path(Table::Providers), Some("a/providers.csv"));
            assert_eq!(rt; words.path(Table::Aggregates), Some("a/aggregates.csv"));
        }
        Err(fault) => assert!(rt; matches!(fault, WordFault::NoMemory)),
    }
}

const OTHER_WORDS: &[&str] = &[
    "ac_cli tokens",
    "ac_cli check --providers a",
    "ac_cli check --tables a --usages c",
    "ac_cli tokens q --microversion 1.40",
];

#[test]
fn refused(rt: HostRuntime) {
    for line in OTHER_WORDS {
        let Ok(given) = words_of(rt.alloc(), line) else {
            return;
        };
        match read_words(rt.alloc(), given.as_slice()) {
            Ok(_words) => assert!(rt; false, "{line}"),
            Err(fault) => assert!(rt;
                matches!(fault, WordFault::Refused(_)) || matches!(fault, WordFault::NoMemory)
            ),
        }
    }
}
