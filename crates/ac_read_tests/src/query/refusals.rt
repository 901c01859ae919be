//! What reads a query or a token, or writes one, run with each of its growths refused in turn: all of it, or want of memory.
use super::{BOTH, pair, two_slots};
use ac_base::NoMemory;
use ac_query::{Query, QueryFault, Token, TokenFault, Version};
use ac_rules::InCloud;
use ac_tables::Cloud;
use std::alloc::Global;

#[test]
fn query(rt: HostRuntime) {
    let text =
        "resources1=VCPU:5,PGPU:1&resources=DISK_GB:1&required1=A,in:B,C&member_of=in:000000000000000000000000000000a1&same_subtree=1&root_required=!D&limit=7";
    let listed =
        "resources1=VCPU:5&required1=in:B,C&required1=A,!D&member_of1=in:000000000000000000000000000000a1&same_subtree=1&root_required=!E&limit=7";
    match Query::read(rt.alloc(), text, Version::V139) {
        Ok(_query) => assert!(rt; false, "a list beside a trait is no value"),
        Err(fault) => assert!(rt;
            matches!(fault, QueryFault::BadValue(3)) || matches!(fault, QueryFault::NoMemory)
        ),
    }
    match Query::read(rt.alloc(), listed, Version::V139) {
        Ok(query) => {
            assert_eq!(rt; query.groups().len(), 1);
            assert_eq!(rt; query.slots().len(), 1);
            assert_eq!(rt; query.subtrees().len(), 1);
            assert_eq!(rt; query.root_forbidden().len(), 1);
            assert_eq!(rt; query.limit(), Some(7));
        }
        Err(fault) => assert!(rt; matches!(fault, QueryFault::NoMemory)),
    }
}

#[test]
fn unknown_suffix(rt: HostRuntime) {
    let text = "resources1=VCPU:1&same_subtree=1,2";
    match Query::read(rt.alloc(), text, Version::V136) {
        Ok(_query) => assert!(rt; false, "a suffix of no group"),
        Err(QueryFault::UnknownSuffix(suffix)) => assert_eq!(rt; suffix.text(), "2"),
        Err(fault) => assert!(rt; matches!(fault, QueryFault::NoMemory)),
    }
}

// Whether both ids are read of a token, if memory isn't short.
fn reads_both(alloc: Global, query: &Query) -> bool {
    match Token::read(alloc, BOTH, query) {
        Ok(token) => token.ids().len() == 2,
        Err(fault) => fault == TokenFault::NoMemory,
    }
}

#[test]
fn token(rt: HostRuntime) {
    if let Some(query) = two_slots(rt.alloc()) {
        assert!(rt; reads_both(rt.alloc(), &query));
    }
}

// Whether both providers are found, if memory isn't short.
fn locates_both(alloc: Global, token: &Token, cloud: &Cloud) -> bool {
    match token.locate(alloc, cloud) {
        Ok(Some(places)) => places.as_slice() == [0, 1].as_slice(),
        Ok(None) => false,
        Err(NoMemory) => true,
    }
}

fn both(alloc: Global) -> Option<Token> {
    let query = two_slots(alloc)?;
    Token::read(alloc, BOTH, &query).ok()
}

#[test]
fn located(rt: HostRuntime) {
    let Some(cloud) = pair(rt.alloc()) else {
        return;
    };
    if let Some(token) = both(rt.alloc()) {
        assert!(rt; locates_both(rt.alloc(), &token, &cloud));
    }
}

// Whether both ids are written, if memory isn't short.
fn writes_both(alloc: Global, cloud: &Cloud) -> bool {
    if cloud.len() != 2 {
        return false;
    }
    match Token::write(alloc, cloud, &[0, 1]) {
        Ok(text) => text.as_str() == BOTH,
        Err(NoMemory) => true,
    }
}

#[test]
fn written(rt: HostRuntime) {
    if let Some(cloud) = pair(rt.alloc()) {
        assert!(rt; writes_both(rt.alloc(), &cloud));
    }
}
