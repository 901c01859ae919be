//! What takes memory, made with each of its growths refused in turn: all candidates, the counts of trees, or want of memory. What a source gives
//! takes none, so it is given with all growths refused too.
use super::FIVES;
use crate::clouds::{NONE, PAIR, Rows, Scene, scene_of};
use ac_base::NoMemory;
use ac_find::{SlotCounts, TreeCounts, all_slots, tree_counts};
use ac_rules::{Plain, Source};
use ac_search::{SearchFault, Walk, fitting_roots};
use std::alloc::{AllocError, Global};
use std::process::Abort;

// A token before all candidates.
fn given(alloc: Global) -> Result<Option<Scene>, AllocError> {
    let nil = "00000000000000000000000000000000,00000000000000000000000000000000";
    scene_of(alloc, PAIR, FIVES, Some(nil))
}

fn gives_both<S: Source>(rt: &impl Abort, source: &mut S) {
    for want in [[0u32, 1], [1, 0]] {
        match source.next() {
            Ok(Some(list)) => assert!(rt; list == want.as_slice(), "the next list"),
            Ok(None) | Err(_) => assert!(rt; false, "a list is left"),
        }
    }
    assert!(rt; source.next().is_ok_and(|list| list.is_none()), "the end");
}

// One provider, whose disk is used up.
const FULL: Rows<'static> = Rows {
    providers: "@01,@01,\n",
    inventories: "@01,VCPU,8,0,1,8,1,1.0\n@01,DISK_GB,8,0,1,8,1,1.0\n",
    usages: "@01,DISK_GB,8\n",
    ..NONE
};

// The size of a growth that no other call asks for: where `tests/memory/refusals.py` says so, each growth is refused from one of this size up to the next.
const MARK: usize = 40_961;

fn mark(alloc: Global) -> Result<Vec<u8>, AllocError> {
    Vec::with_capacity(alloc, MARK)
}

#[test]
fn plain(rt: HostRuntime) {
    let Ok(Some(scene)) = given(rt.alloc()) else {
        return;
    };
    match Plain::new(rt.alloc(), &scene.cloud, &scene.query, scene.token.as_ref()) {
        Ok(mut plain) => gives_both(&rt, &mut plain),
        Err(fault) => assert_eq!(rt; fault, NoMemory),
    }
}

#[test]
fn walk(rt: HostRuntime) {
    let Ok(Some(scene)) = given(rt.alloc()) else {
        return;
    };
    match Walk::new(rt.alloc(), &scene.cloud, &scene.query, scene.token.as_ref()) {
        Ok(mut walk) => gives_both(&rt, &mut walk),
        Err(fault) => assert_eq!(rt; fault, NoMemory),
    }
}

#[test]
fn plain_takes_no_memory_to_go_on(rt: HostRuntime) {
    let Ok(Some(scene)) = given(rt.alloc()) else {
        return;
    };
    let Ok(mut plain) = Plain::new(rt.alloc(), &scene.cloud, &scene.query, scene.token.as_ref())
    else {
        return;
    };
    let _first = mark(rt.alloc());
    gives_both(&rt, &mut plain);
    let _last = mark(rt.alloc());
}

#[test]
fn walk_takes_no_memory_to_go_on(rt: HostRuntime) {
    let Ok(Some(scene)) = given(rt.alloc()) else {
        return;
    };
    let Ok(mut walk) = Walk::new(rt.alloc(), &scene.cloud, &scene.query, scene.token.as_ref())
    else {
        return;
    };
    let _first = mark(rt.alloc());
    gives_both(&rt, &mut walk);
    let _last = mark(rt.alloc());
}

#[test]
fn counts(rt: HostRuntime) {
    let Ok(Some(scene)) = given(rt.alloc()) else {
        return;
    };
    // Both slots fit 01 and 02, which are one tree.
    let want = TreeCounts {
        roots: 1,
        root_traits: 1,
        each_slot: 1,
        required_traits: 1,
    };
    match tree_counts(rt.alloc(), &scene.cloud, &scene.query) {
        Ok(counts) => assert_eq!(rt; counts, want),
        Err(fault) => assert_eq!(rt; fault, NoMemory),
    }
}

#[test]
fn hosts(rt: HostRuntime) {
    let Ok(Some(scene)) = given(rt.alloc()) else {
        return;
    };
    // Both slots fit 01 and 02, which are one tree.
    match fitting_roots(rt.alloc(), &scene.cloud, &scene.query, None) {
        Ok(fits) => assert_eq!(rt; fits.iter().filter(|fit| **fit).count(), 1),
        Err(fault) => assert_eq!(rt; fault, SearchFault::NoMemory),
    }
}

#[test]
fn counts_of_required_traits(rt: HostRuntime) {
    let query = "resources=VCPU:5&required=in:CUSTOM_A,CUSTOM_B";
    let Ok(Some(scene)) = scene_of(rt.alloc(), PAIR, query, None) else {
        return;
    };
    // Nobody has a trait.
    let want = TreeCounts {
        roots: 1,
        root_traits: 1,
        each_slot: 1,
        required_traits: 0,
    };
    match tree_counts(rt.alloc(), &scene.cloud, &scene.query) {
        Ok(counts) => assert_eq!(rt; counts, want),
        Err(fault) => assert_eq!(rt; fault, NoMemory),
    }
}

#[test]
fn slots_by_class(rt: HostRuntime) {
    let query = "resources1=DISK_GB:5,VCPU:5";
    let Ok(Some(scene)) = scene_of(rt.alloc(), FULL, query, None) else {
        return;
    };
    // The provider has no disk left.
    let counts = SlotCounts {
        units: 1,
        traits: 1,
        aggregates: 1,
        tree: 1,
        room: 0,
    };
    match all_slots(rt.alloc(), &scene.cloud, &scene.query) {
        Ok(told) => {
            let Some(first) = told.first() else {
                assert!(rt; false, "a slot");
                return;
            };
            assert_eq!(rt; first.counts, counts);
            assert!(rt; first.rooms.as_slice() == [0, 1].as_slice());
        }
        Err(fault) => assert_eq!(rt; fault, NoMemory),
    }
}
