//! Lines with each growth refused in turn.
use ac_base::{MemFeed, NoMemory};
use ac_session::{Lines, Next};
use std::alloc::{AllocError, Global};

#[test]
fn begins(rt: HostRuntime) {
    match Lines::new(rt.alloc(), MemFeed::new(b"a\n", &[])) {
        Ok(mut lines) => assert!(rt; lines.next() == Next::Line(b"a")),
        Err(fault) => assert_eq!(rt; fault, NoMemory),
    }
}

// The size of a growth that no other call asks for: where `tests/memory/refusals.py` says so, each growth is refused from one of this size up to the next.
const MARK: usize = 40_961;

fn mark(alloc: Global) -> Result<Vec<u8>, AllocError> {
    Vec::with_capacity(alloc, MARK)
}

#[test]
fn lines_takes_no_memory_to_go_on(rt: HostRuntime) {
    let Ok(mut lines) = Lines::new(rt.alloc(), MemFeed::new(b"a\nb", &[])) else {
        return;
    };
    let _first = mark(rt.alloc());
    assert!(rt; lines.next() == Next::Line(b"a"));
    assert!(rt; lines.next() == Next::Line(b"b"));
    assert!(rt; lines.next() == Next::End);
    let _last = mark(rt.alloc());
}
