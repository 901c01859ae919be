//! Feeds that fail, are interrupted, or give too much: what is drained, and how often they are asked.
use super::LIMIT;
use ac_base::{Feed, FromRead, MemFeed, Pull, Turn};
use ac_tables::{ReadFault, drain};
use std::alloc::Global;
use std::io::{self, Read};

// Whether draining three bytes gives them all.
fn drains(alloc: Global, turns: &[Turn]) -> Result<bool, ReadFault> {
    let mut feed = MemFeed::new(b"abc", turns);
    Ok(drain(alloc, &mut feed)?.as_slice() == b"abc".as_slice())
}

// A thousand interrupted calls in a row are borne, and one more is a failure.
#[test]
fn drains_a_feed(rt: HostRuntime) {
    let whole = drains(rt.alloc(), &[Turn::Up(1), Turn::Again]);
    assert!(rt; whole == Ok(true), "all bytes");
    let borne = drains(rt.alloc(), &[Turn::Again; 1000]);
    assert!(rt; borne == Ok(true), "1000 are borne");
    let many = drains(rt.alloc(), &[Turn::Again; 1001]);
    assert!(rt; many == Err(ReadFault::Unreadable), "1001 aren't");
}

// Nothing is asked of a feed after a failure: the turn behind it is still there.
#[test]
fn asks_nothing_after_a_failure(rt: HostRuntime) {
    let turns = [Turn::Up(1), Turn::Failed, Turn::Again];
    let mut feed = MemFeed::new(b"abc", &turns);
    assert!(rt; drain(rt.alloc(), &mut feed) == Err(ReadFault::Unreadable));
    let mut buf = [0; 4];
    assert_eq!(rt; feed.pull(&mut buf), Pull::Again);
}

// Nor after one interrupted call too many.
#[test]
fn asks_nothing_after_the_last_interrupted_call(rt: HostRuntime) {
    let mut turns = [Turn::Again; 1002];
    turns[1001] = Turn::Failed;
    let mut feed = MemFeed::new(b"abc", &turns);
    assert!(rt; drain(rt.alloc(), &mut feed) == Err(ReadFault::Unreadable));
    let mut buf = [0; 4];
    assert_eq!(rt; feed.pull(&mut buf), Pull::Failed);
}

// A thousand interrupted calls, a byte, and a thousand more; then one more than that.
#[test]
fn a_byte_sets_the_count_of_interrupted_calls_back(rt: HostRuntime) {
    let mut turns = [Turn::Again; 2001];
    turns[1000] = Turn::Up(1);
    assert!(rt; drains(rt.alloc(), &turns) == Ok(true), "all bytes");
    let mut turns = [Turn::Again; 2002];
    turns[1000] = Turn::Up(1);
    assert!(rt;
        drains(rt.alloc(), &turns) == Err(ReadFault::Unreadable),
        "one too many"
    );
}

// A reader of so many bytes, which counts the calls after its last.
#[derive(Clone, Copy, Drop)]
struct Ending {
    left: usize,
    late: u32,
}

impl Read for Ending {
    fn read(&mut self, buf: &mut [u8]) -> io::Result<usize> {
        if self.left == 0 {
            self.late = self.late.saturating_add(1);
        }
        let count = buf.len().min(self.left);
        self.left -= count;
        Ok(count)
    }
}

// The end is asked for once. Where one byte more came than a table may have, nothing is.
#[test]
fn asks_nothing_past_the_limit(rt: HostRuntime) {
    for (left, late) in [(0, 1), (3, 1), (LIMIT + 1, 0)] {
        let mut reader = Ending { left, late: 0 };
        let mut feed = FromRead::new(&mut reader);
        let drained = drain(rt.alloc(), &mut feed);
        assert!(rt; drained.is_ok() == (late == 1), "{left} bytes");
        assert_eq!(rt; reader.late, late, "{left} bytes");
    }
}
