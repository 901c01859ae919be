//! A reader and a writer of our own that fail, under the feeds and sinks that stand over them.
use ac_base::{Feed, FromRead, Gathering, MemSink, Pull, Push, Sink, ToWrite, Turn, push_all};
use std::alloc::{AllocError, Global};
use std::io::{self, Error, ErrorKind, Read, Write};
use std::test::Fail;

// A device that fails so often before it works, and counts its calls.
#[derive(Clone, Copy, Drop)]
struct Failing {
    left: u32,
    kind: ErrorKind,
    calls: u32,
}

impl Failing {
    fn once_more(&mut self) -> io::Result<()> {
        self.calls = self.calls.saturating_add(1);
        if self.left == 0 {
            return Ok(());
        }
        self.left -= 1;
        Err(Error::from(self.kind))
    }
}

impl Read for Failing {
    fn read(&mut self, buf: &mut [u8]) -> io::Result<usize> {
        self.once_more()?;
        Ok(buf.len())
    }
}

impl Write for Failing {
    fn write(&mut self, buf: &[u8]) -> io::Result<usize> {
        self.once_more()?;
        Ok(buf.len())
    }

    fn flush(&mut self) -> io::Result<()> {
        Ok(())
    }
}

fn device(left: u32, kind: ErrorKind) -> Failing {
    Failing {
        left,
        kind,
        calls: 0,
    }
}

// What two pulls give where the reader fails once.
fn pulls(kind: ErrorKind) -> (Pull, Pull) {
    let mut buf = [0; 4];
    let mut feed = FromRead::new(device(1, kind));
    let first = feed.pull(&mut buf);
    (first, feed.pull(&mut buf))
}

#[test]
fn a_feed_fails_where_its_reader_does(rt: HostRuntime) {
    for (kind, first) in [
        (ErrorKind::Interrupted, Pull::Again),
        (ErrorKind::Other, Pull::Failed),
    ] {
        assert!(rt; pulls(kind) == (first, Pull::Got(4)));
    }
}

// What two pushes give where the writer fails once.
fn pushes_twice(kind: ErrorKind) -> (Push, Push) {
    let mut sink = ToWrite::new(device(1, kind));
    let first = sink.push(b"abcd");
    (first, sink.push(b"abcd"))
}

#[test]
fn a_sink_fails_where_its_writer_does(rt: HostRuntime) {
    for (kind, first) in [
        (ErrorKind::Interrupted, Push::Again),
        (ErrorKind::Other, Push::Failed),
    ] {
        assert!(rt; pushes_twice(kind) == (first, Push::Took(4)));
    }
}

// Bytes pushed through a room of four, over a writer that is interrupted so often: whether all was taken, and whether the rest was.
fn gathers(alloc: Global, interrupted: u32, bytes: &[u8]) -> Result<(bool, bool), AllocError> {
    let writer = ToWrite::new(device(interrupted, ErrorKind::Interrupted));
    let mut sink = Gathering::new(writer, vec![in alloc; 0u8; 4]?);
    let pushed = push_all(&mut sink, bytes);
    let (finished, _writer) = sink.finish();
    Ok((pushed.is_ok(), finished.is_ok()))
}

// A thousand interrupted calls in a row are borne, and one more is a failure: in the midst, and at the end.
#[test]
fn a_gathering_sink_bears_a_thousand_interrupted_calls(rt: HostRuntime) -> Result<(), Fail> {
    for (interrupted, text, want) in [
        (1000, "abcdefgh", (true, true)),
        (1001, "abcdefgh", (false, true)),
        (1000, "abc", (true, true)),
        (1001, "abc", (true, false)),
    ] {
        let got = gathers(rt.alloc(), interrupted, text.as_bytes())?;
        assert!(rt; got == want, "{text} after {interrupted}");
    }
    Ok(())
}

// Bytes pushed through a room of four, over a writer that fails: whether all was taken, and how many calls of it were made.
fn calls_gathered(alloc: Global, bytes: &[u8]) -> Result<(bool, u32), AllocError> {
    let writer = ToWrite::new(device(u32::MAX, ErrorKind::Other));
    let mut sink = Gathering::new(writer, vec![in alloc; 0u8; 4]?);
    let pushed = push_all(&mut sink, bytes);
    Ok((pushed.is_ok(), sink.into_inner().into_inner().calls))
}

// A full room is handed on once, and nothing after a failure.
#[test]
fn a_gathering_sink_makes_no_call_after_a_failure(rt: HostRuntime) -> Result<(), Fail> {
    for (text, want) in [
        ("abcd", (true, 0)),
        ("abcde", (false, 1)),
        ("abcdefghijkl", (false, 1)),
    ] {
        let got = calls_gathered(rt.alloc(), text.as_bytes())?;
        assert!(rt; got == want, "{text}");
    }
    Ok(())
}

// Whether a pull fails with its reader, which is called once.
fn pulls_once(kind: ErrorKind) -> bool {
    let mut buf = [0; 4];
    let mut reader = device(1, kind);
    let mut feed = FromRead::new(&mut reader);
    let answer = feed.pull(&mut buf);
    answer != Pull::Got(4) && reader.calls == 1
}

// Whether a push fails with its writer, which is called once.
fn pushes_once(kind: ErrorKind) -> bool {
    let mut sink = ToWrite::new(device(1, kind));
    let answer = sink.push(b"abcd");
    answer != Push::Took(4) && sink.into_inner().calls == 1
}

// A call that fails isn't made again below: each pull is one call of the reader, and each push one of the writer.
#[test]
fn each_call_is_one_call_of_the_device(rt: HostRuntime) {
    for kind in [ErrorKind::Interrupted, ErrorKind::Other] {
        assert!(rt; pulls_once(kind), "a pull");
        assert!(rt; pushes_once(kind), "a push");
    }
}

// A piece pushed to a writer that fails so often: whether it was taken whole, and how many calls were made.
fn pushes(left: u32, kind: ErrorKind, piece: &[u8]) -> (bool, u32) {
    let mut sink = ToWrite::new(device(left, kind));
    let pushed = push_all(&mut sink, piece);
    (pushed.is_ok(), sink.into_inner().calls)
}

#[test]
fn no_call_is_made_after_a_failure(rt: HostRuntime) {
    for (left, kind, text, want) in [
        (0, ErrorKind::Other, "abcd", (true, 1)),
        (1, ErrorKind::Other, "abcd", (false, 1)),
        (1, ErrorKind::Other, "", (true, 0)),
        (1000, ErrorKind::Interrupted, "abcd", (true, 1001)),
        (1001, ErrorKind::Interrupted, "abcd", (false, 1001)),
    ] {
        let got = pushes(left, kind, text.as_bytes());
        assert!(rt; got == want, "{text} after {left}");
    }
}

// Four bytes pushed in these turns: whether all were taken, whether these were, and the answer to the next push.
fn pushes_by(
    alloc: Global,
    turns: &[Turn],
    taken: &[u8],
) -> Result<(bool, bool, Push), AllocError> {
    let mut sink = MemSink::new(vec![in alloc; 0u8; 8]?, turns);
    let pushed = push_all(&mut sink, b"abcd");
    let is_taken = sink.taken() == taken;
    Ok((pushed.is_ok(), is_taken, sink.push(b"cd")))
}

// A sink that takes nothing of a piece, or fails, in its midst: the turn behind that is still there.
#[test]
fn taking_nothing_ends_a_piece(rt: HostRuntime) -> Result<(), Fail> {
    for end in [Turn::Up(0), Turn::Failed] {
        let left = pushes_by(rt.alloc(), &[Turn::Up(2), end, Turn::Again], b"ab")?;
        assert!(rt; left == (false, true, Push::Again));
    }
    Ok(())
}

// Whether four bytes are all taken in these turns, or fail, and these are taken.
fn takes(alloc: Global, turns: &[Turn], all: bool, taken: &[u8]) -> Result<bool, AllocError> {
    let mut sink = MemSink::new(vec![in alloc; 0u8; 8]?, turns);
    let pushed = push_all(&mut sink, b"abcd");
    Ok(pushed.is_ok() == all && sink.taken() == taken)
}

// A thousand interrupted calls, a byte, and a thousand more.
#[test]
fn a_byte_sets_the_count_of_interrupted_calls_back(rt: HostRuntime) -> Result<(), Fail> {
    let mut turns = [Turn::Again; 2001];
    turns[1000] = Turn::Up(1);
    assert!(rt; takes(rt.alloc(), &turns, true, b"abcd")?, "all of them");
    let mut turns = [Turn::Again; 2002];
    turns[1000] = Turn::Up(1);
    assert!(rt; takes(rt.alloc(), &turns, false, b"a")?, "one too many");
    Ok(())
}
