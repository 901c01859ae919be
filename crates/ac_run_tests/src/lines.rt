//! Lines over feeds that are slow, interrupted or failing: what is given, and how often a feed is asked.
use ac_base::{MemFeed, Turn};
use ac_session::{Lines, Next};
use std::alloc::{AllocError, Global};
use std::test::Fail;

mod refusals;

// A line in brackets, or its length where it is long.
fn shown(alloc: Global, line: &[u8]) -> Result<String, AllocError> {
    if line.len() > 20 {
        let count = line.len();
        return format!(in alloc; "[{count}]");
    }
    let text = String::from_utf8_lossy(alloc, line)?;
    format!(in alloc; "[{text}]")
}

// All that a feed of these bytes gives, up to its end; it goes on after failures.
fn told(alloc: Global, bytes: &[u8], turns: &[Turn]) -> Result<String, AllocError> {
    let mut text = String::new(alloc);
    let Ok(mut lines) = Lines::new(alloc, MemFeed::new(bytes, turns)) else {
        return Err(AllocError);
    };
    for _ in 0..20 {
        match lines.next() {
            Next::Line(line) => text.push_str(shown(alloc, line)?.as_str())?,
            Next::TooLong => text.push_str("long ")?,
            Next::Failed => text.push_str("failed ")?,
            Next::End => {
                text.push_str("end")?;
                break;
            }
        }
    }
    Ok(text)
}

#[test]
fn gives_what_comes_behind_a_failure(rt: HostRuntime) -> Result<(), Fail> {
    let cases: [(&[u8], &[Turn], &str); 4] = [
        // A failure between two lines, and one in a line.
        (
            b"a\nbc\n",
            &[Turn::Up(2), Turn::Failed],
            "[a]failed [bc]end",
        ),
        (
            b"a\nbc\n",
            &[Turn::Up(3), Turn::Failed],
            "[a]failed [bc]end",
        ),
        // The feed would fail, but isn't asked before both lines were given.
        (
            b"a\nb\nc",
            &[Turn::Up(4), Turn::Failed],
            "[a][b]failed [c]end",
        ),
        (
            b"ab\n",
            &[Turn::Again, Turn::Up(1), Turn::Again, Turn::Failed],
            "failed [ab]end",
        ),
    ];
    for (bytes, turns, want) in cases {
        let text = told(rt.alloc(), bytes, turns)?;
        assert_eq!(rt; text.as_str(), want);
    }
    Ok(())
}

// Cut at each place, with the rest byte by byte.
#[test]
fn gives_the_same_over_each_cut(rt: HostRuntime) -> Result<(), Fail> {
    for cut in 1..13 {
        let mut turns = [Turn::Up(1); 14];
        turns[0] = Turn::Up(cut);
        turns[1] = Turn::Again;
        let text = told(rt.alloc(), b"ab\ncd\r\n\nefg\r", &turns)?;
        assert_eq!(rt; text.as_str(), "[ab][cd][][efg]end", "cut at {cut}");
    }
    Ok(())
}

// A thousand interrupted calls in a row are borne.
#[test]
fn bears_interrupted_calls(rt: HostRuntime) -> Result<(), Fail> {
    let mut turns = [Turn::Again; 2001];
    turns[1000] = Turn::Up(1);
    let text = told(rt.alloc(), b"ab\n", &turns)?;
    assert_eq!(rt; text.as_str(), "[ab]end");
    let text = told(rt.alloc(), b"ab\n", &turns[..1000])?;
    assert_eq!(rt; text.as_str(), "[ab]end");
    let text = told(rt.alloc(), b"ab\n", &[Turn::Again; 1001])?;
    assert_eq!(rt; text.as_str(), "failed [ab]end");
    Ok(())
}

// So many bytes, and then others.
fn filled(alloc: Global, count: usize, rest: &[u8]) -> Result<Vec<u8>, AllocError> {
    let mut bytes = vec![in alloc; b'x'; count]?;
    bytes.extend_from_slice(rest)?;
    Ok(bytes)
}

#[test]
fn passes_over_long_lines(rt: HostRuntime) -> Result<(), Fail> {
    let cases: [(usize, &[u8], &str); 10] = [
        (131_072, b"\nb\n", "[131072][b]end"),
        (131_073, b"\nb\n", "long [b]end"),
        // The carriage return counts.
        (131_071, b"\r\nb\n", "[131071][b]end"),
        (131_072, b"\r\nb\n", "long [b]end"),
        // The end without a newline.
        (131_072, b"", "[131072]end"),
        (131_073, b"", "long end"),
        (131_071, b"\r", "[131071]end"),
        // Twice the room, and a part of it again.
        (262_146, b"\nb\n", "long [b]end"),
        (300_000, b"\n\nb", "long [][b]end"),
        (300_000, b"", "long end"),
    ];
    for (count, rest, want) in cases {
        let bytes = filled(rt.alloc(), count, rest)?;
        let text = told(rt.alloc(), bytes.as_slice(), &[])?;
        assert_eq!(rt; text.as_str(), want, "{count} bytes");
    }
    Ok(())
}

// A short line before a long one, which has to be moved to the front of the room.
#[test]
fn gives_a_long_line_behind_a_short_one(rt: HostRuntime) -> Result<(), Fail> {
    let mut bytes = filled(rt.alloc(), 3, b"\n")?;
    let long = filled(rt.alloc(), 131_072, b"\nb")?;
    bytes.extend_from_slice(long.as_slice())?;
    let text = told(rt.alloc(), bytes.as_slice(), &[])?;
    assert_eq!(rt; text.as_str(), "[xxx][131072][b]end");
    Ok(())
}
