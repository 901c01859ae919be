//! The text of a query as it may be given: by itself, or behind the path of a URL and a `?`, in a line of a log.
ghost use Rattle.std.specs.Prelude.{◌≡◌};
ghost use Rattle.std.specs.List.{before_first, list_any};
ghost use Rattle.ac_run.specs.Wanted.Mark.{has_path, is_end, is_joint, past_mark};

// Whether a text has `=` or `&`.
fn has_joint(text: &str) -> bool
    ensures { result ≡ list_any is_joint text.now }
{
    text.as_bytes()
        .iter()
        .any(|byte| *byte == b'=' || *byte == b'&')
}

/// Whether a text has a `?`, with neither `=` nor `&` before the first: what stands before it may be the path of a URL.
pub fn has_path(text: &str) -> bool
    ensures { result ≡ has_path text.now }
{
    match text.split_once('?') {
        Some((path, _)) => !has_joint(path),
        None => false,
    }
}

// A text up to white space or a quote, at which a URL ends in a line of a log.
fn before_end(text: &str) -> &str
    ensures { result.now ≡ before_first is_end text.now }
{
    let end = text
        .as_bytes()
        .iter()
        .position(|byte| *byte <= b' ' || *byte == b'"' || *byte == b'\'');
    match end {
        Some(end) => &text[..end],
        None => text,
    }
}

/// What stands behind the first `?` of a text up to white space or a quote, where neither `=` nor `&` stands before the `?`; else the whole text.
#[tactic(auto, unfolding(crate::specs::Wanted::Mark::past_mark))]
pub fn past_mark(text: &str) -> &str
    ensures { result.now ≡ past_mark text.now }
{
    match text.split_once('?') {
        Some((path, query)) if !has_joint(path) => before_end(query),
        _ => text,
    }
}
