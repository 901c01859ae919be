//! Lines of a text, and the words of a line.
ghost use Rattle.std.specs.Prelude.{◌≡◌, map, IfOk};
ghost use Rattle.ac_change.specs.Lines.{is_blank, is_comment, is_passed, is_word, lines_of, words_of};

use std::alloc::{AllocError, Global};

// Whether a byte stands between words.
fn is_blank(byte: u8) -> bool
    ensures { result ≡ is_blank byte }
{
    byte == b' ' || byte == b'\t' || byte == b'\r'
}

// The lines of a text.
#[tactic(auto, unfolding(crate::specs::Lines::lines_of))]
pub(crate) fn lines(alloc: Global, text: &[u8]) -> Result<Vec<&[u8]>, AllocError>
    ensures { IfOk result (λ lines. map (λ l. l.now) lines.items ≡ lines_of text.now) }
{
    text.split(|byte| *byte == b'\n').collect(alloc)
}

// The words of a line.
#[tactic(auto, unfolding(crate::specs::Lines::words_of))]
pub(crate) fn words(alloc: Global, line: &[u8]) -> Result<Vec<&[u8]>, AllocError>
    ensures { IfOk result (λ words. map (λ w. w.now) words.items ≡ words_of line.now) }
{
    line.split(|byte| is_blank(*byte))
        .filter(|word| !word.is_empty())
        .collect(alloc)
}

// Whether a word begins a comment.
fn is_comment(word: &[u8]) -> bool
    ensures { result ≡ is_comment word.now }
{
    match word.first() {
        Some(byte) => *byte == b'#',
        None => false,
    }
}

// Whether a line of these words is passed over.
pub(crate) fn is_passed(words: &[&[u8]]) -> bool
    ensures { result ≡ is_passed (map (λ w. w.now) words.now) }
{
    match words.first() {
        Some(word) => is_comment(word),
        None => true,
    }
}
