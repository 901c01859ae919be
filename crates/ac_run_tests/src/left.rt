//! What a run or a session over devices in memory leaves.
use std::alloc::{AllocError, Global};

#[derive(Drop)]
pub(crate) struct Left {
    pub(crate) output: String,
    pub(crate) line: String,
    pub(crate) status: u8,
}

/// The text of what a sink took.
pub(crate) fn text_of(alloc: Global, bytes: &[u8]) -> Result<String, AllocError> {
    match std::str::from_utf8(bytes) {
        Ok(text) => String::from_str(alloc, text),
        Err(_) => String::from_str(alloc, "no text"),
    }
}

/// A text with each `@` written out: `@1` stands for the UUID that ends with 1.
pub(crate) fn expanded(alloc: Global, text: &str) -> Result<String, AllocError> {
    text.replace(alloc, "@", "00000000-0000-0000-0000-00000000000")
}
