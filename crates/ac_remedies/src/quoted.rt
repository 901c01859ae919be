//! Texts in pieces, and values in quotes that every terminal can show.
ghost use Rattle.std.specs.Prelude.{◌≡◌, ◌<◌, ◌++◌, OnOk, codes, take};
ghost use Rattle.std.specs.List.{flat_map};
ghost use Rattle.ac_remedies.specs.Quoted.{hex_digit, is_plain, more_mark, quoted, shown};

use std::alloc::AllocError;

// The most bytes of a value that are shown.
const MOST_SHOWN: usize = 64;

/// Puts pieces behind a text.
pub fn push_all(text: &mut Vec<u8>, pieces: &[&[u8]]) -> Result<(), AllocError>
    ensures text { OnOk result (text.new.items
        ≡ text.old.items ++ flat_map (λ piece. piece.now) pieces.now) }
{
    for piece in pieces {
        text.extend_from_slice(piece)?;
    }
    Ok(())
}

// Whether a byte in quotes stands for itself.
fn is_plain(byte: u8) -> bool
    ensures { result ≡ is_plain byte }
{
    byte >= b' ' && byte <= b'~' && byte != b'"' && byte != b'\\'
}

fn hex_digit(value: u8) -> u8
    requires { value < 16 }
    ensures { result ≡ hex_digit value }
{
    if value < 10 {
        b'0' + value
    } else {
        b'a' + (value - 10)
    }
}

// Puts a byte behind a text as it stands in quotes.
#[tactic(auto, unfolding(crate::specs::Quoted::shown))]
fn push_shown(text: &mut Vec<u8>, byte: u8) -> Result<(), AllocError>
    ensures { OnOk result (text.new.items ≡ text.old.items ++ shown byte) }
{
    if is_plain(byte) {
        text.push(byte)?;
        return Ok(());
    }
    let digits = [b'\\', b'x', hex_digit(byte / 16), hex_digit(byte % 16)];
    text.extend_from_slice(&digits)
}

/// Puts bytes behind a text as they stand in quotes: a path stands so too, without quotes and whole.
pub(crate) fn push_each(text: &mut Vec<u8>, bytes: &[u8]) -> Result<(), AllocError>
    ensures { OnOk result (text.new.items ≡ text.old.items ++ flat_map shown bytes.now) }
{
    for byte in bytes {
        push_shown(text, *byte)?;
    }
    Ok(())
}

// The bytes of a value that are shown.
fn first_bytes(value: &[u8]) -> &[u8]
    ensures { result.now ≡ take 64 value.now }
{
    if value.len() > MOST_SHOWN {
        value.split_at(MOST_SHOWN).0
    } else {
        value
    }
}

// What stands behind the bytes that are shown.
fn end_mark(value: &[u8]) -> &'static [u8]
    ensures { result.now ≡ codes "\"" ++ more_mark value.now }
{
    if value.len() > MOST_SHOWN {
        b"\".."
    } else {
        b"\""
    }
}

/// Puts a value in quotes behind a text: its first 64 bytes, with `\xHH` for each that isn't plain ASCII and for `"` and `\`.
/// Two points behind the quotes say that it has more bytes.
#[tactic(auto, unfolding(crate::specs::Quoted::quoted))]
pub fn push_quoted(text: &mut Vec<u8>, value: &[u8]) -> Result<(), AllocError>
    ensures text { OnOk result (text.new.items ≡ text.old.items ++ quoted value.now) }
{
    text.push(b'"')?;
    push_each(text, first_bytes(value))?;
    text.extend_from_slice(end_mark(value))
}
