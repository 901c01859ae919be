//! The alphabets of names and suffixes.
ghost use Rattle.std.specs.Prelude.{◌≡◌, IfOk, None, Ok};
ghost use Rattle.std.specs.List.{list_all};
ghost use Rattle.std.specs.Option.{option_map};
ghost use Rattle.std.specs.Rc.{rc_str_bytes};
ghost use Rattle.std.specs.Str.{IsUtf8};
ghost use Rattle.std.specs.String.{string_bytes};
ghost use Rattle.ac_base.specs.Texts.{is_name_char, is_name, name_value, is_suffix_char, is_suffix};

use super::NoMemory;
use std::alloc::Global;
use std::rc::RcStr;

fn is_name_char(b: u8) -> bool
    ensures { result ≡ is_name_char b }
{
    b.is_ascii_uppercase() || b.is_ascii_digit() || b == b'_'
}

fn are_name_chars(text: &[u8]) -> bool
    ensures { result ≡ list_all is_name_char text.now }
{
    text.iter().all(|b| is_name_char(*b))
}

pub(super) fn is_name(text: &[u8]) -> bool
    ensures { result ≡ is_name text.now }
{
    !text.is_empty() && text.len() <= 255 && are_name_chars(text)
}

fn is_suffix_char(b: u8) -> bool
    ensures { result ≡ is_suffix_char b }
{
    is_name_char(b) || b.is_ascii_lowercase() || b == b'-'
}

fn are_suffix_chars(text: &[u8]) -> bool
    ensures { result ≡ list_all is_suffix_char text.now }
{
    text.iter().all(|b| is_suffix_char(*b))
}

pub(super) fn is_suffix(text: &[u8]) -> bool
    ensures { result ≡ is_suffix text.now }
{
    !text.is_empty() && text.len() <= 64 && are_suffix_chars(text)
}

// Bytes that are text, as text.
pub(super) fn as_text(bytes: &[u8]) -> &str
    requires { IsUtf8 bytes.now }
    ensures { result.now ≡ bytes.now }
{
    match std::str::from_utf8(bytes) {
        Ok(text) => text,
        Err(_) => unreachable!(),
    }
}

// Copies a text.
pub(super) fn copy_text(alloc: Global, text: &[u8]) -> Result<String, NoMemory>
    requires { IsUtf8 text.now }
    ensures { IfOk result (λ s. string_bytes s ≡ text.now) }
{
    Ok(String::from_str(alloc, as_text(text))?)
}

// Reads a name and copies its text; every other text is no name.
#[tactic(auto, using(crate::proofs::NameFacts::text_name))]
pub(super) fn read_name(alloc: Global, text: &[u8]) -> Result<Option<RcStr>, NoMemory>
    ensures value { IfOk result (λ name. option_map rc_str_bytes name ≡ name_value text.now) }
    ensures unnamed { name_value text.now ≡ None → result ≡ Ok None }
{
    if !is_name(text) {
        return Ok(None);
    }
    Ok(Some(RcStr::from_str(alloc, as_text(text))?))
}
