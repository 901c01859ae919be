//! The name of a provider, as it is written: no byte of it moves a terminal's cursor, and all of it is text.
ghost use Rattle.std.specs.Prelude.{◌≡◌, ◌++◌, map, replicate, IfOk};
ghost use Rattle.ac_report.specs.Names.{shown_byte, shown_name};

use ac_base::NoMemory;
use std::alloc::Global;

// What is written of a byte of a text.
fn shown_byte(byte: u8) -> u8
    ensures { result ≡ shown_byte byte }
{
    if byte < 32 || byte == 127 { b'?' } else { byte }
}

// Adds a text.
fn put_text(shown: &mut Vec<u8>, text: &[u8]) -> Result<(), NoMemory>
    ensures { IfOk result (λ _. shown.new.items ≡ shown.old.items ++ map shown_byte text.now) }
{
    for &byte in text {
        shown.push(shown_byte(byte))?;
    }
    Ok(())
}

// Adds a `?` for each of so many bytes.
fn put_marks(shown: &mut Vec<u8>, count: usize) -> Result<(), NoMemory>
    ensures { IfOk result (λ _. shown.new.items ≡ shown.old.items ++ replicate count 63) }
{
    for _byte in 0..count {
        shown.push(b'?')?;
    }
    Ok(())
}

/// A name, with `?` for each byte that moves a terminal's cursor (below 32, or 127), and for each that is of no UTF-8 text.
pub fn shown_name(alloc: Global, name: &[u8]) -> Result<Vec<u8>, NoMemory>
    ensures { IfOk result (λ shown. shown.items ≡ shown_name name.now) }
{
    let mut shown = Vec::new(alloc);
    for chunk in name.utf8_chunks() {
        put_text(&mut shown, chunk.valid().as_bytes())?;
        put_marks(&mut shown, chunk.invalid().len())?;
    }
    Ok(shown)
}
