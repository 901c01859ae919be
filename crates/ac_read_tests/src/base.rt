//! Each reader of a name by itself.
use ac_base::{ClassName, NoMemory, Suffix, TraitName};
use std::alloc::Global;
use std::test::Fail;

mod devices;
mod refusals;

// Whether a text is read as the name of a class, or is none.
fn reads_class(alloc: Global, text: &[u8], is_name: bool) -> Result<bool, NoMemory> {
    Ok(match ClassName::read(alloc, text)? {
        Some(name) => is_name && name.text().as_bytes() == text,
        None => !is_name,
    })
}

// As the name of a trait.
fn reads_trait(alloc: Global, text: &[u8], is_name: bool) -> Result<bool, NoMemory> {
    Ok(match TraitName::read(alloc, text)? {
        Some(name) => is_name && name.text().as_bytes() == text,
        None => !is_name,
    })
}

// As a suffix.
fn reads_suffix(alloc: Global, text: &[u8], is_suffix: bool) -> Result<bool, NoMemory> {
    Ok(match Suffix::read(alloc, text)? {
        Some(suffix) => is_suffix && suffix.text().as_bytes() == text,
        None => !is_suffix,
    })
}

#[test]
fn names(rt: HostRuntime) -> Result<(), Fail> {
    for (text, is_name) in [("VCPU", true), ("vcpu", false), ("", false)] {
        assert!(rt;
            reads_class(rt.alloc(), text.as_bytes(), is_name)?,
            "class {text}"
        );
    }
    assert!(rt;
        reads_class(rt.alloc(), &[b'A'; 256], false)?,
        "256 letters"
    );
    assert!(rt; reads_trait(rt.alloc(), b"HW_NUMA_ROOT", true)?, "a trait");
    assert!(rt; reads_suffix(rt.alloc(), b"_NUMA", true)?, "a suffix");
    assert!(rt; reads_suffix(rt.alloc(), b"", false)?, "no suffix");
    Ok(())
}
