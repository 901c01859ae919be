//! Each reader that takes memory, run with each of its growths refused in turn: its value, or want of memory.
use super::{reads_class, reads_suffix, reads_trait};
use ac_base::{Names, NoMemory};

#[test]
fn class_name(rt: HostRuntime) {
    assert!(rt; reads_class(rt.alloc(), b"VCPU", true).unwrap_or(true));
}

#[test]
fn trait_name(rt: HostRuntime) {
    assert!(rt; reads_trait(rt.alloc(), b"HW_NUMA_ROOT", true).unwrap_or(true));
}

#[test]
fn suffix(rt: HostRuntime) {
    assert!(rt; reads_suffix(rt.alloc(), b"_NUMA", true).unwrap_or(true));
}

// A name that is read again, and one that isn't, after a growth was refused or not.
#[test]
fn shared_names(rt: HostRuntime) {
    let mut names = Names::new(rt.alloc());
    for text in ["VCPU", "PGPU", "VCPU"] {
        match names.class(text.as_bytes()) {
            Ok(Some(name)) => assert_eq!(rt; name.text(), text),
            Ok(None) => assert!(rt; false, "a name"),
            Err(fault) => assert_eq!(rt; fault, NoMemory),
        }
    }
}
