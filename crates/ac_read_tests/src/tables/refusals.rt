//! What reads a table, run with each of its growths refused in turn: all of it, or want of memory.
use super::{NONE, SMALL, read};
use ac_base::MemFeed;
use ac_tables::{ReadFault, Table, TableFault, TableKind, drain};

#[test]
fn cloud(rt: HostRuntime) {
    match read(rt.alloc(), SMALL) {
        Ok(cloud) => assert!(rt; cloud.len() == 5 && cloud.counts().aggregates == 3, "whole"),
        Err(fault) => assert!(rt; fault == TableFault::NoMemory, "want of memory"),
    }
}

// Names are all there, or want of memory is told.
#[test]
fn named_cloud(rt: HostRuntime) {
    let providers = "uuid,name,root_provider_uuid,parent_provider_uuid
00000000-0000-0000-0000-000000000001,cmp-1,00000000-0000-0000-0000-000000000001,
00000000-0000-0000-0000-000000000002,,00000000-0000-0000-0000-000000000002,
00000000-0000-0000-0000-000000000003,cmp-3,00000000-0000-0000-0000-000000000003,
";
    match read(rt.alloc(), [providers, NONE[1], NONE[2], NONE[3], NONE[4]]) {
        Ok(cloud) => assert!(rt;
            cloud.host(b"cmp-1") == Ok(0) && cloud.host(b"cmp-3") == Ok(2),
            "whole"
        ),
        Err(fault) => assert!(rt; fault == TableFault::NoMemory, "want of memory"),
    }
}

// The fault stands at the end of what is read: it is told, or want of memory before it.
#[test]
fn refused_tables(rt: HostRuntime) {
    let usages = "resource_provider,resource_class,usage
00000000-0000-0000-0000-000000000001,VCPU,1
00000000-0000-0000-0000-000000000001,DISK_GB,1
";
    let fault = TableFault::At {
        table: Table::Usages,
        row: 3,
        kind: TableKind::NoInventory,
    };
    match read(rt.alloc(), [SMALL[0], SMALL[1], usages, NONE[3], NONE[4]]) {
        Ok(_) => assert!(rt; false, "a usage without an inventory"),
        Err(told) => assert!(rt; told == fault || told == TableFault::NoMemory, "the fault"),
    }
}

#[test]
fn bytes(rt: HostRuntime) {
    let mut feed = MemFeed::new(SMALL[0].as_bytes(), &[]);
    match drain(rt.alloc(), &mut feed) {
        Ok(bytes) => assert!(rt; bytes.as_slice() == SMALL[0].as_bytes(), "whole"),
        Err(fault) => assert!(rt; fault == ReadFault::NoMemory, "want of memory"),
    }
}
