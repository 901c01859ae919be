//! What makes a second line, run with each of its growths refused in turn: the whole line, or want of memory.
use ac_cloud::HostFault;
use ac_query::{Query, QueryFault, TokenFault, Version};
use ac_remedies::{
    host_remedy, query_remedy, record_remedy, size_remedy, token_remedy, unread_remedy,
};
use ac_tables::{Sources, Table, TableKind};
use std::alloc::AllocError;
use std::process::Abort;

// Whether a line is this one, or memory was refused.
fn is_whole(rt: &impl Abort, got: Result<Vec<u8>, AllocError>, want: &str) {
    match got {
        Ok(line) => assert!(rt; line.as_slice() == want.as_bytes(), "{want}"),
        Err(AllocError) => {}
    }
}

// The line of a fault of the second pair.
fn check_pair(rt: &(impl Abort + AllocGlobal), text: &str, fault: &QueryFault, want: &str) {
    is_whole(
        rt,
        query_remedy(rt.alloc(), text, Version::V136, fault),
        want,
    );
}

#[test]
fn name(rt: HostRuntime) {
    check_pair(
        &rt,
        "resources=VCPU:1&member-of=x",
        &QueryFault::UnknownParameter(2),
        "  \"member-of\": no parameter; member_of?\n",
    );
}

#[test]
fn value(rt: HostRuntime) {
    check_pair(
        &rt,
        "resources=VCPU:1&required=hw_cpu,!custom%5Fa",
        &QueryFault::BadValue(2),
        "  required=\"hw_cpu,!custom_a\": a trait is written A-Z, 0-9 and _; HW_CPU,!CUSTOM_A?\n",
    );
}

#[test]
fn resources(rt: HostRuntime) {
    check_pair(
        &rt,
        "limit=1&resources=VCPU:1,DISK_GB:1,VCPU:2",
        &QueryFault::BadValue(2),
        "  resources=\"VCPU:1,DISK_GB:1,VCPU:2\": \"VCPU:2\" is wrong: CLASS:AMOUNT between commas, with : where the client has =; each class once, in A-Z, 0-9 and _; amounts from 1 to 2147483647\n",
    );
}

#[test]
fn opposed(rt: HostRuntime) {
    check_pair(
        &rt,
        "resources=VCPU:1&required=A,!A",
        &QueryFault::Conflict(2),
        "  required=\"A,!A\": \"A\" is required and forbidden: leave one of the two out\n",
    );
}

#[test]
fn token(rt: HostRuntime) {
    let text = "resources=VCPU:1,DISK_GB:1&resources1=VF:1";
    let Ok(query) = Query::read(rt.alloc(), text, Version::V136) else {
        return;
    };
    let id = "00000000-0000-0000-0000-000000000001";
    is_whole(
        &rt,
        token_remedy(rt.alloc(), id, &query, TokenFault::WrongLength),
        "  UUIDs 1, slots 3: one for each of DISK_GB, VCPU, \"1\", in this order\n",
    );
}

#[test]
fn host(rt: HostRuntime) {
    is_whole(
        &rt,
        host_remedy(rt.alloc(), "cmp", HostFault::Ambiguous),
        "  \"cmp\": several providers have this name: give the UUID of one of them\n",
    );
}

const INVENTORIES: &[u8] =
    b"resource_class,resource_provider,total,reserved,min_unit,max_unit,step_size,allocation_ratio
CUSTOM_TINY,00000000-0000-0000-0000-000000000002,1,2,1,1,1,1.0
MEMORY_MB,00000000-0000-0000-0000-000000000001,8,0,1,8,1
";

// The line of a fault of a record of the inventories.
fn check_record(rt: &(impl Abort + AllocGlobal), row: u32, kind: TableKind, want: &str) {
    let src = Sources {
        providers: b"uuid,root_provider_uuid,parent_provider_uuid\n",
        inventories: INVENTORIES,
        usages: None,
        traits: None,
        aggregates: None,
    };
    is_whole(
        rt,
        record_remedy(rt.alloc(), "t.csv", &src, Table::Inventories, row, kind),
        want,
    );
}

#[test]
fn record(rt: HostRuntime) {
    check_record(
        &rt,
        2,
        TableKind::ReservedOverTotal,
        "  t.csv, reserved \"2\", total \"1\", provider 00000000-0000-0000-0000-000000000002, CUSTOM_TINY: reserved is at most total; lower it in the cloud, and export again\n",
    );
}

#[test]
fn width(rt: HostRuntime) {
    check_record(
        &rt,
        3,
        TableKind::Width,
        "  t.csv, fields 7, header 8, provider 00000000-0000-0000-0000-000000000001, MEMORY_MB: a record has as many fields as the header; put a field with a comma in quotes\n",
    );
}

#[test]
fn header(rt: HostRuntime) {
    let src = Sources {
        providers: b"uuid;root_provider_uuid,parent_provider_uuid\n",
        inventories: INVENTORIES,
        usages: None,
        traits: None,
        aggregates: None,
    };
    is_whole(
        &rt,
        record_remedy(
            rt.alloc(),
            "t.csv",
            &src,
            Table::Providers,
            1,
            TableKind::MissingColumn,
        ),
        "  t.csv, uuid, header \"uuid;root_provider_uuid,parent_provider_uuid\": the header lacks this column; export the table with all its columns\n",
    );
}

#[test]
fn size(rt: HostRuntime) {
    is_whole(
        &rt,
        size_remedy(rt.alloc(), "t.csv"),
        "  t.csv: more than 67108864 bytes; take out rows that no query asks for\n",
    );
}

#[test]
fn unread(rt: HostRuntime) {
    is_whole(
        &rt,
        unread_remedy(rt.alloc(), "t.csv", Some("Is a directory")),
        "  t.csv: Is a directory; give the path of a file that can be read\n",
    );
}
