//! The candidates of worked clouds and queries, by both sources.
use super::{gives, part, rows_of};
use std::alloc::{AllocError, Global};
use std::process::Abort;
use std::test::Fail;

// Tables, with a bar behind each but the last, and lines of a query, a token, and what both sources give: the ends of the ids of each list, and a point
// where `None` comes twice.
type Case = (&'static str, &'static str);

static CASES: [Case; 22] = [
    // One host.
    (
        "@01,@01,\n|@01,VCPU,8,0,1,8,1,1.0\n",
        "resources=VCPU:2||01 /.",
    ),
    // Headers alone.
    ("", "resources=VCPU:2||."),
    // Capacity 3: one and a half for each of two units.
    (
        "@01,@01,\n|@01,VCPU,3,1,1,10,1,1.500000\n",
        "resources=VCPU:3||01 /.
resources=VCPU:4||.",
    ),
    // The greatest amount.
    (
        "@01,@01,\n|@01,VCPU,2147483647,0,1,2147483647,1,1\n",
        "resources=VCPU:2147483647||01 /.",
    ),
    // The greatest capacity.
    (
        "@01,@01,\n|@01,VCPU,2147483647,0,1,2147483647,1,1000000\n",
        "resources=VCPU:2147483647||01 /.",
    ),
    // Capacity 1: the rest of a ratio counts for nothing.
    (
        "@01,@01,\n|@01,VCPU,1,0,1,2,1,1.999\n",
        "resources=VCPU:2||.",
    ),
    // 9 of 8 are used.
    (
        "@01,@01,\n|@01,VCPU,8,0,1,8,1,1.0\n|@01,VCPU,9\n",
        "resources=VCPU:2||.
resources=VCPU:1||.",
    ),
    // No more than 4 at once.
    (
        "@01,@01,\n|@01,VCPU,100,0,1,4,1,1.0\n",
        "resources1=VCPU:3&resources2=VCPU:3&group_policy=none||.",
    ),
    // 7 of 8 are used.
    (
        "@01,@01,\n|@01,VCPU,8,0,1,8,1,1.0\n|@01,VCPU,7\n",
        "resources=VCPU:1||01 /.
resources=VCPU:2||.",
    ),
    // Even amounts alone.
    (
        "@01,@01,\n|@01,VCPU,8,0,2,8,2,1.0\n",
        "resources=VCPU:4||01 /.
resources=VCPU:1||.
resources=VCPU:3||.",
    ),
    // Two hosts, of which one has memory.
    (
        "@01,@01,\n@03,@03,\n|@01,VCPU,8,0,1,8,1,1.0\n@01,MEMORY_MB,4096,0,1,4096,1,1.0\n@03,VCPU,8,0,1,8,1,1.0\n",
        "resources=VCPU:1,MEMORY_MB:512||01 01 /.",
    ),
    // A host and its child.
    (
        "@01,@01,\n@02,@01,@01\n|@01,VCPU,8,0,1,8,1,1.0\n@02,VCPU,8,0,1,8,1,1.0\n",
        "resources1=VCPU:5&resources2=VCPU:5&group_policy=none||01 02 /02 01 /.
resources1=VCPU:5&resources2=VCPU:5&group_policy=none|@01,@07|02 01 /.
resources1=VCPU:5&resources2=VCPU:5&group_policy=none|@01,@02|02 01 /.
resources1=VCPU:5&resources2=VCPU:5&group_policy=none|@02,@01|.
resources1=VCPU:5&resources2=VCPU:5&group_policy=none|@07,@07|.",
    ),
    // Two hosts.
    (
        "@01,@01,\n@03,@03,\n|@01,VCPU,8,0,1,8,1,1.0\n@03,VCPU,8,0,1,8,1,1.0\n",
        "resources1=VCPU:5&resources2=VCPU:5&group_policy=none||.",
    ),
    // A host with memory, and its child.
    (
        "@01,@01,\n@02,@01,@01\n|@01,VCPU,8,0,1,8,1,1.0\n@01,MEMORY_MB,4096,0,1,4096,1,1.0\n@02,VCPU,8,0,1,8,1,1.0\n",
        "resources=MEMORY_MB:512&resources1=VCPU:1&resources2=VCPU:1&group_policy=isolate||01 01 02 /01 02 01 /.",
    ),
    // Two nodes, of which one has a function.
    (
        "@01,@01,\n@02,@01,@01\n@03,@01,@01\n@04,@01,@02\n|@04,VCPU,4,0,1,4,1,1.0\n||@02,HW_NUMA_ROOT\n@03,HW_NUMA_ROOT\n",
        "resources_PF=VCPU:1&required_NUMA=HW_NUMA_ROOT&same_subtree=_NUMA,_PF||02 04 /.
resources_PF=VCPU:1&required_NUMA=!CUSTOM_X&same_subtree=_NUMA,_PF&group_policy=isolate||01 04 /02 04 /04 04 /.",
    ),
    // Two trees that share the disk of a provider in neither.
    (
        "@01,@01,\n@02,@01,@01\n@03,@03,\n@04,@03,@03\n@09,@09,\n|@01,VCPU,8,0,1,8,1,1.0\n@03,VCPU,8,0,1,8,1,1.0\n@09,DISK_GB,100,0,1,100,1,1.0\n||@09,MISC_SHARES_VIA_AGGREGATE\n|@02,@a1\n@04,@a1\n@09,@a1\n",
        "resources=DISK_GB:10||09 /.
resources=DISK_GB:10,VCPU:1||09 01 /09 03 /.
resources=DISK_GB:10,VCPU:1|@09,@01|09 03 /.",
    ),
    // A disk that nobody shares.
    (
        "@09,@09,\n|@09,DISK_GB,100,0,1,100,1,1.0\n||@09,MISC_SHARES_VIA_AGGREGATE\n",
        "resources=DISK_GB:10||09 /.",
    ),
    // The disk has a trait.
    (
        "@01,@01,\n@02,@01,@01\n@03,@03,\n@04,@03,@03\n@09,@09,\n|@01,VCPU,8,0,1,8,1,1.0\n@03,VCPU,8,0,1,8,1,1.0\n@09,DISK_GB,100,0,1,100,1,1.0\n||@09,MISC_SHARES_VIA_AGGREGATE\n@09,CUSTOM_SSD\n|@02,@a1\n@04,@a1\n@09,@a1\n",
        "resources=DISK_GB:10,VCPU:1&required=CUSTOM_SSD||09 01 /09 03 /.",
    ),
    // One of the hosts has a trait.
    (
        "@01,@01,\n@02,@01,@01\n@03,@03,\n@04,@03,@03\n@09,@09,\n|@01,VCPU,8,0,1,8,1,1.0\n@03,VCPU,8,0,1,8,1,1.0\n@09,DISK_GB,100,0,1,100,1,1.0\n||@09,MISC_SHARES_VIA_AGGREGATE\n@03,CUSTOM_X\n|@02,@a1\n@04,@a1\n@09,@a1\n",
        "resources=DISK_GB:10&root_required=CUSTOM_X||09 /.
resources=DISK_GB:10,VCPU:1&root_required=CUSTOM_X||09 03 /.
resources=DISK_GB:10&root_required=CUSTOM_Y||.
resources=DISK_GB:10,VCPU:1&root_required=CUSTOM_Y||.",
    ),
    // Two children with a trait each.
    (
        "@01,@01,\n@02,@01,@01\n@03,@01,@01\n|@02,VCPU,8,0,1,8,1,1.0\n@03,PGPU,1,0,1,1,1,1.0\n||@02,CUSTOM_A\n@03,CUSTOM_B\n",
        "resources=VCPU:1,PGPU:1&required=CUSTOM_A,CUSTOM_B||03 02 /.
resources=PGPU:1,VCPU:1&required=in:CUSTOM_A,CUSTOM_X&required=CUSTOM_B||03 02 /.
resources=PGPU:1,VCPU:1&required=in:CUSTOM_X,CUSTOM_Y||.
resources=PGPU:1,VCPU:1&required=in:CUSTOM_A,CUSTOM_X&required=in:CUSTOM_B,CUSTOM_Y||03 02 /.
resources=PGPU:1,VCPU:1&required=in:CUSTOM_A,CUSTOM_B&required=in:CUSTOM_Y||.
resources1=VCPU:1&required1=in:CUSTOM_A,CUSTOM_B||02 /.
resources1=VCPU:1&required1=in:CUSTOM_B||.
resources1=VCPU:1&required1=in:CUSTOM_A&required1=in:CUSTOM_B||.
resources=VCPU:1&required=CUSTOM_A&required=!CUSTOM_A||.",
    ),
    // A provider whose root is in an aggregate.
    (
        "@01,@01,\n@02,@01,@01\n|@02,VCPU,8,0,1,8,1,1.0\n|||@01,@a1\n",
        "resources=VCPU:1&member_of=@a1||02 /.
resources1=VCPU:1&member_of1=@a1||.
resources=VCPU:1&member_of=!@a1||.",
    ),
    // A root with a trait, and another host.
    (
        "@01,@01,\n@02,@01,@01\n@03,@03,\n|@02,VCPU,8,0,1,8,1,1.0\n@03,VCPU,8,0,1,8,1,1.0\n||@01,CUSTOM_OLD\n",
        "resources=VCPU:1&root_required=!CUSTOM_OLD||03 /.
resources=VCPU:1&in_tree=@01||02 /.
resources=VCPU:1&in_tree=@08||.
resources=VCPU:1&required=!CUSTOM_OLD||02 /03 /.",
    ),
];

fn agree(rt: &(impl Abort + AllocGlobal), case: &Case) -> Result<(), AllocError> {
    let (tables, lines) = case;
    for line in lines.lines() {
        let after = part(line, 1);
        let after = if after.is_empty() { None } else { Some(after) };
        let got = gives(rt.alloc(), rows_of(tables), part(line, 0), after, 9)?;
        assert_eq!(rt; got.as_str(), part(line, 2), "{line}");
    }
    Ok(())
}

#[test]
fn both_sources_agree(rt: HostRuntime) -> Result<(), Fail> {
    for case in &CASES {
        agree(&rt, case)?;
    }
    Ok(())
}
