//! What a small cloud answers.
use ac_base::{ClassName, Id, NoMemory, TraitName};
use ac_tables::{Cloud, Counts, FromTables, Sources, TableFault};
use std::alloc::Global;
use std::test::Fail;

mod draining;
mod refusals;

const LIMIT: usize = 67_108_864;

// The texts of the five tables, in their order.
type Texts<'a> = [&'a str; 5];

fn read(alloc: Global, texts: Texts) -> Result<Cloud, TableFault> {
    if texts.iter().any(|text| text.len() > LIMIT) {
        return Err(TableFault::NoMemory);
    }
    let src = Sources {
        providers: texts[0].as_bytes(),
        inventories: texts[1].as_bytes(),
        usages: Some(texts[2].as_bytes()),
        traits: Some(texts[3].as_bytes()),
        aggregates: Some(texts[4].as_bytes()),
    };
    Cloud::read(alloc, &src)
}

// Headers alone.
const NONE: Texts<'static> = [
    "uuid,root_provider_uuid,parent_provider_uuid\n",
    "resource_provider,resource_class,total,reserved,min_unit,max_unit,step_size,allocation_ratio\n",
    "resource_provider,resource_class,usage\n",
    "resource_provider,name\n",
    "resource_provider,uuid\n",
];

// P1 is the parent of P2, P3 that of P4, P9 is alone and shares through an aggregate of P2 and P4.
const SMALL: Texts<'static> = [
    "uuid,root_provider_uuid,parent_provider_uuid
00000000-0000-0000-0000-000000000009,00000000-0000-0000-0000-000000000009,None
00000000-0000-0000-0000-000000000004,00000000-0000-0000-0000-000000000003,00000000-0000-0000-0000-000000000003
00000000-0000-0000-0000-000000000003,00000000-0000-0000-0000-000000000003,
00000000-0000-0000-0000-000000000002,00000000-0000-0000-0000-000000000001,00000000-0000-0000-0000-000000000001
00000000-0000-0000-0000-000000000001,00000000-0000-0000-0000-000000000001,
",
    "resource_provider,resource_class,total,reserved,min_unit,max_unit,step_size,allocation_ratio
00000000-0000-0000-0000-000000000001,VCPU,8,0,1,8,1,1.0
00000000-0000-0000-0000-000000000009,DISK_GB,100,0,1,100,1,1.0
00000000-0000-0000-0000-000000000001,MEMORY_MB,4096,0,1,4096,1,1.0
",
    "resource_provider,resource_class,usage\n00000000-0000-0000-0000-000000000001,VCPU,7\n",
    "resource_provider,name
00000000-0000-0000-0000-000000000009,MISC_SHARES_VIA_AGGREGATE
00000000-0000-0000-0000-000000000009,CUSTOM_A
00000000-0000-0000-0000-000000000009,CUSTOM_A
",
    "resource_provider,uuid
00000000-0000-0000-0000-000000000002,00000000-0000-0000-0000-0000000000a1
00000000-0000-0000-0000-000000000004,00000000-0000-0000-0000-0000000000a1
00000000-0000-0000-0000-000000000009,00000000-0000-0000-0000-0000000000a1
00000000-0000-0000-0000-000000000009,{00000000-0000-0000-0000-0000000000a1}
",
];

const SMALL_COUNTS: Counts = Counts {
    providers: 5,
    inventories: 3,
    usages: 1,
    traits: 2,
    aggregates: 3,
};

// Parents, roots, and who is above whom.
fn has_trees(cloud: &Cloud) -> bool {
    cloud.len() == 5
        && cloud.parent(0).is_none()
        && cloud.parent(3) == Some(2)
        && cloud.root(1) == 0
        && cloud.root(4) == 4
        && cloud.is_ancestor(0, 1)
        && cloud.is_ancestor(1, 1)
        && !cloud.is_ancestor(1, 0)
        && !cloud.is_ancestor(0, 3)
}

// Who shares, and where that is available.
fn has_sharing(cloud: &Cloud) -> bool {
    cloud.len() == 5
        && cloud.shares(4)
        && !cloud.shares(1)
        && cloud.available(4, 0)
        && cloud.available(4, 4)
        && !cloud.available(4, 1)
        && !cloud.available(1, 2)
        && cloud.anchors(4) == [0u32, 2, 4].as_slice()
        && cloud.anchors(3) == [2u32].as_slice()
}

// Ids of providers, and the aggregate.
fn has_ids(cloud: &Cloud, p9: Id, a1: Id) -> bool {
    cloud.len() == 5
        && cloud.index_of(p9) == Some(4)
        && cloud.id(4) == p9
        && cloud.index_of(a1).is_none()
        && cloud.aggregates(1).contains(&a1)
        && !cloud.aggregates(0).contains(&a1)
}

// What there is of a class, and of a trait.
fn has_stock(cloud: &Cloud, class: &ClassName, name: &TraitName) -> bool {
    cloud.len() == 5
        && cloud.entries(0).len() == 2
        && cloud
            .inventory(0, class)
            .is_some_and(|inventory| inventory.total() == 8)
        && cloud.inventory(1, class).is_none()
        && cloud.used(0, class) == 7
        && cloud.traits(4).len() == 2
        && cloud.has_trait(4, name)
        && !cloud.has_trait(0, name)
}

fn has_names(alloc: Global, cloud: &Cloud) -> Result<bool, NoMemory> {
    let class = ClassName::read(alloc, b"VCPU")?;
    let name = TraitName::read(alloc, b"CUSTOM_A")?;
    Ok(match (class, name) {
        (Some(class), Some(name)) => has_stock(cloud, &class, &name),
        _ => false,
    })
}

#[test]
fn answers_of_a_small_cloud(rt: HostRuntime) -> Result<(), Fail> {
    let cloud = read(rt.alloc(), SMALL)?;
    let p9 = Id::read(b"00000000-0000-0000-0000-000000000009").ok_or("an id")?;
    let a1 = Id::read(b"00000000-0000-0000-0000-0000000000a1").ok_or("an id")?;
    assert!(rt; cloud.counts() == SMALL_COUNTS, "counts");
    assert!(rt; has_trees(&cloud), "trees");
    assert!(rt; has_sharing(&cloud), "sharing");
    assert!(rt; has_ids(&cloud, p9, a1), "ids");
    assert!(rt; has_names(rt.alloc(), &cloud)?, "names");
    Ok(())
}
