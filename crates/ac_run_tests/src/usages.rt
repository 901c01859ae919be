//! The table of usages of a small cloud, over a sink that fails.
use crate::left::expanded;
use ac_base::{MemSink, Turn};
use ac_report::PageFault;
use ac_session::write_usages;
use ac_tables::{Cloud, FromTables, Sources};
use std::alloc::{AllocError, Global};
use std::test::Fail;

mod refusals;

// A child above its parent in the table, and three classes, of which one isn't in use.
const PROVIDERS: &str = "uuid,root_provider_uuid,parent_provider_uuid\n@2,@1,@1\n@1,@1,\n";

const INVENTORIES: &str =
    "resource_provider,resource_class,total,reserved,min_unit,max_unit,step_size,allocation_ratio\n\
    @2,VCPU,8,0,1,8,1,1.0\n@1,VCPU,8,0,1,8,1,1.0\n@1,DISK_GB,9,0,1,9,1,1.0\n@1,MEMORY_MB,64,0,1,64,1,1.0\n";

const USAGES: &str =
    "resource_provider,resource_class,usage\n@2,VCPU,12\n@1,VCPU,3\n@1,MEMORY_MB,0\n@1,DISK_GB,9\n";

const LIMIT: usize = 67_108_864;

fn used_cloud(alloc: Global) -> Result<Option<Cloud>, AllocError> {
    let providers = expanded(alloc, PROVIDERS)?;
    let inventories = expanded(alloc, INVENTORIES)?;
    let usages = expanded(alloc, USAGES)?;
    let traits = expanded(alloc, "resource_provider,name\n")?;
    let aggregates = expanded(alloc, "resource_provider,uuid\n")?;
    if providers.len() > LIMIT
        || inventories.len() > LIMIT
        || usages.len() > LIMIT
        || traits.len() > LIMIT
        || aggregates.len() > LIMIT
    {
        return Ok(None);
    }
    let usages = Some(usages.as_bytes());
    let traits = Some(traits.as_bytes());
    let aggregates = Some(aggregates.as_bytes());
    let src = Sources {
        providers: providers.as_bytes(),
        inventories: inventories.as_bytes(),
        usages,
        traits,
        aggregates,
    };
    Ok(Cloud::read(alloc, &src).ok())
}

#[test]
fn a_sink_that_fails_keeps_what_it_took(rt: HostRuntime) -> Result<(), Fail> {
    let alloc = rt.alloc();
    let Some(cloud) = used_cloud(alloc)? else {
        return Err(Fail::new("the rows aren't accepted"));
    };
    let mut out = MemSink::new(vec![in alloc; 0u8; 300]?, &[Turn::Up(17), Turn::Failed]);
    let answer = write_usages(alloc, &cloud, &mut out);
    assert!(rt; answer == Err(PageFault::WriteFailed));
    assert!(rt; out.taken() == b"resource_provider".as_slice());
    Ok(())
}
