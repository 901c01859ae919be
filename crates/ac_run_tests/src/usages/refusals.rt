//! The table of usages, with each of its growths refused in turn.
use super::used_cloud;
use crate::left::expanded;
use ac_base::MemSink;
use ac_report::PageFault;
use ac_session::write_usages;

const USED_TEXT: &str =
    "resource_provider,resource_class,usage\n@1,DISK_GB,9\n@1,VCPU,3\n@2,VCPU,12\n";

#[test]
fn table(rt: HostRuntime) {
    let alloc = rt.alloc();
    let Ok(Some(cloud)) = used_cloud(alloc) else {
        return;
    };
    let Ok(want) = expanded(alloc, USED_TEXT) else {
        return;
    };
    let Ok(room) = vec![in alloc; 0u8; 300] else {
        return;
    };
    let mut out = MemSink::new(room, &[]);
    match write_usages(alloc, &cloud, &mut out) {
        Ok(status) => assert!(rt; status == 0 && out.taken() == want.as_bytes()),
        Err(fault) => assert!(rt; fault == PageFault::NoMemory && out.taken().is_empty()),
    }
}
