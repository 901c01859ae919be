//! Texts and writers, run with each of their growths refused in turn: all of the text, or want of memory and a first part of it.
use super::{BODY, Writer, Written, is_assignment, run_writer};
use crate::clouds::{ONE, cloud_of, expanded, scene_of};
use ac_base::NoMemory;
use ac_report::{PageFault, request_text, shown_name, summary_text};
use std::alloc::Global;
use std::process::Abort;

// Whether a writer told of all lists and left the whole text, or left a first part of it for want of memory.
fn is_part(page: &Written, lists: usize, whole: &str) -> bool {
    match page.answer {
        Ok(count) => count as usize == lists && page.text.as_str() == whole,
        Err(fault) => fault == PageFault::NoMemory && whole.starts_with(page.text.as_str()),
    }
}

fn check_writer(rt: &(impl Abort + AllocGlobal), writer: Writer, lists: &[&[u32]], want: &str) {
    let alloc = rt.alloc();
    let Ok(Some(page)) = run_writer(alloc, writer, "resources=VCPU:2", lists, &[]) else {
        return;
    };
    let Ok(whole) = expanded(alloc, want) else {
        return;
    };
    assert!(rt; is_part(&page, lists.len(), whole.as_str()));
}

#[test]
fn writers(rt: HostRuntime) {
    let rows =
        "#,allocation,resource provider,inventory used/capacity,traits,name\n1,VCPU=2,@01,VCPU=0/8,,\n2,VCPU=2,@01,VCPU=0/8,,\n";
    check_writer(&rt, Writer::Page, &[&[0]], BODY);
    check_writer(&rt, Writer::Tokens, &[&[0], &[0]], "@01\n@01\n");
    check_writer(&rt, Writer::List, &[&[0], &[0]], rows);
}

#[test]
fn name(rt: HostRuntime) {
    match shown_name(rt.alloc(), b"two\nlines\xff") {
        Ok(shown) => assert!(rt; shown.as_slice() == b"two?lines?".as_slice()),
        Err(fault) => assert_eq!(rt; fault, NoMemory),
    }
}

// Whether a text is the wanted one, if memory isn't short.
fn is_text(alloc: Global, told: Result<String, NoMemory>, want: &str) -> bool {
    match (told, expanded(alloc, want)) {
        (Ok(text), Ok(want)) => text.as_str() == want.as_str(),
        _ => true,
    }
}

#[test]
fn request(rt: HostRuntime) {
    let alloc = rt.alloc();
    let Ok(Some(scene)) = scene_of(alloc, ONE, "resources=VCPU:2", None) else {
        return;
    };
    let list: &[u32] = &[0];
    if !is_assignment(&scene.cloud, &scene.query, list) {
        return;
    }
    let want =
        "{\"allocations\":{\"@01\":{\"resources\":{\"VCPU\":2}}},\"mappings\":{\"\":[\"@01\"]}}";
    let told = request_text(alloc, &scene.cloud, &scene.query, list);
    assert!(rt; is_text(alloc, told, want));
}

#[test]
fn summary(rt: HostRuntime) {
    let alloc = rt.alloc();
    let Ok(Some(cloud)) = cloud_of(alloc, ONE) else {
        return;
    };
    if cloud.len() == 0 {
        return;
    }
    let want =
        "{\"parent_provider_uuid\":null,\"resources\":{\"VCPU\":{\"capacity\":8,\"used\":0}},\"root_provider_uuid\":\"@01\",\"traits\":[]}";
    let told = summary_text(alloc, &cloud, 0);
    assert!(rt; is_text(alloc, told, want));
}
