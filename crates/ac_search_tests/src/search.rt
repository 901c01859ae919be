//! Searches over small clouds: what the modules below share.
use crate::clouds::{NONE, Rows, Scene, scene_of};
use ac_query::Query;
use ac_rules::rules::anchor::takes_root;
use ac_rules::{Plain, Source};
use ac_search::{Walk, fitting_roots};
use ac_tables::Cloud;
use std::alloc::{AllocError, Global};

mod candidates;
mod refusals;
mod tight;
mod tries;

// Two groups, of which each asks for five.
const FIVES: &str = "resources1=VCPU:5&resources2=VCPU:5&group_policy=none";

// What stands between the bars of a text; nothing where there are fewer.
fn part(text: &str, number: usize) -> &str {
    text.split('|').nth(number).unwrap_or("")
}

// The rows of five tables, between bars.
fn rows_of(text: &str) -> Rows<'_> {
    Rows {
        providers: part(text, 0),
        inventories: part(text, 1),
        usages: part(text, 2),
        traits: part(text, 3),
        aggregates: part(text, 4),
        ..NONE
    }
}

// The last two digits of each id of a list.
fn ends(alloc: Global, cloud: &Cloud, list: &[u32]) -> Result<String, AllocError> {
    let mut text = String::new(alloc);
    for ix in list {
        if *ix < cloud.len() {
            let id = cloud.id(*ix).text();
            text.push(char::from(id[34]))?;
            text.push(char::from(id[35]))?;
        }
        text.push(' ')?;
    }
    Ok(text)
}

// All lists that a source gives, one after another, and then whether it gives `None` twice.
fn written<S: Source>(
    alloc: Global,
    cloud: &Cloud,
    source: &mut S,
    most: u32,
) -> Result<String, AllocError> {
    let mut text = String::new(alloc);
    for _ in 0..most {
        match source.next() {
            Ok(Some(list)) => {
                text.push_str(ends(alloc, cloud, list)?.as_str())?;
                text.push('/')?;
            }
            Ok(None) => {
                if source.next().is_ok_and(|list| list.is_none()) {
                    text.push('.')?;
                }
                return Ok(text);
            }
            Err(_) => return Ok(text),
        }
    }
    Ok(text)
}

// Whether a provider is available in the tree of a root.
fn is_there(cloud: &Cloud, ix: u32, root: u32) -> bool {
    ix < cloud.len() && root < cloud.len() && cloud.available(ix, root)
}

// Marks the roots that the query takes, at which a list stands.
fn mark_roots(cloud: &Cloud, query: &Query, list: &[u32], marks: &mut [bool]) {
    for root in 0..cloud.len() {
        if takes_root(cloud, query, root) && list.iter().all(|ix| is_there(cloud, *ix, root)) {
            if let Some(mark) = marks.get_mut(root as usize) {
                *mark = true;
            }
        }
    }
}

// Whether the roots that fit are those at which the lists of a plain source stand, where these end in time.
fn hosts_agree(alloc: Global, scene: &Scene, most: u32) -> Result<bool, AllocError> {
    let (cloud, query) = (&scene.cloud, &scene.query);
    let Ok(fits) = fitting_roots(alloc, cloud, query, None) else {
        return Ok(false);
    };
    let Ok(mut plain) = Plain::new(alloc, cloud, query, None) else {
        return Ok(false);
    };
    let mut marks = vec![in alloc; false; cloud.len() as usize]?;
    for _ in 0..most {
        match plain.next() {
            Ok(Some(list)) => mark_roots(cloud, query, list, &mut marks),
            Ok(None) | Err(_) => return Ok(fits.as_slice() == marks.as_slice()),
        }
    }
    Ok(true)
}

// All that a plain source gives, or nothing where memory is short.
fn given_plainly(alloc: Global, scene: &Scene, most: u32) -> Result<String, AllocError> {
    match Plain::new(alloc, &scene.cloud, &scene.query, scene.token.as_ref()) {
        Ok(mut plain) => written(alloc, &scene.cloud, &mut plain, most),
        Err(_) => Ok(String::new(alloc)),
    }
}

// All that a walk gives, or nothing where memory is short.
fn given_by_walk(alloc: Global, scene: &Scene, most: u32) -> Result<String, AllocError> {
    match Walk::new(alloc, &scene.cloud, &scene.query, scene.token.as_ref()) {
        Ok(mut walk) => written(alloc, &scene.cloud, &mut walk, most),
        Err(_) => Ok(String::new(alloc)),
    }
}

fn walk_gives(alloc: Global, scene: &Scene, want: &str, most: u32) -> Result<bool, AllocError> {
    Ok(given_by_walk(alloc, scene, most)?.as_str() == want)
}

// What a plain source gives, and a walk too: nothing where they differ, or where the roots that fit are others.
fn given_by_both(alloc: Global, scene: &Scene, most: u32) -> Result<String, AllocError> {
    let text = given_plainly(alloc, scene, most)?;
    if walk_gives(alloc, scene, text.as_str(), most)? && hosts_agree(alloc, scene, most)? {
        Ok(text)
    } else {
        Ok(String::new(alloc))
    }
}

// The same where tables, query and token are accepted, else nothing.
fn gives(
    alloc: Global,
    rows: Rows,
    query: &str,
    after: Option<&str>,
    most: u32,
) -> Result<String, AllocError> {
    match scene_of(alloc, rows, query, after)? {
        Some(scene) => given_by_both(alloc, &scene, most),
        None => Ok(String::new(alloc)),
    }
}
