//! Placements, beside the first candidate of the plain source, claimed again and again.
ghost use Rattle.std.specs.Prelude.{◌≡◌, ◌<◌, IfOk, IfSome, length, true};
ghost use Rattle.std.specs.List.{All};
ghost use Rattle.ac_cloud.specs.Cloud.CloudWorld.{providers_of};
ghost use Rattle.ac_fill.specs.Filled.{asks_units};
ghost use Rattle.ac_fill.specs.Shown.{IsTakenOf};
ghost use Rattle.ac_query.specs.Shown.Queries.{asked_of};

use super::{Dice, SOME_FULL, rows_of, thrown};
use crate::clouds::{Rows, cloud_of};
use ac_base::MemSink;
use ac_fill::{Takings, write_filled};
use ac_query::{Query, Version};
use ac_rules::slots::count_slots;
use ac_rules::{Plain, Source, claim};
use ac_search::Walk;
use ac_tables::Cloud;
use std::alloc::{AllocError, Global};
use std::test::Fail;

// The query of a text, where it is accepted.
#[tactic(auto, using(ac_fill::proofs::Accepted::accepted_ask))]
fn accepted(alloc: Global, text: &str) -> Option<Query>
    ensures { IfSome result (λ query. asks_units (asked_of query) ≡ true) }
{
    match Query::read(alloc, text, Version::V139) {
        Ok(query) => Some(query),
        Err(_) => None,
    }
}

// Those numbers of a list that are places of providers.
fn places_among(alloc: Global, cloud: &Cloud, list: &[u32]) -> Result<Vec<u32>, AllocError>
    ensures { IfOk result (λ places. All (λ p. p < length (providers_of cloud.now)) places.items) }
{
    let mut places = Vec::new(alloc);
    for ix in list {
        if *ix < cloud.len() {
            places.push(*ix)?;
        }
    }
    Ok(places)
}

// The first candidate, where there is one.
fn first(alloc: Global, cloud: &Cloud, query: &Query) -> Result<Option<Vec<u32>>, AllocError>
    ensures { IfOk result (λ first. IfSome first (λ list.
        All (λ p. p < length (providers_of cloud.now)) list.items)) }
{
    let Ok(mut plain) = Plain::new(alloc, cloud, query, None) else {
        return Err(AllocError);
    };
    match plain.next() {
        Ok(Some(list)) => Ok(Some(places_among(alloc, cloud, list)?)),
        Ok(None) | Err(_) => Ok(None),
    }
}

// Adds the ids of a list, and a newline.
fn push_line(text: &mut Vec<u8>, cloud: &Cloud, list: &[u32]) -> Result<(), AllocError>
    requires { All (λ p. p < length (providers_of cloud.now)) list.now }
{
    for (place, ix) in list.iter().enumerate() {
        if place > 0 {
            text.push(b',')?;
        }
        text.extend_from_slice(&cloud.id(*ix).text())?;
    }
    text.push(b'\n')?;
    Ok(())
}

// Claims the first candidate again and again, and gives the tokens of what was claimed.
fn claimed(alloc: Global, cloud: &mut Cloud, query: &Query) -> Result<Vec<u8>, AllocError> {
    let mut text = Vec::new(alloc);
    for _ in 0..100 {
        let Some(list) = first(alloc, cloud, query)? else {
            return Ok(text);
        };
        if list.len() != count_slots(query) {
            return Ok(text);
        }
        push_line(&mut text, cloud, &list)?;
        let _verdict = claim(cloud, query, &list);
    }
    Ok(text)
}

// Writes placements in one walk, and gives what they take.
#[tactic(auto, using(ac_fill::proofs::Ordered::all_rest))]
fn takings<'a>(
    alloc: Global,
    cloud: &Cloud,
    query: &'a Query,
    out: &mut MemSink<'_>,
) -> Result<Takings<'a>, AllocError>
    requires { asks_units (asked_of query.now) ≡ true }
    ensures { IfOk result (IsTakenOf (providers_of cloud.now)) }
{
    let Ok(mut walk) = Walk::new(alloc, cloud, query, None) else {
        return Err(AllocError);
    };
    match write_filled(alloc, cloud, None, query, &mut walk, out) {
        Ok(filled) => Ok(filled.takings),
        Err(_) => Err(AllocError),
    }
}

// Fills a cloud, and gives what was written.
fn filled(alloc: Global, cloud: &mut Cloud, query: &Query) -> Result<Vec<u8>, AllocError>
    requires { asks_units (asked_of query.now) ≡ true }
{
    let mut out = MemSink::new(vec![in alloc; 0; 20000]?, &[]);
    let mut takings = takings(alloc, cloud, query, &mut out)?;
    takings.settle(cloud);
    Vec::from_slice(alloc, out.taken())
}

// Whether of each inventory as much is used.
fn use_the_same(cloud: &Cloud, other: &Cloud) -> bool {
    (0..cloud.len().min(other.len())).all(|ix| {
        let (entries, others) = (cloud.entries(ix), other.entries(ix));
        entries.len() == others.len()
            && entries
                .iter()
                .zip(others)
                .all(|(entry, other)| entry.used() == other.used())
    })
}

// Whether claims place the same, and leave the same.
fn places_the_same(alloc: Global, rows: Rows, query: &str) -> Result<bool, AllocError> {
    let Some(query) = accepted(alloc, query) else {
        return Ok(false);
    };
    let Some(mut plain) = cloud_of(alloc, rows)? else {
        return Ok(false);
    };
    let Some(mut cloud) = cloud_of(alloc, rows)? else {
        return Ok(false);
    };
    let lines = filled(alloc, &mut cloud, &query)?;
    let wanted = claimed(alloc, &mut plain, &query)?;
    Ok(lines.as_slice() == wanted.as_slice() && use_the_same(&cloud, &plain))
}

#[test]
fn placements_are_claims_on_tight_clouds(rt: HostRuntime) -> Result<(), Fail> {
    let alloc = rt.alloc();
    let mut dice = Dice { state: 7 };
    for _ in 0..40 {
        let tight = thrown(alloc, &mut dice, &SOME_FULL)?;
        assert!(rt; places_the_same(alloc, rows_of(&tight), tight.query.as_str())?);
    }
    Ok(())
}
