//! Queries and tokens, read by themselves.
use ac_base::NoMemory;
use ac_query::{Query, Token, TokenFault, Version};
use ac_rules::InCloud;
use ac_tables::{Cloud, FromTables, Sources};
use std::alloc::Global;
use std::test::Fail;

mod refusals;

// A query of two slots, where memory suffices for it.
fn two_slots(alloc: Global) -> Option<Query> {
    let text = "resources1=VCPU:5&resources2=VCPU:5&group_policy=none";
    Query::read(alloc, text, Version::V136).ok()
}

const BOTH: &str = "00000000-0000-0000-0000-000000000001,00000000-0000-0000-0000-000000000002";

// A provider and its child.
fn pair(alloc: Global) -> Option<Cloud> {
    let src = Sources {
        providers: b"uuid,root_provider_uuid,parent_provider_uuid\n00000000-0000-0000-0000-000000000001,00000000-0000-0000-0000-000000000001,\n00000000-0000-0000-0000-000000000002,00000000-0000-0000-0000-000000000001,00000000-0000-0000-0000-000000000001\n",
        inventories: b"resource_provider,resource_class,total,reserved,min_unit,max_unit,step_size,allocation_ratio\n",
        usages: None,
        traits: None,
        aggregates: None,
    };
    Cloud::read(alloc, &src).ok()
}

// Whether the providers of the pair are written so.
fn writes_pair(alloc: Global, want: &str) -> Result<bool, NoMemory> {
    let Some(cloud) = pair(alloc) else {
        return Ok(false);
    };
    if cloud.len() != 2 {
        return Ok(false);
    }
    Ok(Token::write(alloc, &cloud, &[0, 1])?.as_str() == want)
}

// Where the providers of a token stand in the pair, if they are there.
fn places_in_pair(alloc: Global, text: &str) -> Result<Option<Vec<u32>>, TokenFault> {
    let Some(cloud) = pair(alloc) else {
        return Err(TokenFault::NoMemory);
    };
    let Some(query) = two_slots(alloc) else {
        return Err(TokenFault::NoMemory);
    };
    Ok(Token::read(alloc, text, &query)?.locate(alloc, &cloud)?)
}

// The text of a list, the token that is read of it, and where its providers stand.
#[test]
fn tokens_of_a_cloud(rt: HostRuntime) -> Result<(), Fail> {
    assert!(rt; writes_pair(rt.alloc(), BOTH)?, "the text");
    let places = places_in_pair(rt.alloc(), BOTH)?.ok_or("two places")?;
    assert_eq!(rt; places.as_slice(), [0, 1].as_slice());
    let other = "00000000-0000-0000-0000-000000000001,00000000-0000-0000-0000-000000000007";
    let places = places_in_pair(rt.alloc(), other)?;
    assert!(rt; places.is_none(), "one is no provider");
    Ok(())
}
