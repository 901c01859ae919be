//! Small clouds and queries, of which tests make examples.
use ac_query::{Query, Token, Version};
use ac_tables::{Cloud, FromTables, Sources};
use std::alloc::{AllocError, Global};

// What stands before the last two digits of each UUID here.
const FRONT: &str = "00000000-0000-0000-0000-0000000000";

const LIMIT: usize = 67_108_864;

/// The rows of tables; `@01` is the UUID that ends with 01.
#[derive(Clone, Copy)]
pub struct Rows<'a> {
    /// The columns of the providers.
    pub columns: &'a str,
    /// A provider, its root and its parent.
    pub providers: &'a str,
    /// A provider, a class, the total and what stands behind it.
    pub inventories: &'a str,
    pub usages: &'a str,
    pub traits: &'a str,
    pub aggregates: &'a str,
}

/// A text with each `@` written out.
pub fn expanded(alloc: Global, text: &str) -> Result<String, AllocError> {
    text.replace(alloc, "@", FRONT)
}

// The rows of a table under its header.
fn table(alloc: Global, header: &str, rows: &str) -> Result<String, AllocError> {
    let rows = expanded(alloc, rows)?;
    format!(in alloc; "{header}\n{rows}")
}

/// The cloud of rows, where they are accepted.
pub fn cloud_of(alloc: Global, rows: Rows) -> Result<Option<Cloud>, AllocError> {
    let providers = table(alloc, rows.columns, rows.providers)?;
    let inventories = table(
        alloc,
        "resource_provider,resource_class,total,reserved,min_unit,max_unit,step_size,allocation_ratio",
        rows.inventories,
    )?;
    let usages = table(alloc, "resource_provider,resource_class,usage", rows.usages)?;
    let traits = table(alloc, "resource_provider,name", rows.traits)?;
    let aggregates = table(alloc, "resource_provider,uuid", rows.aggregates)?;
    if providers.len() > LIMIT
        || inventories.len() > LIMIT
        || usages.len() > LIMIT
        || traits.len() > LIMIT
        || aggregates.len() > LIMIT
    {
        return Ok(None);
    }
    let usages = Some(usages.as_bytes());
    let traits = Some(traits.as_bytes());
    let aggregates = Some(aggregates.as_bytes());
    let src = Sources {
        providers: providers.as_bytes(),
        inventories: inventories.as_bytes(),
        usages,
        traits,
        aggregates,
    };
    Ok(Cloud::read(alloc, &src).ok())
}

// A query as 1.39 reads it: what 1.36 accepts, both read alike.
fn query_of(alloc: Global, text: &str) -> Result<Option<Query>, AllocError> {
    let text = expanded(alloc, text)?;
    Ok(Query::read(alloc, text.as_str(), Version::V139).ok())
}

fn token_of(alloc: Global, query: &Query, ids: &str) -> Result<Option<Token>, AllocError> {
    let ids = expanded(alloc, ids)?;
    Ok(Token::read(alloc, ids.as_str(), query).ok())
}

/// A cloud, and a query of its candidates behind a token, if there is one.
#[derive(Drop)]
pub struct Scene {
    pub cloud: Cloud,
    pub query: Query,
    pub token: Option<Token>,
}

/// The scene of rows, a query and a token, where all of them are accepted.
pub fn scene_of(
    alloc: Global,
    rows: Rows,
    query: &str,
    after: Option<&str>,
) -> Result<Option<Scene>, AllocError> {
    let Some(cloud) = cloud_of(alloc, rows)? else {
        return Ok(None);
    };
    let Some(query) = query_of(alloc, query)? else {
        return Ok(None);
    };
    let token = match after {
        Some(ids) => token_of(alloc, &query, ids)?,
        None => None,
    };
    if after.is_some() && token.is_none() {
        return Ok(None);
    }
    Ok(Some(Scene {
        cloud,
        query,
        token,
    }))
}

/// Headers alone.
pub const NONE: Rows<'static> = Rows {
    columns: "uuid,root_provider_uuid,parent_provider_uuid",
    providers: "",
    inventories: "",
    usages: "",
    traits: "",
    aggregates: "",
};

/// One provider with eight units of a class.
pub const ONE: Rows<'static> = Rows {
    providers: "@01,@01,\n",
    inventories: "@01,VCPU,8,0,1,8,1,1.0\n",
    ..NONE
};

/// A tree of two such providers.
pub const PAIR: Rows<'static> = Rows {
    providers: "@01,@01,\n@02,@01,@01\n",
    inventories: "@01,VCPU,8,0,1,8,1,1.0\n@02,VCPU,8,0,1,8,1,1.0\n",
    ..NONE
};
