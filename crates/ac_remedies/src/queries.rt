//! What a second line says of a fault of a query, of a token or of a host.
ghost use Rattle.std.specs.Prelude.{◌≡◌, IfOk};
ghost use Rattle.ac_query.specs.Shown.Faults.{fault_shown};
ghost use Rattle.ac_query.specs.Shown.Queries.{asked_of};
ghost use Rattle.ac_remedies.specs.Queries.{host_remedy, query_remedy, token_remedy};

mod groups;
mod lines;
mod near;
mod pairs;
mod resources;
mod tokens;
mod traits;
mod wanted;

use ac_cloud::HostFault;
use ac_query::{Query, QueryFault, TokenFault, Version};
use groups::{bare_line, stray_line};
use lines::{quoted_line, remedy_line};
use pairs::{bad_value_line, conflict_line, pair_at, repeated_line, unknown_line};
use std::alloc::{AllocError, Global};
use tokens::{form_remedy, length_remedy};

/// The second line of a fault of a query: the pair that it is of, and what to do so that the query is read. Want of memory has none.
#[tactic(auto, unfolding(crate::specs::Queries::fault_line))]
pub fn query_remedy(
    alloc: Global,
    text: &str,
    version: Version,
    fault: &QueryFault,
) -> Result<Vec<u8>, AllocError>
    ensures text { IfOk result (λ line. line.items
        ≡ query_remedy version text.now (fault_shown fault.now)) }
{
    match fault {
        QueryFault::QueryTooLong => remedy_line(
            alloc,
            b"a query has at most 65536 bytes: ask for less, or in several queries",
        ),
        QueryFault::UnknownParameter(number) => unknown_line(
            alloc,
            &pair_at(alloc, text, *number)?,
        ),
        QueryFault::Repeated(number) => repeated_line(alloc, &pair_at(alloc, text, *number)?),
        QueryFault::BadValue(number) => {
            bad_value_line(alloc, version, &pair_at(alloc, text, *number)?)
        }
        QueryFault::Conflict(number) => conflict_line(alloc, &pair_at(alloc, text, *number)?),
        QueryFault::NoResources => remedy_line(
            alloc,
            b"add resources=CLASS:AMOUNT, as in resources=VCPU:1",
        ),
        QueryFault::GroupWithoutResources(suffix) => bare_line(alloc, suffix),
        QueryFault::UnknownSuffix(suffix) => stray_line(alloc, suffix),
        QueryFault::PolicyMissing => remedy_line(
            alloc,
            b"add group_policy=none, and groups may share a provider, or group_policy=isolate, and each has its own",
        ),
        QueryFault::TooManySlots => remedy_line(
            alloc,
            b"a query has at most 64 slots, and 256 classes over all groups: ask for less, or in several queries",
        ),
        QueryFault::NoMemory => Ok(Vec::new(alloc)),
    }
}

/// The second line of a fault of a token, over the query that it is for: which slots want a UUID. Want of memory has none.
#[tactic(auto, unfolding(crate::specs::Queries::token_remedy))]
pub fn token_remedy(
    alloc: Global,
    text: &str,
    query: &Query,
    fault: TokenFault,
) -> Result<Vec<u8>, AllocError>
    ensures text { IfOk result (λ line. line.items
        ≡ token_remedy text.now (asked_of query.now) fault) }
{
    match fault {
        TokenFault::BadToken => quoted_line(alloc, text, form_remedy(alloc, query)?.as_slice()),
        TokenFault::WrongLength => {
            remedy_line(alloc, length_remedy(alloc, text, query)?.as_slice())
        }
        TokenFault::NoMemory => Ok(Vec::new(alloc)),
    }
}

/// The second line of a host that names no provider, or several.
#[tactic(auto, unfolding(crate::specs::Queries::host_remedy))]
pub fn host_remedy(alloc: Global, text: &str, fault: HostFault) -> Result<Vec<u8>, AllocError>
    ensures text { IfOk result (λ line. line.items ≡ host_remedy text.now fault) }
{
    match fault {
        HostFault::Unknown => quoted_line(
            alloc,
            text,
            b"no provider has this UUID or this name: give one that is in the table of providers",
        ),
        HostFault::Ambiguous => quoted_line(
            alloc,
            text,
            b"several providers have this name: give the UUID of one of them",
        ),
    }
}
