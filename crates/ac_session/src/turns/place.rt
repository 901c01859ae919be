//! One placement: the first candidate is claimed.
ghost use Rattle.std.specs.Prelude.{◌≡◌, ◌<◌, [], IfOk, IfSome, Err, None, Some, length, option_map, unwrap_or, true};
ghost use Rattle.std.specs.String.{string_bytes};
ghost use Rattle.ac_cloud.specs.Cloud.CloudWorld.{providers_of, world_of};
ghost use Rattle.ac_query.specs.Shown.Queries.{asked_of as shown};
ghost use Rattle.ac_query.specs.Tokens.{ids_text};
ghost use Rattle.ac_report.specs.declared.fault.PageFault.TheVariants as PageFault;
ghost use Rattle.ac_rules.specs.Claims.{claimed};
ghost use Rattle.ac_rules.specs.Judge.{is_candidate};
ghost use Rattle.ac_report.specs.Pages.{IsAssignment};
ghost use Rattle.ac_rules.specs.Pages.{ids_of};
ghost use Rattle.ac_rules.specs.Placed.{assigned};
ghost use Rattle.ac_search.specs.Shown.Walk.{MayStop};
ghost use Rattle.ac_session.specs.Standing.{TakesTurn, ending_in, status_told};
ghost use Rattle.ac_session.specs.Tries.{PlaceMayStop};
ghost use Rattle.ac_session.specs.Turns.{first_at, is_done, place_turn, placed_said, settles, token_placed};
ghost use Rattle.ac_session.specs.Turns.Named.{Knows, are_named, terms_of};

use super::terms::Terms;
use crate::endings::{AnswerFault, Ending, broken_off, refused};
use ac_base::{Sink, push_all};
use ac_query::{Query, Token};
use ac_report::PageFault;
use ac_report::lines::put_line_by;
use ac_rules::{InCloud, Source, claim};
use ac_run::{find_root, read_query};
use ac_search::Walk;
use ac_tables::Cloud;
use std::alloc::Global;

// The first candidate, of those at a root where one is named. Its search may make so many tries.
fn first_at(
    alloc: Global,
    cloud: &Cloud,
    query: &Query,
    root: Option<u32>,
    tries: Option<u64>,
) -> Result<Option<Vec<u32>>, PageFault>
    requires { IfSome root (λ place. place < length (providers_of cloud.now)) }
    ensures first { IfOk result (λ list. option_map (λ l. l.items) list
        ≡ first_at (providers_of cloud.now) (shown query.now) root) }
    ensures stopped { result ≡ Err PageFault.TooManyTries
        → MayStop tries (providers_of cloud.now) (shown query.now) None }
    ensures unwritten { result ≡ Err PageFault.WriteFailed → ⊥ }
{
    let mut walk = Walk::at(alloc, cloud, query, None, root)?.within(tries);
    let Some(found) = walk.next()? else {
        return Ok(None);
    };
    let mut list = Vec::new(alloc);
    list.extend_from_slice(found)?;
    Ok(Some(list))
}

// Claims a candidate, and writes its line, by names where they are told. Gives how the answer ends, and the token.
fn claim_first<W: Sink>(
    alloc: Global,
    cloud: &mut Cloud,
    terms: &Terms<'_, '_>,
    query: &Query,
    list: &[u32],
    out: &mut W,
) -> Result<(Ending, String), AnswerFault>
    requires known { Knows terms.now (world_of cloud.old) }
    requires list { IsAssignment (providers_of cloud.old) (shown query.now) list.now }
    requires candidate { is_candidate (providers_of cloud.old) (shown query.now) list.now ≡ true }
    ensures turn { TakesTurn ⊥ (world_of cloud.old) (settles 0 (world_of cloud.old)
        (placed_said (are_named (terms_of terms.now)) (providers_of cloud.old) (Some list.now))
        (claimed (providers_of cloud.old) (assigned (shown query.now) list.now)))
        (ending_in result) (world_of cloud.new) (W.taken out.old) (W.taken out.new)
        (W.failures out.old) (W.failures out.new) }
    ensures token { IfOk result (λ given. string_bytes given.1
        ≡ ids_text (ids_of (providers_of cloud.old) list.now)) }
{
    let token = Token::write(alloc, cloud, list)?;
    let mut line = Vec::new(alloc);
    put_line_by(alloc, &mut line, cloud, terms.providers(), list)?;
    claim(cloud, query, list);
    push_all(out, &line)?;
    Ok((Ending::Given(0), token))
}

// How an answer ends in which nothing is placed: it has no token.
fn unplaced(
    alloc: Global,
    answered: Result<Ending, AnswerFault>,
) -> Result<(Ending, String), AnswerFault>
    ensures ending { ending_in result ≡ answered }
{
    Ok((answered?, String::new(alloc)))
}

// Claims the first candidate, of those at a root where one is named, and writes its line. Gives how the answer ends, and the token.
fn place_first<W: Sink>(
    alloc: Global,
    cloud: &mut Cloud,
    terms: &Terms<'_, '_>,
    query: &Query,
    root: Option<u32>,
    out: &mut W,
) -> Result<(Ending, String), AnswerFault>
    requires known { Knows terms.now (world_of cloud.old) }
    requires root { IfSome root (λ place. place < length (providers_of cloud.old)) }
    ensures turn { TakesTurn
        (MayStop terms.now.tries (providers_of cloud.old) (shown query.now) None)
        (world_of cloud.old) (settles 0 (world_of cloud.old)
        (placed_said (are_named (terms_of terms.now)) (providers_of cloud.old)
        (first_at (providers_of cloud.old) (shown query.now) root))
        (claimed (providers_of cloud.old) (assigned (shown query.now)
        (unwrap_or (first_at (providers_of cloud.old) (shown query.now) root) []))))
        (ending_in result) (world_of cloud.new) (W.taken out.old) (W.taken out.new)
        (W.failures out.old) (W.failures out.new) }
    ensures token { IfOk result (λ given. is_done (status_told given.0) ≡ true
        → string_bytes given.1 ≡ ids_text (ids_of (providers_of cloud.old)
        (unwrap_or (first_at (providers_of cloud.old) (shown query.now) root) []))) }
{
    match first_at(alloc, cloud, query, root, terms.tries) {
        Ok(Some(list)) => claim_first(alloc, cloud, terms, query, &list, out),
        Ok(None) => unplaced(alloc, Ok(Ending::Given(1))),
        Err(fault) => unplaced(alloc, broken_off(fault)),
    }
}

/// Claims the first candidate for a query, of those at the root of a host where one is named, and writes its line. Gives how the answer ends, and where it is
/// that this is done, the token.
pub(super) fn place<W: Sink>(
    alloc: Global,
    cloud: &mut Cloud,
    terms: &Terms<'_, '_>,
    query: &str,
    host: Option<&str>,
    out: &mut W,
) -> Result<(Ending, String), AnswerFault>
    requires { Knows terms.now (world_of cloud.old) }
    ensures turn { TakesTurn (PlaceMayStop terms.now.tries (terms_of terms.now)
        (world_of cloud.old) query.now (option_map (λ t. t.now) host.entry)) (world_of cloud.old)
        (place_turn (terms_of terms.now) query.now (option_map (λ t. t.now) host.entry)
        (world_of cloud.old)) (ending_in result) (world_of cloud.new) (W.taken out.old)
        (W.taken out.new) (W.failures out.old) (W.failures out.new) }
    ensures token { IfOk result (λ given. is_done (status_told given.0) ≡ true
        → string_bytes given.1 ≡ token_placed terms.now.version query.now
        (option_map (λ t. t.now) host.entry) (world_of cloud.old)) }
{
    let query = match read_query(alloc, query, terms.version) {
        Ok(query) => query,
        Err(refusal) => return unplaced(alloc, refused(refusal)),
    };
    match find_root(cloud, host) {
        Ok(root) => place_first(alloc, cloud, terms, &query, root, out),
        Err(refusal) => unplaced(alloc, refused(refusal)),
    }
}
