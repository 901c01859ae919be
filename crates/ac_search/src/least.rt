//! Tokens against places: the least list from which on lists come after the ids of a token.

ghost use Rattle.std.specs.Prelude.{◌≡◌, ◌++◌, IfOk};
ghost use Rattle.std.specs.Option.{option_map};
ghost use Rattle.ac_cloud.specs.Cloud.CloudWorld.{providers_of};
ghost use Rattle.ac_query.specs.Tokens as tokens;
ghost use Rattle.ac_search.specs.Between.{rank_of, is_known, least_after, least_of};

use ac_base::{Id, NoMemory};
use ac_cloud::Cloud;
use ac_query::Token;
use std::alloc::Global;

// The first place whose provider's id isn't below; past the end where there is none.
fn rank(cloud: &Cloud, id: Id) -> u32
    ensures { result ≡ rank_of (providers_of cloud.now) id }
{
    for ix in 0..cloud.len() {
        if cloud.id(ix) >= id {
            return ix;
        }
    }
    cloud.len()
}

// Whether a provider has an id, by the first place whose provider's id isn't below it.
fn is_known(cloud: &Cloud, place: u32, id: Id) -> bool
    requires { place ≡ rank_of (providers_of cloud.now) id }
    ensures { result ≡ is_known (providers_of cloud.now) id }
{
    place < cloud.len() && cloud.id(place) == id
}

// Pushes the least list of at most so many places from which on the ids of lists come after these.
#[tactic(auto, using(crate::proofs::Search::LeastLemmas::least_none, crate::proofs::Search::LeastLemmas::least_unknown, crate::proofs::Search::LeastLemmas::least_last, crate::proofs::Search::LeastLemmas::least_known))]
fn push_least(cloud: &Cloud, ids: &[Id], width: usize, list: &mut Vec<u32>) -> Result<(), NoMemory>
    ensures { IfOk result (λ _. list.new.items
        ≡ list.old.items ++ least_after (providers_of cloud.now) width ids.now) }
{
    let Some((id, more)) = ids.split_first() else {
        return Ok(());
    };
    if width == 0 {
        return Ok(());
    }
    let place = rank(cloud, *id);
    if !is_known(cloud, place, *id) {
        list.push(place)?;
        return Ok(());
    }
    if width == 1 {
        list.push(place + 1)?;
        return Ok(());
    }
    list.push(place)?;
    push_least(cloud, more, width - 1, list)?;
    Ok(())
}

/// The least list of places from which on lists come after a token; without a token, the empty one.
pub(crate) fn least_of(
    alloc: Global,
    cloud: &Cloud,
    token: Option<&Token>,
    width: usize,
) -> Result<Vec<u32>, NoMemory>
    ensures { IfOk result (λ list. list.items
        ≡ least_of (providers_of cloud.now) width
        (option_map (λ t. tokens.ids_of t.now) token.entry)) }
{
    let mut list = Vec::new(alloc);
    if let Some(token) = token {
        push_least(cloud, token.ids(), width, &mut list)?;
    }
    Ok(list)
}
