//! Tokens in a cloud: the places of their providers, and the tokens of places.
ghost use Rattle.std.specs.Prelude.{◌≡◌, ◌<◌, IfOk, length};
ghost use Rattle.std.specs.List.{All};
ghost use Rattle.std.specs.Option.{option_map};
ghost use Rattle.std.specs.String.{string_bytes};
ghost use Rattle.ac_cloud.specs.Cloud.CloudWorld.{providers_of};
ghost use Rattle.ac_query.specs.Tokens.{ids_of, ids_text};
ghost use Rattle.ac_rules.specs.Located.{ids_at, places_of};

use ac_base::NoMemory;
use ac_cloud::Cloud;
use ac_query::{Token, write_ids};
use std::alloc::Global;

/// What a token is beside a cloud: `token.locate`, `Token::write`.
pub trait InCloud {
    /// The places of its providers; `None` where one is no provider of the cloud.
    fn locate(&self, alloc: Global, cloud: &Cloud) -> Result<Option<Vec<u32>>, NoMemory>;

    /// The text of a list of providers.
    fn write(alloc: Global, cloud: &Cloud, list: &[u32]) -> Result<String, NoMemory>
        requires { All (λ place. place < length (providers_of cloud.now)) list.now };
}

impl InCloud for Token {
    /// The places of its providers; `None` where one is no provider of the cloud.
    fn locate(&self, alloc: Global, cloud: &Cloud) -> Result<Option<Vec<u32>>, NoMemory>
        ensures { IfOk result (λ places. option_map (λ list. list.items) places
            ≡ places_of (providers_of cloud.now) (ids_of self.now)) }
    {
        let mut places = Vec::new(alloc);
        for id in self.ids() {
            let Some(place) = cloud.index_of(*id) else {
                return Ok(None);
            };
            places.push(place)?;
        }
        Ok(Some(places))
    }

    /// The text of a list of providers: their UUIDs, joined by commas.
    fn write(alloc: Global, cloud: &Cloud, list: &[u32]) -> Result<String, NoMemory>
        requires { All (λ place. place < length (providers_of cloud.now)) list.now }
        ensures { IfOk result (λ text. string_bytes text
            ≡ ids_text (ids_at (providers_of cloud.now) list.now)) }
    {
        let mut ids = Vec::new(alloc);
        for place in list {
            ids.push(cloud.id(*place))?;
        }
        write_ids(alloc, &ids)
    }
}
