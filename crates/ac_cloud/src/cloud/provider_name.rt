//! Which provider a text names: by its UUID, or by a name that no other provider has.
ghost use Rattle.std.specs.Prelude.{◌≡◌, ◌<◌, length};
ghost use Rattle.std.specs.Option.{option_and_then};
ghost use Rattle.ac_base.specs.Texts.{id_value};
ghost use Rattle.ac_cloud.specs.World.{provider_at, place_of, has_name};
ghost use Rattle.ac_cloud.specs.Cloud.Hosts.{host_of, only_one, places_named};

use crate::cloud::Cloud;
use ac_base::Id;
use thiserror::Error;

/// Why a text names no provider.
#[derive(Clone, Copy, Debug, PartialEq, Eq, Error)]
pub enum HostFault {
    /// There is none of this UUID or name.
    #[error("host: Unknown")]
    Unknown,
    /// Several have this name.
    #[error("host: Ambiguous")]
    Ambiguous,
}

impl Cloud {
    ghost use Rattle.ac_cloud.specs.Cloud.CloudWorld.{providers_of};

    // The provider whose UUID a text reads as.
    fn identified(&self, text: &[u8]) -> Option<u32>
        ensures { result ≡ option_and_then (place_of (providers_of self.now)) (id_value text.now) }
    {
        self.index_of(Id::read(text)?)
    }

    // Whether a provider has this name.
    fn is_named(&self, ix: u32, name: &[u8]) -> bool
        requires { ix < length (providers_of self.now) }
        ensures { result ≡ has_name (provider_at (providers_of self.now) ix) name.now }
    {
        !name.is_empty() && self.name(ix) == name
    }

    // The only provider of this name.
    #[tactic(auto, unfolding(crate::specs::Cloud::Hosts::host_of))]
    fn only_named(&self, name: &[u8]) -> Result<u32, HostFault>
        ensures { result ≡ only_one (places_named (providers_of self.now) name.now) }
    {
        let mut found: Option<u32> = None;
        for ix in 0..self.len() {
            if self.is_named(ix, name) {
                if found.is_some() {
                    return Err(HostFault::Ambiguous);
                }
                found = Some(ix);
            }
        }
        found.ok_or(HostFault::Unknown)
    }

    /// The place of the provider that a text names: the one of this UUID, else the only one of this name.
    #[tactic(auto, unfolding(crate::specs::Cloud::Hosts::host_of))]
    pub fn host(&self, text: &[u8]) -> Result<u32, HostFault>
        ensures { result ≡ host_of (providers_of self.now) text.now }
    {
        match self.identified(text) {
            Some(ix) => Ok(ix),
            None => self.only_named(text),
        }
    }
}
