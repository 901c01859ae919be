//! Names of traits, read and written.
ghost use Rattle.std.specs.Prelude.{◌≡◌, IfOk, Ok, None};
ghost use Rattle.std.specs.Option.{option_map};
ghost use Rattle.ac_base.specs.Texts.{name_value};
ghost use Rattle.ac_base.specs.Names.{trait_bytes};

use super::texts::read_name;
use super::{Names, NoMemory, TraitName};
use std::alloc::Global;

impl TraitName {
    /// Reads 1 to 255 characters of `A-Z 0-9 _`; every other text is no name.
    #[tactic(auto, using(crate::proofs::NameFacts::value_named))]
    pub fn read(alloc: Global, text: &[u8]) -> Result<Option<TraitName>, NoMemory>
        ensures value { IfOk result (λ name. option_map trait_bytes name ≡ name_value text.now) }
        ensures unnamed { name_value text.now ≡ None → result ≡ Ok None }
    {
        let Some(text) = read_name(alloc, text)? else {
            return Ok(None);
        };
        Ok(Some(TraitName { text }))
    }

    /// The name as it was read.
    pub fn text(&self) -> &str
        ensures { result.now ≡ trait_bytes self.now }
    {
        self.text.as_str()
    }
}

impl Names {
    /// Reads the name of a trait as `TraitName::read` does.
    #[tactic(auto, using(crate::proofs::NameFacts::value_named))]
    pub fn trait_name(&mut self, text: &[u8]) -> Result<Option<TraitName>, NoMemory>
        ensures value { IfOk result (λ name. option_map trait_bytes name ≡ name_value text.now) }
        ensures unnamed { name_value text.now ≡ None → result ≡ Ok None }
    {
        match self.share(text)? {
            Some(text) => Ok(Some(TraitName { text })),
            None => Ok(None),
        }
    }
}
