//! Names of resource classes, read and written.
ghost use Rattle.std.specs.Prelude.{◌≡◌, IfOk, Ok, None};
ghost use Rattle.std.specs.Option.{option_map};
ghost use Rattle.ac_base.specs.Texts.{name_value};
ghost use Rattle.ac_base.specs.Names.{class_bytes};

use super::texts::read_name;
use super::{ClassName, Names, NoMemory};
use std::alloc::Global;

impl ClassName {
    /// Reads 1 to 255 characters of `A-Z 0-9 _`; every other text is no name.
    #[tactic(auto, using(crate::proofs::NameFacts::value_named))]
    pub fn read(alloc: Global, text: &[u8]) -> Result<Option<ClassName>, NoMemory>
        ensures value { IfOk result (λ name. option_map class_bytes name ≡ name_value text.now) }
        ensures unnamed { name_value text.now ≡ None → result ≡ Ok None }
    {
        let Some(text) = read_name(alloc, text)? else {
            return Ok(None);
        };
        Ok(Some(ClassName { text }))
    }

    /// The name as it was read.
    pub fn text(&self) -> &str
        ensures { result.now ≡ class_bytes self.now }
    {
        self.text.as_str()
    }
}

impl Names {
    /// Reads the name of a resource class as `ClassName::read` does.
    #[tactic(auto, using(crate::proofs::NameFacts::value_named))]
    pub fn class(&mut self, text: &[u8]) -> Result<Option<ClassName>, NoMemory>
        ensures value { IfOk result (λ name. option_map class_bytes name ≡ name_value text.now) }
        ensures unnamed { name_value text.now ≡ None → result ≡ Ok None }
    {
        match self.share(text)? {
            Some(text) => Ok(Some(ClassName { text })),
            None => Ok(None),
        }
    }
}
