//! Suffixes of request groups, read and written.
ghost use Rattle.std.specs.Prelude.{◌≡◌, IfOk, Ok, None};
ghost use Rattle.std.specs.Option.{option_map};
ghost use Rattle.ac_base.specs.Texts.{suffix_value};
ghost use Rattle.ac_base.specs.Names.{suffix_bytes};

use super::texts::{copy_text, is_suffix};
use super::{NoMemory, Suffix};
use std::alloc::Global;

impl Suffix {
    /// Reads 1 to 64 characters of `A-Z a-z 0-9 _ -`; every other text is no suffix.
    #[tactic(auto, using(crate::proofs::NameFacts::text_suffix))]
    pub fn read(alloc: Global, text: &[u8]) -> Result<Option<Suffix>, NoMemory>
        ensures value { IfOk result (λ name. option_map suffix_bytes name ≡ suffix_value text.now) }
        ensures unnamed { suffix_value text.now ≡ None → result ≡ Ok None }
    {
        if !is_suffix(text) {
            return Ok(None);
        }
        let text = copy_text(alloc, text)?;
        Ok(Some(Suffix { text }))
    }

    /// The suffix as it was read.
    pub fn text(&self) -> &str
        ensures { result.now ≡ suffix_bytes self.now }
    {
        self.text.as_str()
    }
}
