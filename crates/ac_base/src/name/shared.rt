//! Names that share their texts.
ghost use Rattle.std.specs.Prelude.{◌≡◌, Some, None, Ok, IfOk, IsTrue};
ghost use Rattle.std.specs.Option.{option_map};
ghost use Rattle.ac_base.specs.Texts.{id_value, is_name, name_value};
ghost use Rattle.std.specs.Rc.{rc_str_bytes};
ghost use Rattle.std.specs.Str.{IsUtf8};

use super::NoMemory;
use super::texts::{as_text, is_name};
use crate::id::Id;
use std::alloc::Global;
use std::collections::BTreeSet;
use std::rc::RcStr;

/// Names that were read, as those of a table. Equal ones share one text, so a name that stands a thousand times takes
/// the memory of one.
#[derive(Drop)]
pub struct Names {
    alloc: Global,
    texts: BTreeSet<RcStr>,
    recent: Vec<Option<KnownName>>,
    last: Option<ReadId>,
}

// The text of a UUID that was read, of the usual length.
#[derive(Clone, Copy)]
struct ReadId {
    text: [u8; 36],
    id: Id,
    ghost reads: { id_value text ≡ Some id },
}

// How many names that were read lately are kept.
const RECENT: usize = 256;

// How many bytes at the end of a name tell where it is kept.
const TOLD_BY: usize = 4;

// The text of a name, which equal names share.
#[derive(Drop)]
struct KnownName {
    text: RcStr,
    ghost named: { IsTrue (is_name (rc_str_bytes text)) },
}

// Where a name is kept that was read lately.
fn recent_index(text: &[u8]) -> usize {
    let mut hash = text.len();
    for byte in &text[text.len().saturating_sub(TOLD_BY)..] {
        hash = hash.wrapping_mul(31).wrapping_add(*byte as usize);
    }
    hash % RECENT
}

impl Names {
    /// None yet.
    pub fn new(alloc: Global) -> Names {
        Names {
            alloc,
            texts: BTreeSet::new(alloc),
            recent: Vec::new(alloc),
            last: None,
        }
    }

    /// Reads a UUID as `Id::read` does.
    pub fn id(&mut self, text: &[u8]) -> Option<Id>
        ensures { result ≡ id_value text.now }
    {
        if let Some(last) = self.last {
            if last.text.as_slice() == text {
                return Some(last.id);
            }
        }
        match Id::read(text) {
            Some(id) => {
                if text.len() == 36 {
                    let mut kept = [0u8; 36];
                    kept.copy_from_slice(text);
                    self.last = Some(ReadId { text: kept, id });
                }
                Some(id)
            }
            None => None,
        }
    }

    // The text that equal names share, looked for among all names.
    fn find(&mut self, text: &[u8]) -> Result<RcStr, NoMemory>
        requires { IsUtf8 text.now }
        ensures { IfOk result (λ shared. rc_str_bytes shared ≡ text.now) }
    {
        let text = as_text(text);
        if let Some(known) = self.texts.get(text) {
            return Ok(known.clone()?);
        }
        let new = RcStr::from_str(self.alloc, text)?;
        self.texts.insert(new.clone()?)?;
        Ok(new)
    }

    // Keeps a name where it is looked for first.
    fn keep(&mut self, index: usize, shared: &RcStr) -> Result<(), NoMemory>
        requires { IsTrue (is_name (rc_str_bytes shared.now)) }
    {
        if self.recent.is_empty() {
            for _ in 0..RECENT {
                self.recent.push(None)?;
            }
        }
        if let Some(place) = self.recent.get_mut(index) {
            let text = shared.clone()?;
            *place = Some(KnownName { text });
        }
        Ok(())
    }

    // The text of a name, which equal names share; every other text is no name.
    #[tactic(auto, using(crate::proofs::NameFacts::text_name))]
    pub(super) fn share(&mut self, text: &[u8]) -> Result<Option<RcStr>, NoMemory>
        ensures value { IfOk result (λ name. option_map rc_str_bytes name ≡ name_value text.now) }
        ensures unnamed { name_value text.now ≡ None → result ≡ Ok None }
    {
        let index = recent_index(text);
        if let Some(Some(known)) = self.recent.get(index) {
            if known.text.as_str().as_bytes() == text {
                return Ok(Some(known.text.clone()?));
            }
        }
        if !is_name(text) {
            return Ok(None);
        }
        let shared = self.find(text)?;
        self.keep(index, &shared)?;
        Ok(Some(shared))
    }
}
