//! What texts stand for: a UUID for itself, and a name for the only one that has it.
ghost use Rattle.std.specs.Prelude.{◌≡◌, ◌++◌, ◌∷◌, ℕ, [], IfOk, OnOk};
ghost use Rattle.ac_cloud.specs.Cloud.CloudWorld.{providers_of};
ghost use Rattle.ac_report.specs.Called.{AreCalled, Called, joined, known_of, providers_called, stands_for};

use ac_base::{Id, NoMemory};
use ac_cloud::Cloud;
use std::alloc::Global;
use std::collections::BTreeMap;

/// Why a text stands for nothing.
#[derive(Clone, Copy, Debug, PartialEq, Eq)]
pub enum NameFault {
    /// Nothing has this name.
    Unknown,
    /// Several have it.
    Ambiguous,
}

/// Names, each with the UUID of the only one that has it, as a number, or with none where several have it. An empty text is no name.
#[derive(Drop)]
pub struct Names<'a> {
    known: BTreeMap<&'a [u8], Option<u128>>,
}

// The only one that has a name, with one more.
fn joined(known: Option<Option<u128>>, id: u128) -> Option<u128>
    ensures { result ≡ joined known id }
{
    match known {
        None => Some(id),
        Some(Some(other)) if id == other => Some(other),
        Some(_) => None,
    }
}

impl<'a> Names<'a> {
    /// No names.
    pub fn new(alloc: Global) -> Names<'a>
        ensures { AreCalled [] result }
    {
        Names {
            known: BTreeMap::new(alloc),
        }
    }

    // What is known of a name.
    fn known_of(&self, name: &[u8]) -> Option<Option<u128>>
        ensures { result ≡ known_of self.now.known name.now }
    {
        match self.known.get(name) {
            Some(id) => Some(*id),
            None => None,
        }
    }

    /// Adds one that has a name.
    pub fn add(&mut self, id: Id, name: &'a [u8]) -> Result<(), NoMemory>
        ensures { OnOk result ((called : Called) → AreCalled called self.old
            → AreCalled (called ++ (id, name.now) ∷ []) self.new) }
    {
        if name.is_empty() {
            return Ok(());
        }
        let only = joined(self.known_of(name), id.as_u128());
        self.known.insert(name, only)?;
        Ok(())
    }

    /// The names of the providers of a cloud.
    pub fn of_providers(alloc: Global, cloud: &'a Cloud) -> Result<Names<'a>, NoMemory>
        ensures { IfOk result (AreCalled (providers_called (providers_of cloud.now))) }
    {
        let mut names = Names::new(alloc);
        for ix in 0..cloud.len() {
            names.add(cloud.id(ix), cloud.name(ix))?;
        }
        Ok(names)
    }

    /// The UUID that a text is, and else that of the only one of this name.
    pub fn find(&self, text: &[u8]) -> Result<Id, NameFault>
        ensures { (called : Called) → AreCalled called self.now
            → result ≡ stands_for called text.now }
    {
        if let Some(id) = Id::read(text) {
            return Ok(id);
        }
        match self.known_of(text) {
            None => Err(NameFault::Unknown),
            Some(None) => Err(NameFault::Ambiguous),
            Some(Some(id)) => Ok(Id::from_u128(id)),
        }
    }
}
