//! The providers of a cloud while it changes.
mod building;
mod copies;
mod edits;
mod following;
mod held;
mod hosts;
mod inventories;
mod members;
mod touched;

ghost use Rattle.ac_change.specs.Drafts.{AreRooted, AreRooted-prop, AreWhole, AreWhole-prop};

use crate::draft::held::Held;

// The providers in the order of their ids, each with the root of its tree.
#[derive(Drop)]
pub(crate) struct Draft {
    pub(crate) list: Vec<Held>,
    ghost rooted: { AreRooted list.items } by { AreRooted-prop list.items },
    ghost whole: { AreWhole list.items } by { AreWhole-prop list.items },
}
