//! What is asked so far, pair by pair.
ghost use Rattle.std.specs.Prelude.{◌≡◌, OnOk, IfOk, Some, None};
ghost use Rattle.std.specs.Option.{option_map};
ghost use Rattle.ac_base.specs.Names.{suffix_bytes};
ghost use Rattle.ac_query.specs.Laws.Gathered.{nothing, with_part, grown, with_given, with_suffixed};
ghost use Rattle.ac_query.specs.Shown.Given.{part_shown, given_shown};
ghost use Rattle.ac_query.specs.Shown.Draft.{group_drafted, entries_shown, draft_shown};

use crate::group::{AggregateRule, AnyOf};
use crate::reading::amount::Amount;
use crate::reading::given::{Given, Part};
use crate::reading::traits::Traits;
use ac_base::{ClassName, Id, NoMemory, Suffix};
use std::alloc::Global;
use std::collections::{BTreeMap, BTreeSet};

/// What is asked of a group so far.
#[derive(Drop)]
pub(crate) struct GroupDraft {
    pub(crate) needs: BTreeMap<ClassName, Amount>,
    pub(crate) traits: Traits,
    pub(crate) any_of: Vec<AnyOf>,
    pub(crate) member_of: Vec<AggregateRule>,
    pub(crate) in_tree: Option<Id>,
}

/// What is asked so far: of the unsuffixed group, of the groups of suffixes, and of the whole.
#[derive(Drop)]
pub(crate) struct Draft {
    pub(crate) plain: Option<GroupDraft>,
    pub(crate) suffixed: BTreeMap<Suffix, GroupDraft>,
    pub(crate) policy: Option<bool>,
    pub(crate) subtrees: Vec<BTreeSet<Suffix>>,
    pub(crate) root: Traits,
    pub(crate) limit: Option<u32>,
}

impl GroupDraft {
    /// A group of one part.
    fn of(alloc: Global, part: Part) -> Result<GroupDraft, NoMemory>
        ensures { IfOk result (λ group. group_drafted group ≡ grown None (part_shown part)) }
    {
        let mut group = GroupDraft {
            needs: BTreeMap::new(alloc),
            traits: Traits::new(alloc),
            any_of: Vec::new(alloc),
            member_of: Vec::new(alloc),
            in_tree: None,
        };
        group.add(part)?;
        Ok(group)
    }

    /// Adds one more part.
    fn add(&mut self, part: Part) -> Result<(), NoMemory>
        ensures { OnOk result (group_drafted self.new
            ≡ with_part (group_drafted self.old) (part_shown part)) }
    {
        match part {
            Part::Needs(needs) => self.needs = needs,
            Part::Traits(traits) => self.traits.join(traits)?,
            Part::AnyOf(names) => self.any_of.push(names)?,
            Part::Aggregates(rule) => self.member_of.push(rule)?,
            Part::Tree(id) => self.in_tree = Some(id),
        }
        Ok(())
    }
}

/// Adds a part to the unsuffixed group.
fn add_plain(alloc: Global, plain: &mut Option<GroupDraft>, part: Part) -> Result<(), NoMemory>
    ensures { OnOk result (option_map group_drafted plain.new
        ≡ Some (grown (option_map group_drafted plain.old) (part_shown part))) }
{
    match plain {
        Some(group) => group.add(part)?,
        None => *plain = Some(GroupDraft::of(alloc, part)?),
    }
    Ok(())
}

/// Adds a part to the group of a suffix.
fn add_suffixed(
    alloc: Global,
    groups: &mut BTreeMap<Suffix, GroupDraft>,
    suffix: Suffix,
    part: Part,
) -> Result<(), NoMemory>
    ensures { OnOk result (entries_shown groups.new
        ≡ with_suffixed (entries_shown groups.old) (suffix_bytes suffix) (part_shown part)) }
{
    match groups.get_mut(&suffix) {
        Some(group) => group.add(part)?,
        None => {
            let group = GroupDraft::of(alloc, part)?;
            groups.insert(suffix, group)?;
        }
    }
    Ok(())
}

impl Draft {
    pub(crate) fn new(alloc: Global) -> Draft
        ensures { draft_shown result ≡ nothing }
    {
        Draft {
            plain: None,
            suffixed: BTreeMap::new(alloc),
            policy: None,
            subtrees: Vec::new(alloc),
            root: Traits::new(alloc),
            limit: None,
        }
    }

    /// Adds what one more pair gives.
    pub(crate) fn add(&mut self, alloc: Global, given: Given) -> Result<(), NoMemory>
        ensures { OnOk result (draft_shown self.new
            ≡ with_given (draft_shown self.old) (given_shown given)) }
    {
        match given {
            Given::Group(suffix, part) => match suffix {
                None => add_plain(alloc, &mut self.plain, part)?,
                Some(suffix) => add_suffixed(alloc, &mut self.suffixed, suffix, part)?,
            },
            Given::RootTraits(traits) => self.root.join(traits)?,
            Given::Policy(policy) => self.policy = Some(policy),
            Given::Subtree(suffixes) => self.subtrees.push(suffixes)?,
            Given::AtMost(count) => self.limit = Some(count),
        }
        Ok(())
    }
}
