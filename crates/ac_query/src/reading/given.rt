//! What one pair of a query gives.
ghost use Rattle.std.specs.Prelude.{◌≡◌, IfOk};
ghost use Rattle.std.specs.Option.{option_map};
ghost use Rattle.ac_base.specs.Names.{suffix_bytes};
ghost use Rattle.ac_query.specs.Pairs.Parameters.{of_group};
ghost use Rattle.ac_query.specs.Shown.Parameters.{parameter_shown};
ghost use Rattle.ac_query.specs.Pairs.Values.{required_value, given_of, is_conflict};
ghost use Rattle.ac_query.specs.Shown.Given.{part_shown, given_shown};

use crate::group::{AggregateRule, AnyOf};
use crate::reading::amount::Amount;
use crate::reading::parameter::{Field, Parameter, behind};
use crate::reading::traits::Traits;
use crate::reading::values::{
    read_amount, read_any_of, read_needs, read_policy, read_rule, read_subtree, read_traits,
};
use crate::version::Version;
use ac_base::{ClassName, Id, NoMemory, Suffix};
use std::alloc::Global;
use std::collections::{BTreeMap, BTreeSet};

/// A part of what is asked of a group.
#[derive(Drop)]
pub(crate) enum Part {
    Needs(BTreeMap<ClassName, Amount>),
    Traits(Traits),
    AnyOf(AnyOf),
    Aggregates(AggregateRule),
    Tree(Id),
}

/// What a pair gives.
#[derive(Drop)]
pub(crate) enum Given {
    Group(Option<Suffix>, Part),
    RootTraits(Traits),
    Policy(bool),
    Subtree(BTreeSet<Suffix>),
    AtMost(u32),
}

/// What `required` says of a group: a list of which one trait is asked, where the version has such lists, or traits that are required or
/// forbidden.
#[tactic(auto, unfolding(crate::specs::Pairs::Values::required_value, crate::specs::Pairs::Values::any_of_text))]
fn read_required(alloc: Global, version: Version, text: &str) -> Result<Option<Part>, NoMemory>
    ensures { IfOk result (λ part. option_map part_shown part ≡ required_value version text.now) }
{
    if version.has_any_of() {
        if let Some(list) = behind("in:", text) {
            return Ok(read_any_of(alloc, list)?.map(Part::AnyOf));
        }
    }
    Ok(read_traits(alloc, text)?.map(Part::Traits))
}

/// What a field of a group and its text give.
fn read_field_value(
    alloc: Global,
    version: Version,
    field: Field,
    group: Option<Suffix>,
    text: &str,
) -> Result<Option<Given>, NoMemory>
    ensures { IfOk result (λ given. option_map given_shown given
        ≡ given_of version (of_group field (option_map suffix_bytes group)) text.now) }
{
    match field {
        Field::Resources => match read_needs(alloc, text)? {
            Some(needs) => Ok(Some(Given::Group(group, Part::Needs(needs)))),
            None => Ok(None),
        },
        Field::Required => match read_required(alloc, version, text)? {
            Some(part) => Ok(Some(Given::Group(group, part))),
            None => Ok(None),
        },
        Field::MemberOf => match read_rule(alloc, text)? {
            Some(rule) => Ok(Some(Given::Group(group, Part::Aggregates(rule)))),
            None => Ok(None),
        },
        Field::InTree => match Id::read(text.as_bytes()) {
            Some(id) => Ok(Some(Given::Group(group, Part::Tree(id)))),
            None => Ok(None),
        },
    }
}

impl Given {
    /// What a parameter and its text give, where the text has the parameter's form.
    pub(crate) fn read(
        alloc: Global,
        version: Version,
        parameter: Parameter,
        text: &str,
    ) -> Result<Option<Given>, NoMemory>
        ensures { IfOk result (λ given. option_map given_shown given
            ≡ given_of version (parameter_shown parameter) text.now) }
    {
        match parameter {
            Parameter::Group(field, group) => read_field_value(alloc, version, field, group, text),
            Parameter::RootRequired => Ok(read_traits(alloc, text)?.map(Given::RootTraits)),
            Parameter::GroupPolicy => Ok(read_policy(text).map(Given::Policy)),
            Parameter::SameSubtree => Ok(read_subtree(alloc, text)?.map(Given::Subtree)),
            Parameter::Limit => match read_amount(text) {
                Some(amount) => Ok(Some(Given::AtMost(amount.count))),
                None => Ok(None),
            },
        }
    }

    /// Whether it requires and forbids one trait.
    pub(crate) fn is_conflict(&self) -> bool
        ensures { result ≡ is_conflict (given_shown self.now) }
    {
        match self {
            Given::Group(_, Part::Traits(traits)) | Given::RootTraits(traits) => {
                traits.is_conflicting()
            }
            Given::Group(_, _) | Given::Policy(_) | Given::Subtree(_) | Given::AtMost(_) => false,
        }
    }
}
