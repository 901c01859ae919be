//! The names of parameters.
ghost use Rattle.std.specs.Prelude.{◌≡◌, IfOk};
ghost use Rattle.std.specs.Option.{option_map};
ghost use Rattle.ac_base.specs.Names.{suffix_bytes};
ghost use Rattle.ac_query.specs.Texts.{behind};
ghost use Rattle.ac_query.specs.Pairs.Parameters.{field_of, plain_parameter, group_parameter, parameter, may_repeat};
ghost use Rattle.ac_query.specs.Shown.Parameters.{parameter_shown};

use crate::version::Version;
use ac_base::{NoMemory, Suffix};
use std::alloc::Global;

/// The parameters of a group.
#[derive(Clone, Copy, Debug, PartialEq, Eq)]
pub(crate) enum Field {
    Resources,
    Required,
    MemberOf,
    InTree,
}

/// A parameter. A field without a suffix is of the unsuffixed group.
#[derive(Debug, Drop)]
pub(crate) enum Parameter {
    Group(Field, Option<Suffix>),
    RootRequired,
    GroupPolicy,
    SameSubtree,
    Limit,
}

/// What stands behind a front, where the text begins with it.
#[tactic(auto, using(crate::proofs::Fronts::behind_strip), unfolding(crate::specs::Texts::behind))]
pub(crate) fn behind<'a>(front: &str, text: &'a str) -> Option<&'a str>
    ensures { option_map (λ s. s.now) result ≡ behind front.now text.now }
{
    text.strip_prefix(front)
}

/// The field of a group, where the name is its word and perhaps a suffix.
#[tactic(auto, unfolding(crate::specs::Pairs::Parameters::field_of, crate::specs::Pairs::Parameters::group_of))]
fn read_field(
    alloc: Global,
    word: &str,
    field: Field,
    name: &str,
) -> Result<Option<Parameter>, NoMemory>
    ensures { IfOk result (λ found. option_map parameter_shown found
        ≡ field_of word.now field name.now) }
{
    let Some(end) = behind(word, name) else {
        return Ok(None);
    };
    if end.is_empty() {
        return Ok(Some(Parameter::Group(field, None)));
    }
    match Suffix::read(alloc, end.as_bytes())? {
        Some(suffix) => Ok(Some(Parameter::Group(field, Some(suffix)))),
        None => Ok(None),
    }
}

/// The parameters that have no suffix.
#[tactic(auto, unfolding(crate::specs::Pairs::Parameters::plain_parameter))]
fn read_plain(name: &str) -> Option<Parameter>
    ensures { option_map parameter_shown result ≡ plain_parameter name.now }
{
    match name {
        "root_required" => Some(Parameter::RootRequired),
        "group_policy" => Some(Parameter::GroupPolicy),
        "same_subtree" => Some(Parameter::SameSubtree),
        "limit" => Some(Parameter::Limit),
        _ => None,
    }
}

/// The parameters of groups.
#[tactic(auto, using(crate::proofs::Choices::or_else_first, crate::proofs::Choices::or_else_next), unfolding(crate::specs::Pairs::Parameters::group_parameter))]
fn read_grouped(alloc: Global, name: &str) -> Result<Option<Parameter>, NoMemory>
    ensures { IfOk result (λ found. option_map parameter_shown found ≡ group_parameter name.now) }
{
    if let Some(found) = read_field(alloc, "resources", Field::Resources, name)? {
        return Ok(Some(found));
    }
    if let Some(found) = read_field(alloc, "required", Field::Required, name)? {
        return Ok(Some(found));
    }
    if let Some(found) = read_field(alloc, "member_of", Field::MemberOf, name)? {
        return Ok(Some(found));
    }
    read_field(alloc, "in_tree", Field::InTree, name)
}

impl Parameter {
    /// The parameter that a name is.
    #[tactic(auto, using(crate::proofs::Choices::or_else_first, crate::proofs::Choices::or_else_next), unfolding(crate::specs::Pairs::Parameters::parameter))]
    pub(crate) fn read(alloc: Global, name: &str) -> Result<Option<Parameter>, NoMemory>
        ensures { IfOk result (λ found. option_map parameter_shown found ≡ parameter name.now) }
    {
        match read_plain(name) {
            Some(found) => Ok(Some(found)),
            None => read_grouped(alloc, name),
        }
    }

    /// Whether it may be given more than once.
    pub(crate) fn may_repeat(&self, version: Version) -> bool
        ensures { result ≡ may_repeat version (parameter_shown self.now) }
    {
        match self {
            Parameter::Group(Field::MemberOf, _) | Parameter::SameSubtree => true,
            Parameter::Group(Field::Required, _) => version.has_any_of(),
            Parameter::Group(_, _)
            | Parameter::RootRequired
            | Parameter::GroupPolicy
            | Parameter::Limit => false,
        }
    }
}
