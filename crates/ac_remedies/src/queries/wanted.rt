//! What is wanted of the value of a parameter.
ghost use Rattle.std.specs.Prelude.{◌≡◌, IfOk};
ghost use Rattle.ac_remedies.specs.Queries.Wanted.{bad_value_remedy, form_of, has_escape, is_list, list_remedy, once, repeated_remedy, resources_remedy, traits_remedy, wanted};

use crate::queries::resources::push_wrong;
use crate::queries::traits::proposed;
use crate::quoted::push_all;
use ac_query::Version;
use std::alloc::{AllocError, Global};

/// The forms of values.
#[derive(Clone, Copy, Debug, PartialEq, Eq)]
pub(crate) enum Form {
    Resources,
    Traits,
    RootTraits,
    Aggregates,
    Tree,
    Policy,
    Suffixes,
    Limit,
    Unknown,
}

// The form of the values of a parameter; a suffix may stand behind its word.
#[tactic(auto, unfolding(crate::specs::Queries::Wanted::form_of))]
fn form_of(name: &[u8]) -> Form
    ensures { result ≡ form_of name.now }
{
    if name.starts_with(b"resources") {
        Form::Resources
    } else if name.starts_with(b"required") {
        Form::Traits
    } else if name.starts_with(b"root_required") {
        Form::RootTraits
    } else if name.starts_with(b"member_of") {
        Form::Aggregates
    } else if name.starts_with(b"in_tree") {
        Form::Tree
    } else if name.starts_with(b"group_policy") {
        Form::Policy
    } else if name.starts_with(b"same_subtree") {
        Form::Suffixes
    } else if name.starts_with(b"limit") {
        Form::Limit
    } else {
        Form::Unknown
    }
}

// What the form is.
#[tactic(auto, unfolding(crate::specs::Queries::Wanted::wanted))]
fn wanted(form: Form) -> &'static [u8]
    ensures { result.now ≡ wanted form }
{
    match form {
        Form::Resources =>
            b"CLASS:AMOUNT between commas, with : where the client has =; each class once, in A-Z, 0-9 and _; amounts from 1 to 2147483647",
        Form::Traits | Form::RootTraits => b"a trait is written A-Z, 0-9 and _",
        Form::Aggregates =>
            b"UUIDs of aggregates (names with --names): one, or several between commas behind in:, and ! before what is forbidden",
        Form::Tree => b"the UUID of a provider (its name with --names)",
        Form::Policy => b"none or isolate",
        Form::Suffixes => b"suffixes of groups between commas, in A-Z, a-z, 0-9, _ and -",
        Form::Limit => b"a number from 1 to 2147483647",
        Form::Unknown => b"docs/REFERENCE.md says how values are written",
    }
}

// What is said of resources.
fn resources_remedy(alloc: Global, value: &str) -> Result<Vec<u8>, AllocError>
    ensures { IfOk result (λ text. text.items ≡ resources_remedy value.now) }
{
    let mut text = Vec::new(alloc);
    push_wrong(alloc, &mut text, value)?;
    push_all(&mut text, &[wanted(Form::Resources)])?;
    Ok(text)
}

// Whether a value is a list of which one trait is asked.
fn is_list(value: &[u8]) -> bool
    ensures { result ≡ is_list value.now }
{
    value.starts_with(b"in:")
}

// What is said of such a list, which only the later version has.
#[tactic(auto, unfolding(crate::specs::Queries::Wanted::list_remedy))]
fn list_remedy(version: Version) -> &'static [u8]
    ensures { result.now ≡ list_remedy version }
{
    match version {
        Version::V136 => b"in: is read by --microversion 1.39",
        Version::V139 => {
            b"behind in: stand traits between commas, in A-Z, 0-9 and _, and none with !"
        }
    }
}

// What is said of traits.
fn traits_remedy(alloc: Global, value: &str) -> Result<Vec<u8>, AllocError>
    ensures { IfOk result (λ text. text.items ≡ traits_remedy value.now) }
{
    let mut text = Vec::new(alloc);
    let proposed = proposed(alloc, value)?;
    push_all(&mut text, &[wanted(Form::Traits), proposed.as_slice()])?;
    Ok(text)
}

// Whether a value has `&` as JSON writes it.
#[tactic(auto, using(ac_cloud::proofs::Ranges::range_more, ac_cloud::proofs::Ranges::range_end))]
fn has_escape(value: &[u8]) -> bool
    ensures { result ≡ has_escape value.now }
{
    for at in 0..value.len() {
        if value[at..].starts_with(b"\\u0026") {
            return true;
        }
    }
    false
}

/// What is said of a value that hasn't the form of its parameter.
#[tactic(auto, unfolding(crate::specs::Queries::Wanted::bad_value_remedy, crate::specs::Queries::Wanted::escape_remedy))]
pub(crate) fn bad_value_remedy(
    alloc: Global,
    version: Version,
    name: &str,
    value: &str,
) -> Result<Vec<u8>, AllocError>
    ensures { IfOk result (λ text. text.items ≡ bad_value_remedy version name.now value.now) }
{
    if has_escape(value.as_bytes()) {
        return b"the log wrote \\u0026 for &: put & in its place".to_vec(alloc);
    }
    let form = form_of(name.as_bytes());
    match form {
        Form::Resources => resources_remedy(alloc, value),
        Form::Traits if is_list(value.as_bytes()) => list_remedy(version).to_vec(alloc),
        Form::RootTraits if is_list(value.as_bytes()) =>
            b"root_required has no in: and asks for all its traits".to_vec(alloc),
        Form::Traits | Form::RootTraits => traits_remedy(alloc, value),
        _ => wanted(form).to_vec(alloc),
    }
}

// What is said of a form that is given again.
#[tactic(auto, unfolding(crate::specs::Queries::Wanted::once))]
fn once(form: Form) -> &'static [u8]
    ensures { result.now ≡ once form }
{
    match form {
        Form::Resources => b"given once: join the classes by commas in one",
        Form::Traits =>
            b"given once: join the traits by commas in one, or read the query by --microversion 1.39",
        Form::RootTraits => b"given once: join the traits by commas in one",
        _ => b"given once: leave out all but one",
    }
}

/// What is said of a parameter that is given again.
pub(crate) fn repeated_remedy(name: &str) -> &'static [u8]
    ensures { result.now ≡ repeated_remedy name.now }
{
    once(form_of(name.as_bytes()))
}
