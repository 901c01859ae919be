//! The parameter that is meant by a name that is none.
ghost use Rattle.std.specs.Prelude.{◌≡◌, IfOk, string_bytes};
ghost use Rattle.std.specs.Option.{option_map};
ghost use Rattle.std.specs.Str.{bytes_eq};
ghost use Rattle.ac_remedies.specs.Queries.Near.{letters_of, meant, near, near_remedy, parameter_of};

use std::alloc::{AllocError, Global};

// The letters of a name, as small ones.
fn letters_of(alloc: Global, name: &str) -> Result<Vec<u8>, AllocError>
    ensures { IfOk result (λ letters. letters.items ≡ letters_of name.now) }
{
    name.as_bytes()
        .iter()
        .filter(|b| b.is_ascii_alphabetic())
        .map(|b| b.to_ascii_lowercase())
        .collect(alloc)
}

// Whether these are the letters of a word.
fn spell(letters: &[u8], word: &str) -> bool
    ensures { result ≡ bytes_eq letters.now word.now }
{
    letters == word.as_bytes()
}

// The parameter of which these are the letters.
#[tactic(auto, unfolding(crate::specs::Queries::Near::parameter_of))]
fn parameter_of(letters: &[u8]) -> Option<&'static str>
    ensures { option_map (λ name. name.now) result ≡ parameter_of letters.now }
{
    if spell(letters, "resource") || spell(letters, "resources") {
        Some("resources")
    } else if spell(letters, "required") {
        Some("required")
    } else if spell(letters, "memberof") {
        Some("member_of")
    } else if spell(letters, "intree") {
        Some("in_tree")
    } else if spell(letters, "rootrequired") {
        Some("root_required")
    } else if spell(letters, "grouppolicy") || spell(letters, "policy") {
        Some("group_policy")
    } else if spell(letters, "samesubtree") || spell(letters, "subtree") {
        Some("same_subtree")
    } else if spell(letters, "limit") || spell(letters, "limits") {
        Some("limit")
    } else {
        None
    }
}

// The parameter that is meant by a name, or all of them.
#[tactic(auto, unfolding(crate::specs::Queries::Near::meant))]
fn meant(alloc: Global, name: &str) -> Result<String, AllocError>
    ensures { IfOk result (λ text. string_bytes text ≡ meant (near name.now)) }
{
    let letters = letters_of(alloc, name)?;
    match parameter_of(letters.as_slice()) {
        Some(parameter) => format!(in alloc; "no parameter; {parameter}?"),
        None => String::from_str(
            alloc,
            "no parameter; there are resources, required, member_of, in_tree, root_required, group_policy, same_subtree and limit",
        ),
    }
}

/// What is said of a name that is no parameter.
#[tactic(auto, unfolding(crate::specs::Queries::Near::entity_remedy))]
pub(crate) fn near_remedy(alloc: Global, name: &str) -> Result<String, AllocError>
    ensures { IfOk result (λ text. string_bytes text ≡ near_remedy name.now) }
{
    if name.starts_with("amp;") {
        String::from_str(alloc, "the log wrote &amp; for &: put & in its place")
    } else {
        meant(alloc, name)
    }
}
