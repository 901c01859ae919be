//! What is said of a pair of a query.
ghost use Rattle.std.specs.Prelude.{◌≡◌, ℕ, List, Option, IfOk, string_bytes};
ghost use Rattle.std.specs.Option.{option_map};
ghost use Rattle.ac_remedies.specs.Queries.{bad_value_line, conflict_line, pair_at, repeated_line, unknown_line};

use crate::queries::lines::{pair_line, quoted_line, remedy_line};
use crate::queries::near::near_remedy;
use crate::queries::traits::conflict_remedy;
use crate::queries::wanted::{bad_value_remedy, repeated_remedy};
use ac_query::Version;
use std::alloc::{AllocError, Global};

/// The name and the value of the pair of a number, from 1.
pub(crate) fn pair_at(
    alloc: Global,
    text: &str,
    number: u32,
) -> Result<Option<(String, String)>, AllocError>
    ensures { IfOk result (λ pair. option_map (λ p. (string_bytes p.0, string_bytes p.1)) pair
        ≡ pair_at text.now number) }
{
    let mut left = number;
    for pair in form_urlencoded::parse(alloc, text.as_bytes()).into_owned() {
        let (name, value) = pair?;
        if left <= 1 {
            return Ok(Some((name, value)));
        }
        left -= 1;
    }
    Ok(None)
}

/// The line of a name that is no parameter.
pub(crate) fn unknown_line(
    alloc: Global,
    pair: &Option<(String, String)>,
) -> Result<Vec<u8>, AllocError>
    ensures { IfOk result (λ line. line.items ≡ unknown_line
        (option_map (λ p. (string_bytes p.0, string_bytes p.1)) pair.now)) }
{
    match pair {
        Some((name, _)) => {
            let remedy = near_remedy(alloc, name.as_str())?;
            quoted_line(alloc, name.as_str(), remedy.as_bytes())
        }
        None => remedy_line(alloc, near_remedy(alloc, "")?.as_bytes()),
    }
}

/// The line of a parameter that is given again.
pub(crate) fn repeated_line(
    alloc: Global,
    pair: &Option<(String, String)>,
) -> Result<Vec<u8>, AllocError>
    ensures { IfOk result (λ line. line.items ≡ repeated_line
        (option_map (λ p. (string_bytes p.0, string_bytes p.1)) pair.now)) }
{
    match pair {
        Some((name, value)) => pair_line(
            alloc,
            name.as_str(),
            value.as_str(),
            repeated_remedy(name.as_str()),
        ),
        None => remedy_line(alloc, repeated_remedy("")),
    }
}

/// The line of a value that hasn't the form of its parameter.
pub(crate) fn bad_value_line(
    alloc: Global,
    version: Version,
    pair: &Option<(String, String)>,
) -> Result<Vec<u8>, AllocError>
    ensures { IfOk result (λ line. line.items ≡ bad_value_line version
        (option_map (λ p. (string_bytes p.0, string_bytes p.1)) pair.now)) }
{
    match pair {
        Some((name, value)) => {
            let remedy = bad_value_remedy(alloc, version, name.as_str(), value.as_str())?;
            pair_line(alloc, name.as_str(), value.as_str(), remedy.as_slice())
        }
        None => remedy_line(alloc, bad_value_remedy(alloc, version, "", "")?.as_slice()),
    }
}

/// The line of a value that requires and forbids a trait.
pub(crate) fn conflict_line(
    alloc: Global,
    pair: &Option<(String, String)>,
) -> Result<Vec<u8>, AllocError>
    ensures { IfOk result (λ line. line.items ≡ conflict_line
        (option_map (λ p. (string_bytes p.0, string_bytes p.1)) pair.now)) }
{
    match pair {
        Some((name, value)) => {
            let remedy = conflict_remedy(alloc, value.as_str())?;
            pair_line(alloc, name.as_str(), value.as_str(), remedy.as_slice())
        }
        None => remedy_line(alloc, conflict_remedy(alloc, "")?.as_slice()),
    }
}
