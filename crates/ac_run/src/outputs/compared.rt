//! An answer of the service beside the candidates: what each has that the other hasn't.
ghost use Rattle.std.specs.Prelude.{◌≡◌, None, Some, IfOk, map, option_map, string_bytes};
ghost use Rattle.serde_json.specs.View.{view, items_view};
ghost use Rattle.ac_run.specs.Compared.{answer_read, each, requests_in, text_in_order, value_read};
ghost use Rattle.ac_run.specs.Compared.Answers.{texts_in};

mod floats;
mod ordered;
mod told;

use ordered::ordered_text;
use serde_json::{Category, Value};
use std::alloc::{AllocError, AllocFailed, Global};
pub use told::write_compared;

/// The allocation requests that an answer of the service has, each as a text, in its order.
#[derive(Drop)]
pub struct ServiceAnswer {
    texts: Vec<String>,
}

/// Why an answer can't be compared.
#[derive(Clone, Copy, Debug, PartialEq, Eq)]
pub enum AnswerFault {
    /// It is no answer of the service.
    Malformed,
    /// A growth was refused.
    NoMemory,
}

impl From<AllocError> for AnswerFault {
    ghost use Rattle.std.specs.Prelude.{◌≡◌};
    ghost use Rattle.ac_run.specs.declared.outputs.compared.AnswerFault.TheVariants as fault;

    ghost from_gives = { λ _ e. e ≡ fault.NoMemory };

    fn from(_error: AllocError) -> AnswerFault {
        AnswerFault::NoMemory
    }
}

impl<T: Drop> From<AllocFailed<T>> for AnswerFault {
    ghost use Rattle.std.specs.Prelude.{◌≡◌};
    ghost use Rattle.ac_run.specs.declared.outputs.compared.AnswerFault.TheVariants as fault;

    ghost from_gives = { λ _ e. e ≡ fault.NoMemory };

    fn from(_error: AllocFailed<T>) -> AnswerFault {
        AnswerFault::NoMemory
    }
}

// The value that a text of JSON is.
fn read_value(alloc: Global, text: &[u8]) -> Result<Value, AnswerFault>
    ensures ok { IfOk result (λ value. value_read text.now ≡ Some (view value)) }
    ensures fault { result ≡ Err AnswerFault.Malformed → value_read text.now ≡ None }
{
    match Value::from_slice(alloc, text) {
        Ok(value) => Ok(value),
        Err(error) => {
            if error.classify() == Category::Memory {
                return Err(AnswerFault::NoMemory);
            }
            Err(AnswerFault::Malformed)
        }
    }
}

// The items of the array of requests in an answer.
fn items_of(answer: &Value) -> Option<&Vec<Value>>
    ensures { option_map (λ v. items_view v.now.items) result ≡ requests_in (view answer.now) }
{
    answer.get("allocation_requests").and_then(Value::as_array)
}

// The texts of some requests, each in order.
fn texts_of(alloc: Global, items: &Vec<Value>) -> Result<Vec<String>, AnswerFault>
    ensures ok { IfOk result (λ v. each text_in_order (map view items.now.items)
        ≡ Some (map string_bytes v.items)) }
    ensures fault { result ≡ Err AnswerFault.Malformed
        → each text_in_order (map view items.now.items) ≡ None }
{
    let mut texts = Vec::new(alloc);
    for item in items {
        match ordered_text(alloc, item)? {
            Some(text) => texts.push(text)?,
            None => return Err(AnswerFault::Malformed),
        }
    }
    Ok(texts)
}

/// Reads an answer of the service to `GET /allocation_candidates`: a body of JSON.
///
/// # Errors
/// `Malformed` where it is no JSON, has no array `allocation_requests`, or an item of that is no
/// request; `NoMemory` where a growth is refused.
#[tactic(auto, using(crate::proofs::Comparing::Reading::items_back), unfolding(crate::specs::Compared::answer_read))]
pub fn read_answer(alloc: Global, text: &[u8]) -> Result<ServiceAnswer, AnswerFault>
    ensures ok { IfOk result (λ answer. answer_read text.now ≡ Some (texts_in answer)) }
    ensures fault { result ≡ Err AnswerFault.Malformed → answer_read text.now ≡ None }
{
    let value = read_value(alloc, text)?;
    let Some(items) = items_of(&value) else {
        return Err(AnswerFault::Malformed);
    };
    let texts = texts_of(alloc, items)?;
    Ok(ServiceAnswer { texts })
}
