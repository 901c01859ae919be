//! The pairs of a query, read one after another.
ghost use Rattle.std.specs.Prelude.{◌≡◌, ◌<◌, None, Some, Err, IfOk, IfErr, IfSome, OnOk, length};
ghost use Rattle.std.specs.BTreeSet.{insert_key};
ghost use Rattle.std.specs.String.{string_bytes};
ghost use Rattle.ac_base.specs.Texts.{text_cmp};
ghost use Rattle.ac_query.specs.Pairs.{read_pair, pairs_of};
ghost use Rattle.ac_query.specs.Laws.Gathered.{gathered};
ghost use Rattle.ac_query.specs.Faults.{is_repeat, first_fault, pair_conditions, text_conditions};
ghost use Rattle.ac_query.specs.Shown.Faults.{fault_shown};
ghost use Rattle.ac_query.specs.Shown.Parameters.{parameter_shown};
ghost use Rattle.ac_query.specs.Shown.{texts_shown};
ghost use Rattle.ac_query.specs.Shown.Draft.{draft_shown};
ghost use Rattle.ac_query.specs.Shown.Given.{given_shown};
ghost use Rattle.ac_query.specs.declared.fault.QueryFault.TheVariants as QueryFault;

use crate::fault::QueryFault;
use crate::reading::draft::Draft;
use crate::reading::given::Given;
use crate::reading::parameter::Parameter;
use crate::version::Version;
use ac_base::NoMemory;
use std::alloc::Global;
use std::collections::BTreeSet;

/// The most bytes of a query.
const MOST_BYTES: usize = 65_536;

/// Whether the name is among earlier names, and may not be repeated. It is among them from now on.
fn is_repeat(
    version: Version,
    earlier: &mut BTreeSet<String>,
    name: String,
    parameter: &Parameter,
) -> Result<bool, NoMemory>
    ensures repeated { IfOk result (λ again. again
        ≡ is_repeat version (texts_shown earlier.old) (string_bytes name)
        (parameter_shown parameter.now)) }
    ensures earlier { OnOk result (texts_shown earlier.new
        ≡ insert_key text_cmp (texts_shown earlier.old) (string_bytes name)) }
{
    let is_new = earlier.insert(name)?;
    Ok(!parameter.may_repeat(version) && !is_new)
}

/// What a pair gives, behind pairs of these names.
#[tactic(auto, using(crate::proofs::Pairs::PairSteps::at_repeat, crate::proofs::Pairs::PairSteps::at_bad_value, crate::proofs::Pairs::PairSteps::at_conflict, crate::proofs::Pairs::PairSteps::at_fine))]
fn read_pair(
    alloc: Global,
    version: Version,
    number: u32,
    earlier: &mut BTreeSet<String>,
    name: String,
    text: &str,
) -> Result<Given, QueryFault>
    ensures ok { OnOk result (first_fault (pair_conditions version number
        (texts_shown earlier.old) (string_bytes name, text.now)) ≡ None) }
    ensures value { IfOk result (λ g. read_pair version (string_bytes name, text.now)
        ≡ Some (given_shown g)) }
    ensures earlier { OnOk result (texts_shown earlier.new
        ≡ insert_key text_cmp (texts_shown earlier.old) (string_bytes name)) }
    ensures fault { IfErr result (λ e. IfSome (fault_shown e) (λ f.
        first_fault (pair_conditions version number (texts_shown earlier.old)
        (string_bytes name, text.now)) ≡ Some f)) }
{
    let Some(parameter) = Parameter::read(alloc, name.as_str())? else {
        return Err(QueryFault::UnknownParameter(number));
    };
    let again = is_repeat(version, earlier, name, &parameter)?;
    if again {
        return Err(QueryFault::Repeated(number));
    }
    let Some(given) = Given::read(alloc, version, parameter, text)? else {
        return Err(QueryFault::BadValue(number));
    };
    if given.is_conflict() {
        return Err(QueryFault::Conflict(number));
    }
    Ok(given)
}

/// What a query asks for, or the first of the faults of its text and its pairs.
pub(crate) fn read_draft(alloc: Global, text: &str, version: Version) -> Result<Draft, QueryFault>
    ensures ok { OnOk result (first_fault (text_conditions version text.now) ≡ None) }
    ensures draft { IfOk result (λ draft.
        draft_shown draft ≡ gathered version (pairs_of text.now)) }
    ensures fault { IfErr result (λ e. IfSome (fault_shown e) (λ f.
        first_fault (text_conditions version text.now) ≡ Some f)) }
    ensures long { 65536 < length text.now → result ≡ Err QueryFault.QueryTooLong }
{
    if text.len() > MOST_BYTES {
        return Err(QueryFault::QueryTooLong);
    }
    let mut draft = Draft::new(alloc);
    let mut earlier = BTreeSet::new(alloc);
    let mut number = 0u32;
    for pair in form_urlencoded::parse(alloc, text.as_bytes()).into_owned() {
        let (name, value) = pair?;
        number += 1;
        let given = read_pair(alloc, version, number, &mut earlier, name, value.as_str())?;
        draft.add(alloc, given)?;
    }
    Ok(draft)
}
