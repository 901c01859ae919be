//! A query by names, piece by piece.
ghost use Rattle.std.specs.Prelude.{◌≡◌, ℕ, IfErr, IfOk, List, Ok, Result, map, option_map, string_bytes};
ghost use Rattle.std.specs.Cow.{cow_str_bytes};
ghost use Rattle.std.specs.List.{after_first, before_first, slice_split};
ghost use Rattle.ac_query.specs.Pairs.{text_of};
ghost use Rattle.ac_query.specs.Texts.{behind};
ghost use Rattle.ac_base.specs.Texts.{id_text};
ghost use Rattle.ac_report.specs.Called.{AreCalled, Called, stands_for};
ghost use Rattle.ac_report.specs.declared.called.NameFault.{NameFault};
ghost use Rattle.ac_run.specs.Wanted.Named as named;
ghost use Rattle.ac_run.specs.Wanted.Named.{AreNamed, TellsName, TellsPair, is_and, is_equals, is_field, mapped, members_with_ids, number_behind, numbered, piece_with_ids, pieces_with_ids, query_with_ids, rule_with_ids, tree_with_id};
ghost use Rattle.ac_run.specs.declared.wanted.named.query.PairFault.TheVariants.{NoMemory as refused};

use super::{LookupFault, Naming, ids_listed};
use crate::outputs::plain::values::joined;
use ac_base::{NoMemory, Suffix};
use ac_query::write_ids;
use ac_report::{NameFault, Names};
use std::alloc::{AllocFailed, Global};

/// Why the names of a query can't be read.
#[derive(Clone, Copy, Debug, PartialEq, Eq)]
pub enum PairFault {
    /// One stands for nothing, in the pair of this number, from 1.
    Name(u32, NameFault),
    /// A growth was refused.
    NoMemory,
}

impl From<NoMemory> for PairFault {
    ghost from_gives = { λ _ told. told ≡ refused };

    fn from(_error: NoMemory) -> PairFault {
        PairFault::NoMemory
    }
}

impl<T: Drop> From<AllocFailed<T>> for PairFault {
    ghost from_gives = { λ _ told. told ≡ refused };

    fn from(_error: AllocFailed<T>) -> PairFault {
        PairFault::NoMemory
    }
}

// What stands behind a front, where the text begins with it.
#[tactic(auto, using(ac_query::proofs::Fronts::behind_strip), unfolding(ac_query::specs::Texts::behind))]
fn behind<'a>(front: &str, text: &'a str) -> Option<&'a str>
    ensures { option_map (λ s. s.now) result ≡ behind front.now text.now }
{
    text.strip_prefix(front)
}

// Whether a piece is a pair of this parameter of a group.
fn has_field(alloc: Global, word: &str, piece: &str) -> Result<bool, NoMemory>
    ensures { IfOk result (λ has.
        has ≡ is_field word.now (text_of (before_first is_equals piece.now))) }
{
    let (name, _) = split_pair(piece);
    let name = form_urlencoded::decode(alloc, name.as_bytes())?;
    is_field(alloc, word, &name)
}

// The UUID in place of the name of one.
fn one_with_id(alloc: Global, names: &Names<'_>, text: &str) -> Result<String, LookupFault>
    ensures text { IfOk result (λ value. (called : Called) → AreCalled called names.now
        → mapped id_text (stands_for called text.now) ≡ Ok (string_bytes value)) }
    ensures fault { IfErr result (λ fault. (called : Called) → AreCalled called names.now
        → TellsName (mapped id_text (stands_for called text.now)) fault) }
{
    match names.find(text.as_bytes()) {
        Ok(id) => Ok(write_ids(alloc, &[id])?),
        Err(fault) => Err(LookupFault::Name(fault)),
    }
}

// A rule of aggregates with UUIDs in place of names.
#[tactic(auto, unfolding(crate::specs::Wanted::Named::rule_with_ids))]
fn rule_with_ids(alloc: Global, names: &Names<'_>, text: &str) -> Result<String, LookupFault>
    ensures text { IfOk result (λ rule. (called : Called) → AreCalled called names.now
        → rule_with_ids called text.now ≡ Ok (string_bytes rule)) }
    ensures fault { IfErr result (λ fault. (called : Called) → AreCalled called names.now
        → TellsName (rule_with_ids called text.now) fault) }
{
    let (mark, plain) = match behind("!", text) {
        Some(plain) => ("!", plain),
        None => ("", text),
    };
    match behind("in:", plain) {
        Some(list) => {
            let ids = ids_listed(alloc, names, list)?;
            let ids = write_ids(alloc, &ids)?;
            Ok(format!(in alloc; "{mark}in:{ids}")?)
        }
        None => {
            let id = one_with_id(alloc, names, plain)?;
            Ok(format!(in alloc; "{mark}{id}")?)
        }
    }
}

// Whether the name of a pair is this parameter of a group, with a suffix or without.
#[tactic(auto, unfolding(ac_query::specs::Pairs::Parameters::group_of))]
fn is_field(alloc: Global, word: &str, name: &str) -> Result<bool, NoMemory>
    ensures { IfOk result (λ is. is ≡ is_field word.now name.now) }
{
    match behind(word, name) {
        None => Ok(false),
        Some(end) if end.is_empty() => Ok(true),
        Some(end) => Ok(Suffix::read(alloc, end.as_bytes())?.is_some()),
    }
}

// The name and the value of a pair, as they are written.
fn split_pair(piece: &str) -> (&str, &str)
    ensures name { result.0.now ≡ before_first is_equals piece.now }
    ensures value { result.1.now ≡ after_first is_equals piece.now }
{
    match piece.split_once('=') {
        Some(pair) => pair,
        None => (piece, ""),
    }
}

// A pair of `in_tree`.
#[tactic(auto, using(crate::proofs::EachFound::tells_mapped))]
fn tree_with_id(alloc: Global, names: &Names<'_>, piece: &str) -> Result<String, LookupFault>
    ensures text { IfOk result (λ text. (called : Called) → AreCalled called names.now
        → tree_with_id called piece.now ≡ Ok (string_bytes text)) }
    ensures fault { IfErr result (λ fault. (called : Called) → AreCalled called names.now
        → TellsName (tree_with_id called piece.now) fault) }
{
    let (name, value) = split_pair(piece);
    let text = form_urlencoded::decode(alloc, value.as_bytes())?;
    match one_with_id(alloc, names, &text) {
        Ok(value) => Ok(format!(in alloc; "{name}={value}")?),
        Err(fault) => Err(fault),
    }
}

// A pair of `member_of`.
#[tactic(auto, using(crate::proofs::EachFound::tells_mapped))]
fn members_with_ids(alloc: Global, names: &Names<'_>, piece: &str) -> Result<String, LookupFault>
    ensures text { IfOk result (λ text. (called : Called) → AreCalled called names.now
        → members_with_ids called piece.now ≡ Ok (string_bytes text)) }
    ensures fault { IfErr result (λ fault. (called : Called) → AreCalled called names.now
        → TellsName (members_with_ids called piece.now) fault) }
{
    let (name, value) = split_pair(piece);
    let text = form_urlencoded::decode(alloc, value.as_bytes())?;
    match rule_with_ids(alloc, names, &text) {
        Ok(value) => Ok(format!(in alloc; "{name}={value}")?),
        Err(fault) => Err(fault),
    }
}

// A piece of a query with UUIDs in place of names; one in which no name may stand is as it is.
#[tactic(auto, unfolding(crate::specs::Wanted::Named::piece_with_ids))]
fn piece_with_ids(alloc: Global, naming: &Naming<'_>, piece: &str) -> Result<String, LookupFault>
    ensures text { IfOk result (λ text. (called : named.Naming) → AreNamed called naming.now
        → piece_with_ids called piece.now ≡ Ok (string_bytes text)) }
    ensures fault { IfErr result (λ fault. (called : named.Naming) → AreNamed called naming.now
        → TellsName (piece_with_ids called piece.now) fault) }
{
    if has_field(alloc, "in_tree", piece)? {
        return tree_with_id(alloc, &naming.providers, piece);
    }
    if has_field(alloc, "member_of", piece)? {
        return members_with_ids(alloc, &naming.aggregates, piece);
    }
    Ok(String::from_str(alloc, piece)?)
}

// The number of the pair behind a piece.
fn number_behind(number: u32, piece: &str) -> u32
    ensures { result ≡ number_behind number piece.now }
{
    if piece.is_empty() {
        number
    } else {
        number.saturating_add(1)
    }
}

// A fault with the number of its pair.
fn numbered(number: u32, fault: LookupFault) -> PairFault
    ensures { (found : Result (List ℕ) NameFault) → TellsName found fault
        → TellsPair (numbered number found) result }
{
    match fault {
        LookupFault::Name(fault) => PairFault::Name(number, fault),
        LookupFault::NoMemory => PairFault::NoMemory,
    }
}

// The pieces of a query with UUIDs in place of names.
fn pieces_with_ids(
    alloc: Global,
    naming: &Naming<'_>,
    query: &str,
) -> Result<Vec<String>, PairFault>
    ensures texts { IfOk result (λ texts. (called : named.Naming) → AreNamed called naming.now
        → pieces_with_ids called 1 (slice_split is_and query.now)
        ≡ Ok (map string_bytes texts.items)) }
    ensures fault { IfErr result (λ fault. (called : named.Naming) → AreNamed called naming.now
        → TellsPair (pieces_with_ids called 1 (slice_split is_and query.now)) fault) }
{
    let mut texts = Vec::new(alloc);
    let mut number = 1u32;
    for piece in query.split('&') {
        match piece_with_ids(alloc, naming, piece) {
            Ok(text) => texts.push(text)?,
            Err(fault) => return Err(numbered(number, fault)),
        }
        number = number_behind(number, piece);
    }
    Ok(texts)
}

/// A query with UUIDs in place of names, but for that as it is written.
#[tactic(auto, using(crate::proofs::EachFound::pair_mapped), unfolding(crate::specs::Wanted::Named::query_with_ids))]
pub fn query_with_ids(alloc: Global, naming: &Naming<'_>, query: &str) -> Result<String, PairFault>
    ensures text { IfOk result (λ text. (called : named.Naming) → AreNamed called naming.now
        → query_with_ids called query.now ≡ Ok (string_bytes text)) }
    ensures fault { IfErr result (λ fault. (called : named.Naming) → AreNamed called naming.now
        → TellsPair (query_with_ids called query.now) fault) }
{
    match pieces_with_ids(alloc, naming, query) {
        Ok(texts) => Ok(joined(alloc, '&', &texts)?),
        Err(fault) => Err(fault),
    }
}
