//! The summary of a provider, as JSON.
ghost use Rattle.std.specs.Prelude.{◌≡◌, ◌<◌, ◌≤◌, ◌++◌, ◌∷◌, ℕ, List, [], IfOk, OnOk, map, length, string_bytes};
ghost use Rattle.std.specs.List.Sorted.{IsStrictlySortedBy};
ghost use Rattle.std.specs.Map.{keys_of};
ghost use Rattle.serde_json.specs.Events.{SendsValue};
ghost use Rattle.ac_base.specs.Names.{trait_bytes};
ghost use Rattle.ac_base.specs.Texts.{text_cmp};
ghost use Rattle.ac_cloud.specs.World.{id_at, parent_of, provider_at};
ghost use Rattle.ac_cloud.specs.Cloud.CloudWorld.{providers_of};
ghost use Rattle.ac_cloud.specs.Cloud.Entries.{entry_pair};
ghost use Rattle.ac_report.specs.Parts.{named_summary};
ghost use Rattle.ac_report.specs.Trees.{holding, id_or_null, texts, holdings, summary};
ghost use Rattle.ac_report.specs.Texts.{shown_providers, summary_piece, summary_text};

use crate::ids::{send_id, send_name};
use ac_base::{Id, NoMemory, TraitName};
use ac_cloud::{Cloud, Entry};
use serde::{Described, Serialize, Serializer};
use std::alloc::Global;

// What is told of a provider, with its traits or without.
#[derive(Clone, Copy)]
struct Summary<'a> {
    cloud: &'a Cloud,
    ix: u32,
    traits: bool,
    ghost inside: { ix < length (providers_of cloud.now) },
}

#[tactic(auto, unfolding(crate::specs::Trees::id_or_null))]
fn send_parent<S: Serializer>(id: Option<Id>, out: &mut S) -> Result<(), S::Error>
    ensures { OnOk result (SendsValue (id_or_null id) (S.written out.old) (S.written out.new)) }
{
    match id {
        Some(id) => send_id(id, out),
        None => out.unit(),
    }
}

// How much there is of a class, and how much of that is used.
#[tactic(auto, unfolding(crate::specs::Trees::holding))]
fn send_holding<S: Serializer>(entry: &Entry, out: &mut S) -> Result<(), S::Error>
    ensures { OnOk result (SendsValue (holding (entry_pair entry.now)).1 (S.written out.old)
        (S.written out.new)) }
{
    out.begin_map(Some(2))?;
    out.key("capacity")?;
    out.u64(entry.inventory().capacity())?;
    out.key("used")?;
    out.u64(entry.used())?;
    out.end_map()
}

// What a provider has of each class.
#[tactic(auto, unfolding(crate::specs::Trees::holding))]
fn send_holdings<S: Serializer>(entries: &[Entry], out: &mut S) -> Result<(), S::Error>
    requires { IsStrictlySortedBy text_cmp (keys_of (map entry_pair entries.now)) }
    ensures { OnOk result (SendsValue (holdings (map entry_pair entries.now)) (S.written out.old)
        (S.written out.new)) }
{
    out.begin_map(Some(entries.len()))?;
    for entry in entries {
        out.key(entry.class().text())?;
        send_holding(entry, out)?;
    }
    out.end_map()
}

// The names of traits.
fn send_traits<S: Serializer>(traits: &[TraitName], out: &mut S) -> Result<(), S::Error>
    ensures { OnOk result (SendsValue (texts (map trait_bytes traits.now)) (S.written out.old)
        (S.written out.new)) }
{
    out.begin_seq(Some(traits.len()))?;
    for name in traits {
        out.str(name.text())?;
    }
    out.end_seq()
}

// The traits of a provider that are shown: all of them, or none.
pub(crate) fn shown_traits(cloud: &Cloud, ix: u32, traits: bool) -> &[TraitName]
    requires { ix < length (providers_of cloud.now) }
    ensures { map trait_bytes result.now
        ≡ (provider_at (shown_providers traits (providers_of cloud.now)) ix).traits }
{
    if traits { cloud.traits(ix) } else { &[] }
}

fn parent_id(cloud: &Cloud, ix: u32) -> Option<Id>
    requires { ix < length (providers_of cloud.now) }
    ensures { result ≡ parent_of (providers_of cloud.now) (id_at (providers_of cloud.now) ix) }
{
    Some(cloud.id(cloud.parent(ix)?))
}

impl<'a> Described for Summary<'a> {
    ghost writes = { λ s. SendsValue
        (summary (shown_providers s.traits (providers_of s.cloud.now)) s.ix) };
}

impl<'a> Serialize for Summary<'a> {
    #[tactic(auto, unfolding(crate::specs::Trees::summary))]
    fn serialize<S: Serializer>(&self, out: &mut S) -> Result<(), S::Error> {
        out.begin_map(Some(4))?;
        out.key("parent_provider_uuid")?;
        send_parent(parent_id(self.cloud, self.ix), out)?;
        out.key("resources")?;
        send_holdings(self.cloud.entries(self.ix), out)?;
        out.key("root_provider_uuid")?;
        send_id(self.cloud.id(self.cloud.root(self.ix)), out)?;
        out.key("traits")?;
        send_traits(shown_traits(self.cloud, self.ix, self.traits), out)?;
        out.end_map()
    }
}

/// The summary of a provider as compact JSON: its parent, how much of each class it has and how much of that is used, its root and its traits.
pub fn summary_text(alloc: Global, cloud: &Cloud, ix: u32) -> Result<String, NoMemory>
    requires { ix < length (providers_of cloud.now) }
    ensures { IfOk result (λ s. string_bytes s ≡ summary_text (providers_of cloud.now) ix) }
{
    // Each text and each whole number can be written as JSON, so only memory can be wanting.
    match serde_json::to_string(
        alloc,
        &Summary {
            cloud,
            ix,
            traits: true,
        },
    ) {
        Ok(text) => Ok(text),
        Err(_) => Err(NoMemory),
    }
}

// A provider's id and its summary, as an object of one member.
#[derive(Clone, Copy)]
struct NamedSummary<'a> {
    summary: Summary<'a>,
}

impl<'a> Described for NamedSummary<'a> {
    ghost writes = { λ s. SendsValue
        (named_summary (shown_providers s.summary.traits (providers_of s.summary.cloud.now))
        s.summary.ix) };
}

impl<'a> Serialize for NamedSummary<'a> {
    #[tactic(auto, unfolding(crate::specs::Parts::named_summary))]
    fn serialize<S: Serializer>(&self, out: &mut S) -> Result<(), S::Error> {
        out.begin_map(Some(1))?;
        send_name(self.summary.cloud.id(self.summary.ix), out)?;
        self.summary.serialize(out)?;
        out.end_map()
    }
}

// A summary after its quoted id and a colon, in braces.
pub(crate) fn summary_member(
    alloc: Global,
    cloud: &Cloud,
    ix: u32,
    traits: bool,
) -> Result<Vec<u8>, NoMemory>
    requires { ix < length (providers_of cloud.now) }
    ensures { IfOk result (λ v. v.items
        ≡ 123 ∷ (summary_piece (shown_providers traits (providers_of cloud.now)) ix ++ 125 ∷ [])) }
{
    let summary = Summary { cloud, ix, traits };
    match serde_json::to_vec(alloc, &NamedSummary { summary }) {
        Ok(text) => Ok(text),
        Err(_) => Err(NoMemory),
    }
}

// The member of an object that has just one.
pub(crate) fn without_braces(text: &[u8]) -> &[u8]
    requires { 2 ≤ length text.now }
    ensures { (inner : List ℕ) → text.now ≡ 123 ∷ (inner ++ 125 ∷ []) → result.now ≡ inner }
{
    &text[1..text.len() - 1]
}
