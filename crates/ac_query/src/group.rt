//! Request groups: what each needs of one provider, or of several.
ghost use Rattle.std.specs.Prelude.{◌≡◌, ℕ, Bool, List, [], map, not, if◌then◌else◌};
ghost use Rattle.std.specs.List.{filter, flat_map};
ghost use Rattle.std.specs.List.Sorted.{IsStrictlySortedBy};
ghost use Rattle.std.specs.Ordering.{nat_cmp};
ghost use Rattle.ac_base.specs.Names.{class_bytes, trait_bytes};
ghost use Rattle.ac_base.specs.Sorted.{rising};
ghost use Rattle.ac_base.specs.Texts.{text_cmp};
ghost use Rattle.std.proofs.Props.{props};

use crate::reading::amount::Amount;
use ac_base::{ClassName, Id, Suffix, TraitName};

mod accessors;

/// How much of a class one provider is to give, at least 1.
#[derive(Debug, Drop)]
pub struct Need {
    pub(crate) class: ClassName,
    pub(crate) amount: Amount,
}

/// Traits of which one is asked.
#[derive(Debug, Drop)]
pub struct AnyOf {
    pub(crate) names: Vec<TraitName>,
    ghost rising: { IsStrictlySortedBy text_cmp (map trait_bytes names.items) } by { Prim.hlevel props },
}

/// One `member_of`: one of the aggregates is to be the provider's, or none.
#[derive(Debug, Drop)]
pub struct AggregateRule {
    pub(crate) forbids: bool,
    pub(crate) ids: Vec<Id>,
    // The same aggregates in order, each once.
    pub(crate) in_order: Vec<Id>,
    ghost same: { in_order.items ≡ rising nat_cmp ids.items } by { Prim.hlevel props },
}

/// A request group.
#[derive(Debug, Drop)]
pub struct Group {
    pub(crate) suffix: Option<Suffix>,
    pub(crate) needs: Vec<Need>,
    pub(crate) required: Vec<TraitName>,
    pub(crate) forbidden: Vec<TraitName>,
    pub(crate) any_of: Vec<AnyOf>,
    pub(crate) member_of: Vec<AggregateRule>,
    // What its rules forbid, as one rule.
    pub(crate) forbidden_aggregates: AggregateRule,
    // Its rules that don't forbid.
    pub(crate) asking: Vec<AggregateRule>,
    pub(crate) in_tree: Option<Id>,
    ghost forbidden_gathered: { forbidden_aggregates.ids.items
        ≡ flat_map (λ rule. if rule.forbids then rule.ids.items else []) member_of.items } by { Prim.hlevel props },
    ghost asking_gathered: { map {B = Bool × List ℕ} (λ rule. (rule.forbids, rule.ids.items)) asking.items
        ≡ filter (λ rule. not rule.0) (map (λ rule. (rule.forbids, rule.ids.items)) member_of.items) } by { Prim.hlevel props },
    ghost needs_rising: { IsStrictlySortedBy text_cmp (map (λ need. class_bytes need.class) needs.items) } by { Prim.hlevel props },
    ghost required_rising: { IsStrictlySortedBy text_cmp (map trait_bytes required.items) } by { Prim.hlevel props },
    ghost forbidden_rising: { IsStrictlySortedBy text_cmp (map trait_bytes forbidden.items) } by { Prim.hlevel props },
}
