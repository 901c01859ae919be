//! What groups, needs and aggregate rules give.
ghost use Rattle.std.specs.Prelude.{◌≡◌, ◌<◌, ◌≤◌, ◌&&◌, map, not};
ghost use Rattle.std.specs.List.{filter, list_any};
ghost use Rattle.std.specs.List.Sorted.{IsStrictlySortedBy};
ghost use Rattle.std.specs.Option.{option_map};
ghost use Rattle.std.specs.Ordering.{nat_cmp};
ghost use Rattle.ac_base.specs.Names.{class_bytes, trait_bytes, suffix_bytes};
ghost use Rattle.ac_base.specs.Sorted.{is_one_of};
ghost use Rattle.ac_base.specs.Texts.{text_cmp};
ghost use Rattle.ac_query.specs.Shown.Groups.{need_class, need_entry, rule_shown, any_of_shown, suffix_of, group_asked, group_entry};
ghost use Rattle.ac_query.specs.Without.{relaxed};

use super::{AggregateRule, AnyOf, Group, Need};
use ac_base::{ClassName, Id, Suffix, TraitName};

// Whether an aggregate is one of these, which rise.
fn is_among(id: Id, ids: &[Id]) -> bool
    requires { IsStrictlySortedBy nat_cmp ids.now }
    ensures { result ≡ is_one_of ids.now id }
{
    ids.binary_search(&id).is_ok()
}

// Whether one of some aggregates is one of these, which rise.
fn has_one(ids: &[Id], some: &[Id]) -> bool
    requires { IsStrictlySortedBy nat_cmp ids.now }
    ensures { result ≡ list_any (is_one_of ids.now) some.now }
{
    some.iter().any(|id| is_among(*id, ids))
}

impl Need {
    /// The class of which something is asked for.
    pub fn class(&self) -> &ClassName
        ensures { class_bytes result.now ≡ need_class self.now }
    {
        &self.class
    }

    /// The amount, 1 to 2147483647.
    pub fn amount(&self) -> u32
        ensures value { result ≡ (need_entry self.now).1 }
        ensures positive { 0 < result }
        ensures small { result ≤ 2147483647 }
    {
        self.amount.count
    }
}

impl AnyOf {
    /// The traits, in byte order, each once.
    pub fn names(&self) -> &[TraitName]
        ensures names { map trait_bytes result.now ≡ any_of_shown self.now }
        ensures rising { IsStrictlySortedBy text_cmp (map trait_bytes result.now) }
    {
        self.names.as_slice()
    }
}

impl AggregateRule {
    /// Whether none of the aggregates may be the provider's.
    pub fn forbids(&self) -> bool
        ensures { result ≡ (rule_shown self.now).forbids }
    {
        self.forbids
    }

    /// The aggregates, as written.
    pub fn ids(&self) -> &[Id]
        ensures { result.now ≡ (rule_shown self.now).ids }
    {
        self.ids.as_slice()
    }

    /// Whether one of the aggregates is one of these, which rise: what there is less of is gone through.
    pub fn names_any(&self, own: &[Id]) -> bool
        requires { IsStrictlySortedBy nat_cmp own.now }
        ensures { result ≡ list_any (is_one_of own.now) (rule_shown self.now).ids }
    {
        if own.len() < self.ids.len() {
            has_one(&self.in_order, own)
        } else {
            has_one(own, &self.ids)
        }
    }
}

impl Group {
    /// The suffix; the unsuffixed group has none.
    pub fn suffix(&self) -> Option<&Suffix>
        ensures { option_map (λ s. suffix_bytes s.now) result ≡ suffix_of self.now }
    {
        self.suffix.as_ref()
    }

    /// What it needs, classes in byte order, each once.
    pub fn needs(&self) -> &[Need]
        ensures needs { map need_entry result.now ≡ (group_asked self.now).needs }
        ensures rising { IsStrictlySortedBy text_cmp (map need_class result.now) }
    {
        self.needs.as_slice()
    }

    /// The traits that it requires, in byte order, each once.
    pub fn required(&self) -> &[TraitName]
        ensures names { map trait_bytes result.now ≡ (group_asked self.now).required }
        ensures rising { IsStrictlySortedBy text_cmp (map trait_bytes result.now) }
    {
        self.required.as_slice()
    }

    /// The traits that it forbids, in byte order, each once.
    pub fn forbidden(&self) -> &[TraitName]
        ensures names { map trait_bytes result.now ≡ (group_asked self.now).forbidden }
        ensures rising { IsStrictlySortedBy text_cmp (map trait_bytes result.now) }
    {
        self.forbidden.as_slice()
    }

    /// Its lists of traits of which one each is asked, in the order of their pairs.
    pub fn any_of(&self) -> &[AnyOf]
        ensures { map any_of_shown result.now ≡ (group_asked self.now).any_of }
    {
        self.any_of.as_slice()
    }

    /// Its aggregate rules, in the order of their pairs.
    pub fn member_of(&self) -> &[AggregateRule]
        ensures { map rule_shown result.now ≡ (group_asked self.now).member_of }
    {
        self.member_of.as_slice()
    }

    /// Whether an aggregate that one of its rules forbids is one of these, which rise. However many rules there are, what there is less of is
    /// gone through.
    pub fn forbids_any(&self, own: &[Id]) -> bool
        requires { IsStrictlySortedBy nat_cmp own.now }
        ensures { result ≡ list_any (λ rule. rule.forbids && list_any (is_one_of own.now) rule.ids)
            (group_asked self.now).member_of }
    {
        self.forbidden_aggregates.names_any(own)
    }

    /// Its aggregate rules that don't forbid, in the order of their pairs.
    pub fn asking(&self) -> &[AggregateRule]
        ensures { map rule_shown result.now
            ≡ filter (λ rule. not rule.forbids) (group_asked self.now).member_of }
    {
        self.asking.as_slice()
    }

    /// The group, which requires no traits if it has no suffix; what it forbids stays.
    pub(crate) fn relaxed(self) -> Group
        ensures { group_entry result ≡ relaxed (group_entry self) }
    {
        if self.suffix.is_some() {
            return self;
        }
        let Group {
            suffix,
            needs,
            mut required,
            forbidden,
            mut any_of,
            member_of,
            forbidden_aggregates,
            asking,
            in_tree,
        } = self;
        required.clear();
        any_of.clear();
        Group {
            suffix,
            needs,
            required,
            forbidden,
            any_of,
            member_of,
            forbidden_aggregates,
            asking,
            in_tree,
        }
    }

    /// The tree that its providers are to be in, by one of its providers.
    pub fn in_tree(&self) -> Option<Id>
        ensures { result ≡ (group_asked self.now).in_tree }
    {
        self.in_tree
    }
}
