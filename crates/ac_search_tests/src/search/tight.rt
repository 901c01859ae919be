//! The walk beside the plain source, over clouds that are made to be tight: few units, much used, some of it shared, groups
//! isolated and below one another.
use super::gives;
use crate::clouds::{NONE, Rows};
use std::alloc::{AllocError, Global};
use std::process::Abort;
use std::test::Fail;

mod placements;

// Numbers that look like chance, the same in each run.
#[derive(Drop)]
struct Dice {
    state: u64,
}

impl Dice {
    // A number below a bound that isn't 0.
    fn roll(&mut self, bound: u64) -> u64 {
        self.state = self
            .state
            .wrapping_mul(6_364_136_223_846_793_005)
            .wrapping_add(1_442_695_040_888_963_407);
        (self.state >> 33).checked_rem(bound).unwrap_or(0)
    }

    // Once in so many times.
    fn once_in(&mut self, bound: u64) -> bool {
        self.roll(bound) == 0
    }
}

const PROVIDERS: u64 = 6;

// Once in how many times an inventory is used up, a provider shares, and one is in an aggregate; and how many of these there are.
#[derive(Drop)]
struct Odds {
    full: u64,
    sharing: u64,
    member: u64,
    aggregates: u64,
}

fn push_digit(text: &mut String, n: u64) -> Result<(), AllocError> {
    text.push(char::from(b'0' + (n % 10) as u8))
}

// Text with a provider in the place of `@`, and a number in that of `#`.
fn push_row(text: &mut String, piece: &str, provider: u64, n: u64) -> Result<(), AllocError> {
    for c in piece.chars() {
        match c {
            '@' => {
                text.push_str("@0")?;
                push_digit(text, provider)?;
            }
            '#' => push_digit(text, n)?,
            other => text.push(other)?,
        }
    }
    Ok(())
}

// Providers in trees: each begins one or stands below an earlier one.
fn push_providers(text: &mut String, alloc: Global, dice: &mut Dice) -> Result<(), AllocError> {
    let mut roots = Vec::new(alloc);
    for ix in 1..=PROVIDERS {
        let at = dice.roll(ix) as usize;
        let mut root = ix;
        let mut parent = 0;
        if at < roots.len() && !dice.once_in(4) {
            root = roots[at];
            parent = at as u64 + 1;
        }
        push_row(text, "@,", ix, 0)?;
        push_row(text, "@,", root, 0)?;
        if parent > 0 {
            push_row(text, "@", parent, 0)?;
        }
        text.push('\n')?;
        roots.push(root)?;
    }
    Ok(())
}

// One of three classes.
fn class(dice: &mut Dice) -> &'static str {
    match dice.roll(3) {
        0 => "VCPU",
        1 => "DISK_GB",
        _ => "SRIOV_NET_VF",
    }
}

// A few groups, of which some stand apart or below one another.
fn push_query(text: &mut String, dice: &mut Dice) -> Result<(), AllocError> {
    if dice.once_in(3) {
        text.push_str("resources=")?;
        text.push_str(class(dice))?;
        text.push_str(":1&")?;
    }
    for group in ["_A", "_B", "_C"] {
        text.push_str("resources")?;
        text.push_str(group)?;
        text.push('=')?;
        text.push_str(class(dice))?;
        text.push(':')?;
        push_digit(text, dice.roll(2).saturating_add(1))?;
        text.push('&')?;
    }
    match dice.roll(5) {
        0 => text.push_str("same_subtree=_A,_B&")?,
        1 => text.push_str("same_subtree=_B,_C&")?,
        2 => text.push_str("same_subtree=_A,_B,_C&")?,
        3 => text.push_str("same_subtree=_A,_C&same_subtree=_B,_C&")?,
        _ => {}
    }
    text.push_str(if dice.once_in(2) {
        "group_policy=isolate"
    } else {
        "group_policy=none"
    })
}

// The rows of such a cloud, and its query.
#[derive(Drop)]
struct Tight {
    providers: String,
    inventories: String,
    usages: String,
    traits: String,
    aggregates: String,
    query: String,
}

fn nothing(alloc: Global) -> Tight {
    Tight {
        providers: String::new(alloc),
        inventories: String::new(alloc),
        usages: String::new(alloc),
        traits: String::new(alloc),
        aggregates: String::new(alloc),
        query: String::new(alloc),
    }
}

fn push_stock(
    tight: &mut Tight,
    dice: &mut Dice,
    odds: &Odds,
    ix: u64,
    name: &str,
) -> Result<(), AllocError> {
    let total = dice.roll(3).saturating_add(1);
    push_row(&mut tight.inventories, "@,", ix, 0)?;
    tight.inventories.push_str(name)?;
    push_row(&mut tight.inventories, ",#,0,1,3,1,1.0\n", ix, total)?;
    if dice.once_in(odds.full) {
        push_row(&mut tight.usages, "@,", ix, 0)?;
        tight.usages.push_str(name)?;
        push_row(&mut tight.usages, ",#\n", ix, total)?;
    }
    Ok(())
}

fn push_member(text: &mut String, ix: u64, aggregate: u64) -> Result<(), AllocError> {
    push_row(text, "@,", ix, 0)?;
    text.push_str("@9")?;
    push_digit(text, aggregate)?;
    text.push('\n')
}

// What a provider has.
fn push_provider(
    tight: &mut Tight,
    dice: &mut Dice,
    odds: &Odds,
    ix: u64,
) -> Result<(), AllocError> {
    for name in ["VCPU", "DISK_GB", "SRIOV_NET_VF"] {
        if dice.once_in(2) {
            push_stock(tight, dice, odds, ix, name)?;
        }
    }
    if dice.once_in(odds.sharing) {
        push_row(&mut tight.traits, "@,MISC_SHARES_VIA_AGGREGATE\n", ix, 0)?;
    }
    if dice.once_in(odds.member) {
        push_member(&mut tight.aggregates, ix, dice.roll(odds.aggregates))?;
    }
    Ok(())
}

fn thrown(alloc: Global, dice: &mut Dice, odds: &Odds) -> Result<Tight, AllocError> {
    let mut tight = nothing(alloc);
    push_providers(&mut tight.providers, alloc, dice)?;
    for ix in 1..=PROVIDERS {
        push_provider(&mut tight, dice, odds, ix)?;
    }
    push_query(&mut tight.query, dice)?;
    Ok(tight)
}

fn rows_of(tight: &Tight) -> Rows<'_> {
    Rows {
        providers: tight.providers.as_str(),
        inventories: tight.inventories.as_str(),
        usages: tight.usages.as_str(),
        traits: tight.traits.as_str(),
        aggregates: tight.aggregates.as_str(),
        ..NONE
    }
}

// Whether both sources give the same in one such cloud.
fn agree(alloc: Global, dice: &mut Dice, odds: &Odds) -> Result<bool, AllocError> {
    let tight = thrown(alloc, dice, odds)?;
    let text = gives(alloc, rows_of(&tight), tight.query.as_str(), None, 2000)?;
    Ok(!text.as_str().is_empty())
}

// The same of thirty clouds, one behind another.
fn all_agree(rt: &(impl Abort + AllocGlobal), odds: &Odds) -> Result<(), AllocError> {
    let mut dice = Dice { state: 20 };
    for _ in 0..30 {
        assert!(rt; agree(rt.alloc(), &mut dice, odds)?);
    }
    Ok(())
}

const SOME_FULL: Odds = Odds {
    full: 4,
    sharing: 3,
    member: 2,
    aggregates: 2,
};

#[test]
fn both_sources_agree_on_tight_clouds(rt: HostRuntime) -> Result<(), Fail> {
    Ok(all_agree(&rt, &SOME_FULL)?)
}

// All of them are in one aggregate, half of them share, and half of what they have is used up.
#[test]
fn both_sources_agree_where_what_is_shared_is_full(rt: HostRuntime) -> Result<(), Fail> {
    let odds = Odds {
        full: 2,
        sharing: 2,
        member: 1,
        aggregates: 1,
    };
    Ok(all_agree(&rt, &odds)?)
}
