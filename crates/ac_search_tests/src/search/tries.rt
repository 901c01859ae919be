//! How often a walk tries, counted by hand: once for each choice that it looks at, whether it passes over it or tests it.
//! Choices of other trees and parts, and those behind a path that has too little left, aren't looked at.
use super::{FIVES, part, rows_of, walk_gives};
use crate::clouds::{Scene, scene_of};
use ac_rules::Source;
use ac_search::Walk;
use std::alloc::{AllocError, Global};
use std::process::Abort;
use std::test::Fail;

// Rows, each for all numbers from one to another, whose two digits stand in the place of each `#`.
type Pieces = &'static [(u32, u32, &'static str)];

// Tables, and how many groups ask for one VCPU before the query.
#[derive(Clone, Copy)]
struct Many {
    providers: Pieces,
    inventories: Pieces,
    usages: Pieces,
    traits: Pieces,
    aggregates: Pieces,
    groups: u32,
}

fn digit(n: u32) -> char {
    char::from(b'0' + (n % 10) as u8)
}

fn push_piece(text: &mut String, n: u32, piece: &str) -> Result<(), AllocError> {
    for c in piece.chars() {
        if c == '#' {
            text.push(digit(n / 10))?;
            text.push(digit(n))?;
        } else {
            text.push(c)?;
        }
    }
    Ok(())
}

fn push_repeated(text: &mut String, pieces: &[(u32, u32, &str)]) -> Result<(), AllocError> {
    for (first, last, piece) in pieces {
        for n in *first..=*last {
            push_piece(text, n, piece)?;
        }
    }
    Ok(())
}

// The tables, with a bar behind each, and the query.
fn written_out(alloc: Global, many: &Many, query: &str) -> Result<String, AllocError> {
    let mut text = String::new(alloc);
    for pieces in [
        many.providers,
        many.inventories,
        many.usages,
        many.traits,
        many.aggregates,
    ] {
        push_repeated(&mut text, pieces)?;
        text.push('|')?;
    }
    push_repeated(&mut text, &[(1, many.groups, "resources#=VCPU:1&")])?;
    text.push_str(query)?;
    Ok(text)
}

fn scene_of_many(
    alloc: Global,
    many: &Many,
    query: &str,
    after: Option<&str>,
) -> Result<Option<Scene>, AllocError> {
    let text = written_out(alloc, many, query)?;
    let text = text.as_str();
    scene_of(alloc, rows_of(text), part(text, 5), after)
}

// How many tries a walk has made after each call, up to the one that gives `None`.
fn counted(alloc: Global, walk: &mut Walk, most: u32) -> Result<Vec<u64>, AllocError> {
    let mut counts = Vec::new(alloc);
    for _ in 0..most {
        let ended = walk.next().is_ok_and(|list| list.is_none());
        counts.push(walk.probes())?;
        if ended {
            return Ok(counts);
        }
    }
    Ok(counts)
}

fn probes(alloc: Global, scene: &Scene, most: u32) -> Result<Vec<u64>, AllocError> {
    match Walk::new(alloc, &scene.cloud, &scene.query, scene.token.as_ref()) {
        Ok(mut walk) => counted(alloc, &mut walk, most),
        Err(_) => Ok(Vec::new(alloc)),
    }
}

// Whether these are the tries of a walk after each of its calls but the first few.
fn tries(alloc: Global, scene: &Scene, few: usize, want: &[u64]) -> Result<bool, AllocError> {
    let counts = probes(alloc, scene, 70_000)?;
    let counts = counts.as_slice();
    Ok(counts.len().checked_sub(few) == Some(want.len()) && counts.ends_with(want))
}

const NOTHING: Many = Many {
    providers: &[],
    inventories: &[],
    usages: &[],
    traits: &[],
    aggregates: &[],
    groups: 0,
};

const FULL: &str = "@#,VCPU,8,0,1,8,1,1.0\n";

const DISK: &str = "@#,DISK_GB,8,0,1,8,1,1.0\n";

const FUNCTION: &str = "@#,SRIOV_NET_VF,1,0,1,1,1,1.0\n";

const SHARING: &str = "@#,MISC_SHARES_VIA_AGGREGATE\n";

const PAIR: Many = Many {
    providers: &[(1, 1, "@#,@#,\n"), (2, 2, "@#,@01,@01\n")],
    inventories: &[(1, 2, FULL)],
    ..NOTHING
};

const TWENTY: Many = Many {
    providers: &[(1, 20, "@#,@#,\n")],
    inventories: &[(1, 20, FULL)],
    ..NOTHING
};

const USED_UP: Many = Many {
    usages: &[(1, 20, "@#,VCPU,8\n")],
    groups: 64,
    ..TWENTY
};

const SEVENS: Many = Many {
    providers: &[
        (1, 1, "@#,@#,\n"),
        (2, 3, "@#,@01,@01\n"),
        (4, 4, "@#,@#,\n"),
    ],
    inventories: &[(2, 3, "@#,VCPU,7,0,1,7,1,1.0\n")],
    ..NOTHING
};

const MARKED: Many = Many {
    inventories: &[(2, 4, FULL)],
    traits: &[(4, 4, "@#,CUSTOM_T\n")],
    ..SEVENS
};

// Ten disks, each shared by two of twenty hosts.
const TEN_DISKS: Many = Many {
    providers: &[(1, 30, "@#,@#,\n")],
    inventories: &[(1, 20, FULL), (21, 30, DISK)],
    traits: &[(21, 30, SHARING)],
    aggregates: &[
        (21, 30, "@#,@#\n"),
        (1, 2, "@#,@21\n"),
        (3, 4, "@#,@22\n"),
        (5, 6, "@#,@23\n"),
        (7, 8, "@#,@24\n"),
        (9, 10, "@#,@25\n"),
        (11, 12, "@#,@26\n"),
        (13, 14, "@#,@27\n"),
        (15, 16, "@#,@28\n"),
        (17, 18, "@#,@29\n"),
        (19, 20, "@#,@30\n"),
    ],
    ..NOTHING
};

// Two disks, each shared by ten of twenty hosts.
const TWO_DISKS: Many = Many {
    providers: &[(1, 22, "@#,@#,\n")],
    inventories: &[(1, 20, FULL), (21, 22, DISK)],
    traits: &[(21, 22, SHARING)],
    aggregates: &[
        (1, 10, "@#,@21\n"),
        (11, 20, "@#,@22\n"),
        (21, 22, "@#,@#\n"),
    ],
    ..NOTHING
};

// Four nodes under a root; the first two have a function each.
const FOUR_NODES: Many = Many {
    providers: &[
        (1, 1, "@#,@#,\n"),
        (2, 5, "@#,@01,@01\n"),
        (6, 6, "@#,@01,@02\n"),
        (7, 7, "@#,@01,@03\n"),
    ],
    inventories: &[(2, 5, FULL), (6, 7, FUNCTION)],
    ..NOTHING
};

// Two nodes of one host, each with a function, of which the first is used up.
const TWO_NODES: Many = Many {
    providers: &[
        (1, 1, "@#,@#,\n"),
        (2, 3, "@#,@01,@01\n"),
        (4, 4, "@#,@01,@02\n"),
        (5, 5, "@#,@01,@03\n"),
    ],
    inventories: &[(2, 3, FULL), (4, 5, FUNCTION)],
    usages: &[(4, 4, "@#,SRIOV_NET_VF,1\n")],
    ..NOTHING
};

const TENS: Many = Many {
    providers: &[(1, 1, "@#,@#,\n"), (2, 3, "@#,@01,@01\n")],
    inventories: &[(2, 3, "@#,VCPU,10,0,1,10,1,1.0\n")],
    ..NOTHING
};

const FORTY: Many = Many {
    providers: &[(1, 1, "@#,@#,\n"), (2, 40, "@#,@01,@01\n")],
    inventories: &[(1, 40, FULL)],
    ..NOTHING
};

const EIGHT: Many = Many {
    providers: &[(1, 1, "@#,@#,\n"), (2, 8, "@#,@01,@01\n")],
    inventories: &[(1, 8, FULL)],
    groups: 64,
    ..NOTHING
};

// Three hosts, and two disks that they share, of which one is used up.
const SHARED: Many = Many {
    providers: &[(1, 5, "@#,@#,\n")],
    inventories: &[(1, 3, FULL), (4, 5, "@#,DISK_GB,9,0,1,9,1,1.0\n")],
    usages: &[(4, 4, "@#,DISK_GB,9\n")],
    traits: &[(4, 5, SHARING)],
    aggregates: &[(1, 5, "@#,@a1\n")],
    ..NOTHING
};

const FIVES_AT_A_ROOT: &str =
    "resources1=VCPU:5&resources2=VCPU:5&group_policy=none&root_required=CUSTOM_Y";

const ONES: &str = "resources1=VCPU:1&resources2=VCPU:1&resources3=VCPU:1&group_policy=none";

const APART: &str = "resources1=VCPU:1&resources2=VCPU:1&resources3=VCPU:1&group_policy=isolate";

const NINE: &str = "resources1=VCPU:5&resources2=VCPU:4&group_policy=none";

const FOURS: &str = "resources1=VCPU:4&resources2=VCPU:4&resources3=VCPU:4&group_policy=none";

const OF_TRAITS: &str =
    "resources1=VCPU:1&required1=!CUSTOM_T&resources2=VCPU:1&resources3=VCPU:1&required3=CUSTOM_T&group_policy=none";

const ON_A_DISK: &str = "resources=DISK_GB:1,VCPU:1";

const ON_TWO_DISKS: &str =
    "resources1=DISK_GB:1&resources2=DISK_GB:1&resources3=VCPU:1&group_policy=none";

const NODE_FIRST: &str =
    "resources_A=VCPU:1&resources_B=SRIOV_NET_VF:1&same_subtree=_A,_B&group_policy=isolate";

const FUNCTION_FIRST: &str =
    "resources_B=VCPU:1&resources_A=SRIOV_NET_VF:1&same_subtree=_A,_B&group_policy=isolate";

const FOURS_AND_SIXES: &str =
    "resources1=VCPU:4&resources2=VCPU:4&resources3=VCPU:6&resources4=VCPU:6&group_policy=none";

const HOST_FIRST: &str = "resources1=VCPU:1&resources2=DISK_GB:1&group_policy=none";

const TWO_ON_DISKS: &str = "resources1=DISK_GB:5&resources2=DISK_GB:5&group_policy=none";

const ALONE: &str = "group_policy=none";

const LAST: &str =
    "@08,@08,@08,@08,@08,@08,@08,@08,@07,@07,@07,@07,@07,@07,@07,@07,@06,@06,@06,@06,@06,@06,@06,@06,@05,@05,@05,@05,@05,@05,@05,@05,@04,@04,@04,@04,@04,@04,@04,@04,@03,@03,@03,@03,@03,@03,@03,@03,@02,@02,@02,@02,@02,@02,@02,@02,@01,@01,@01,@01,@01,@01,@01,@01";

// What is shown, the token, how many calls come first, and the tries after each further one, up to the call that gives `None`.
type Case = (
    &'static str,
    Many,
    &'static str,
    Option<&'static str>,
    usize,
    &'static [u64],
);

// All lists, those behind a token, and none.
static LISTS: [Case; 8] = [
    ("few providers", PAIR, FIVES, None, 0, &[3, 5, 6]),
    ("behind a token", PAIR, FIVES, Some("@01,@02"), 0, &[3, 4]),
    (
        "behind an unknown provider",
        PAIR,
        FIVES,
        Some("@01,@07"),
        0,
        &[3, 4],
    ),
    (
        "nothing without a root",
        PAIR,
        FIVES_AT_A_ROOT,
        None,
        0,
        &[0],
    ),
    // No provider has room for what a slot alone asks, so there is no choice to look at.
    ("no full root", USED_UP, ALONE, None, 0, &[0]),
    (
        "to the last of many lists",
        FORTY,
        ONES,
        None,
        64_000,
        &[40 + 40 * 40 + 40 * 40 * 40],
    ),
    (
        "behind the last of many lists",
        FORTY,
        ONES,
        Some("@40,@40,@40"),
        0,
        &[2],
    ),
    (
        "behind the last list of many groups",
        EIGHT,
        ALONE,
        Some(LAST),
        0,
        &[287],
    ),
];

// Trees that lack room, and what is left of a tree.
static TREES: [Case; 6] = [
    ("no other tree", TWENTY, ONES, None, 20, &[60]),
    // A tree that can't host all groups isn't tried: the choices of the first group there are looked at and passed over, 20 hosts at first, then two
    // providers each time. 5 and 4 are more than a host's 8, though each of them fits and 4 fits twice; two times 7 don't hold 4 three times; three
    // groups set apart want three hosts; and the trait of the third group stands in another tree.
    ("no tree that lacks room: sum", TWENTY, NINE, None, 0, &[20]),
    (
        "no tree that lacks room: pieces",
        SEVENS,
        FOURS,
        None,
        0,
        &[2],
    ),
    (
        "no tree that lacks room: apart",
        SEVENS,
        APART,
        None,
        0,
        &[2],
    ),
    (
        "no tree that lacks room: choice",
        MARKED,
        OF_TRAITS,
        None,
        0,
        &[2],
    ),
    // Two fours and two sixes on two providers of ten. Behind two fours on one provider nothing is tried: only one six has room then.
    (
        "nothing where too few pieces are left",
        TENS,
        FOURS_AND_SIXES,
        None,
        0,
        &[6, 8, 14, 16, 18],
    ),
];

// Disks that are shared.
static SHARED_DISKS: [Case; 5] = [
    // Each disk is tried, and behind it the two hosts alone. For a second disk only the first one is tried again, and behind it the hosts.
    (
        "only where a disk is shared",
        TEN_DISKS,
        ON_A_DISK,
        None,
        20,
        &[10 + 20],
    ),
    (
        "only where both disks are shared",
        TEN_DISKS,
        ON_TWO_DISKS,
        None,
        20,
        &[10 + 10 + 20],
    ),
    // A disk is bound to more than eight trees, and behind it each host is looked at, and ten of them are passed over. Behind the first disk the first
    // ten are tried; the second disk and its first host come after ten and ten that are passed over.
    (
        "what is passed over",
        TWO_DISKS,
        ON_A_DISK,
        None,
        0,
        &[
            2, 3, 4, 5, 6, 7, 8, 9, 10, 11, 33, 34, 35, 36, 37, 38, 39, 40, 41, 42, 42,
        ],
    ),
    // Behind each host the other disk alone is tried.
    ("no full disk", SHARED, HOST_FIRST, None, 0, &[2, 4, 6, 6]),
    // Two groups that ask for five have no room beside one another in the nine that are left: the other disk is looked at for the first group, and
    // passed over.
    ("no full disk twice", SHARED, TWO_ON_DISKS, None, 0, &[1]),
];

// Nodes, and functions below them.
static NODES: [Case; 3] = [
    // Behind a node its own function alone is looked at; the last two nodes, which have none below them, are passed over. Where functions come first,
    // and the node that is above is a later slot's, these nodes are of other parts.
    (
        "only below a top of its list: nodes",
        FOUR_NODES,
        NODE_FIRST,
        None,
        0,
        &[2, 4, 6],
    ),
    (
        "only below a top of its list: functions",
        FOUR_NODES,
        FUNCTION_FIRST,
        None,
        0,
        &[2, 4, 4],
    ),
    // Two nodes and a function: the node of the first function is passed over.
    (
        "no node whose function is used up",
        TWO_NODES,
        NODE_FIRST,
        None,
        0,
        &[3, 3],
    ),
];

fn is_met(alloc: Global, case: &Case) -> Result<bool, AllocError> {
    let (_what, many, query, after, few, want) = case;
    match scene_of_many(alloc, many, query, *after)? {
        Some(scene) => tries(alloc, &scene, *few, want),
        None => Ok(false),
    }
}

fn are_met(rt: &(impl Abort + AllocGlobal), cases: &[Case]) -> Result<(), AllocError> {
    for case in cases {
        assert!(rt; is_met(rt.alloc(), case)?, "{}", case.0);
    }
    Ok(())
}

// How many lists are left of a source that doesn't stop, of so many at most.
fn left_of<S: Source>(source: &mut S, most: u32) -> u32 {
    for count in 0..most {
        if !source.next().is_ok_and(|list| list.is_some()) {
            return count;
        }
    }
    most
}

// How many lists a walk of so many tries gives, and whether it stops then.
fn given_within(alloc: Global, scene: &Scene, tries: u64) -> Option<(u32, bool)> {
    let Ok(walk) = Walk::new(alloc, &scene.cloud, &scene.query, None) else {
        return None;
    };
    let mut walk = walk.within(Some(tries));
    let given = left_of(&mut walk, 10);
    Some((given, walk.next().is_err()))
}

// The second list is found with the fifth try, and with the sixth that there is no other.
#[test]
fn stops_with_its_last_try(rt: HostRuntime) -> Result<(), Fail> {
    let alloc = rt.alloc();
    let Some(scene) = scene_of_many(alloc, &PAIR, FIVES, None)? else {
        assert!(rt; false, "the query is accepted");
        return Ok(());
    };
    let wanted = [
        (0, true),
        (0, true),
        (0, true),
        (1, true),
        (1, true),
        (2, true),
        (2, false),
    ];
    for (tries, want) in wanted.iter().enumerate() {
        let given = given_within(alloc, &scene, tries as u64);
        assert!(rt; given == Some(*want), "with {tries} tries");
    }
    Ok(())
}

#[test]
fn goes_from_the_first_list_to_the_last(rt: HostRuntime) -> Result<(), Fail> {
    are_met(&rt, &LISTS)?;
    Ok(())
}

#[test]
fn tries_no_tree_that_lacks_room(rt: HostRuntime) -> Result<(), Fail> {
    are_met(&rt, &TREES)?;
    Ok(())
}

#[test]
fn tries_only_where_a_disk_is_shared(rt: HostRuntime) -> Result<(), Fail> {
    are_met(&rt, &SHARED_DISKS)?;
    Ok(())
}

#[test]
fn tries_only_below_a_top_of_its_list(rt: HostRuntime) -> Result<(), Fail> {
    are_met(&rt, &NODES)?;
    Ok(())
}

// Whether this list comes first, after so many tries.
fn begins(alloc: Global, scene: &Scene, list: &str, want: &[u64]) -> Result<bool, AllocError> {
    Ok(walk_gives(alloc, scene, list, 1)? && probes(alloc, scene, 1)?.as_slice() == want)
}

const FILLING: &str =
    "01 01 01 01 01 01 01 01 02 02 02 02 02 02 02 02 03 03 03 03 03 03 03 03 04 04 04 04 04 04 04 04 05 05 05 05 05 05 05 05 06 06 06 06 06 06 06 06 07 07 07 07 07 07 07 07 08 08 08 08 08 08 08 08 /";

fn fills_eight(alloc: Global) -> Result<bool, AllocError> {
    match scene_of_many(alloc, &EIGHT, ALONE, None)? {
        Some(scene) => begins(alloc, &scene, FILLING, &[288]),
        None => Ok(false),
    }
}

#[test]
fn fills_one_provider_after_another(rt: HostRuntime) -> Result<(), Fail> {
    assert!(rt; fills_eight(rt.alloc())?);
    Ok(())
}
