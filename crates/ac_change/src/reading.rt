//! What the words of a line say.

pub(crate) mod words;

ghost use Rattle.std.specs.Prelude.{◌≡◌, ◌==◌, map, IfOk, codes, if◌then◌else◌, Ok, None};
ghost use Rattle.std.specs.Option.{option_and_then, option_map};
ghost use Rattle.ac_base.specs.Names.{trait_bytes};
ghost use Rattle.ac_base.specs.Texts.{count_value};
ghost use Rattle.ac_change.specs.Lines.{aggregate_edit, change_value, disabled, edit_of, four_said, one_said, positive, scope_value, set_edit, setting_value, sign_value, three_said, trait_edit, two_said};
ghost use Rattle.ac_change.specs.Shown.{change_shown, edit_shown, scope_shown, setting_shown};

use crate::changes::{Change, Edit, Scope, Setting};
use ac_base::{ClassName, Id, NoMemory, Ratio, TraitName, read_count};
use std::alloc::Global;

// Whom a word tells.
#[tactic(auto, unfolding(crate::specs::Lines::scope_value))]
fn read_scope(alloc: Global, word: &[u8]) -> Result<Option<Scope>, NoMemory>
    ensures { IfOk result (λ scope. option_map scope_shown scope ≡ scope_value word.now) }
{
    if word == b"*".as_slice() {
        return Ok(Some(Scope::Everyone));
    }
    match word.strip_prefix(b"in:".as_slice()) {
        Some(aggregate) => match Id::read(aggregate) {
            Some(aggregate) => Ok(Some(Scope::Members(aggregate))),
            None => Ok(None),
        },
        None => Ok(Some(Scope::Host(word.to_vec(alloc)?))),
    }
}

// What stands behind + or -, with `true` for +.
fn read_sign(word: &[u8]) -> Option<(bool, &[u8])>
    ensures { option_map (λ p. (p.0, p.1.now)) result ≡ sign_value word.now }
{
    let (sign, rest) = word.split_first()?;
    match *sign {
        b'+' => Some((true, rest)),
        b'-' => Some((false, rest)),
        _ => None,
    }
}

// A step, which isn't 0.
fn read_step(value: &[u8]) -> Option<u32>
    ensures { result ≡ option_and_then positive (count_value value.now) }
{
    let step = read_count(value)?;
    if step == 0 { None } else { Some(step) }
}

// A number of an inventory, by the name of its column.
#[tactic(auto, unfolding(crate::specs::Lines::setting_value))]
fn read_setting(field: &[u8], value: &[u8]) -> Option<Setting>
    ensures { option_map setting_shown result ≡ setting_value field.now value.now }
{
    if field == b"total".as_slice() {
        return Some(Setting::Total(read_count(value)?));
    }
    if field == b"reserved".as_slice() {
        return Some(Setting::Reserved(read_count(value)?));
    }
    if field == b"min_unit".as_slice() {
        return Some(Setting::MinUnit(read_count(value)?));
    }
    if field == b"max_unit".as_slice() {
        return Some(Setting::MaxUnit(read_count(value)?));
    }
    if field == b"step_size".as_slice() {
        return Some(Setting::StepSize(read_step(value)?));
    }
    if field == b"allocation_ratio".as_slice() {
        return Some(Setting::Ratio(Ratio::read(value)?));
    }
    None
}

// A trait that is gained or lost.
fn read_trait(alloc: Global, mark: &[u8]) -> Result<Option<Edit>, NoMemory>
    ensures { IfOk result (λ edit. option_map edit_shown edit
        ≡ option_and_then trait_edit (sign_value mark.now)) }
{
    let Some((has, name)) = read_sign(mark) else {
        return Ok(None);
    };
    let Some(name) = TraitName::read(alloc, name)? else {
        return Ok(None);
    };
    if has {
        Ok(Some(Edit::Gains(name)))
    } else {
        Ok(Some(Edit::Loses(name)))
    }
}

// An aggregate that is joined or left.
fn read_aggregate(mark: &[u8]) -> Option<Edit>
    ensures { option_map edit_shown result ≡ option_and_then aggregate_edit (sign_value mark.now) }
{
    let (is_in, id) = read_sign(mark)?;
    let id = Id::read(id)?;
    if is_in {
        Some(Edit::Joins(id))
    } else {
        Some(Edit::Leaves(id))
    }
}

// A number that is set of a class.
fn read_set(
    alloc: Global,
    class: &[u8],
    field: &[u8],
    value: &[u8],
) -> Result<Option<Edit>, NoMemory>
    ensures { IfOk result (λ edit. option_map edit_shown edit
        ≡ set_edit class.now field.now value.now) }
{
    let Some(class) = ClassName::read(alloc, class)? else {
        return Ok(None);
    };
    match read_setting(field, value) {
        Some(to) => Ok(Some(Edit::Sets(class, to))),
        None => Ok(None),
    }
}

// An edit of those whom a word tells.
fn read_edit(alloc: Global, word: &[u8], edit: Option<Edit>) -> Result<Option<Change>, NoMemory>
    ensures { IfOk result (λ change. option_map change_shown change
        ≡ edit_of word.now (option_map edit_shown edit)) }
{
    let Some(scope) = read_scope(alloc, word)? else {
        return Ok(None);
    };
    match edit {
        Some(edit) => Ok(Some(Change::Edit(scope, edit))),
        None => Ok(None),
    }
}

// The trait of a root that takes no new candidates.
fn disabled(alloc: Global) -> Result<TraitName, NoMemory>
    ensures { IfOk result (λ name. trait_bytes name ≡ disabled) }
{
    match TraitName::read(alloc, b"COMPUTE_STATUS_DISABLED".as_slice())? {
        Some(name) => Ok(name),
        None => unreachable!(),
    }
}

// What a command says of one word.
#[tactic(auto, unfolding(crate::specs::Lines::one_said))]
fn read_one(alloc: Global, command: &[u8], word: &[u8]) -> Result<Option<Change>, NoMemory>
    ensures { IfOk result (λ change. option_map change_shown change
        ≡ one_said command.now word.now) }
{
    if command == b"disable".as_slice() {
        let edit = Edit::Gains(disabled(alloc)?);
        return Ok(Some(Change::Edit(Scope::Root(word.to_vec(alloc)?), edit)));
    }
    if command == b"enable".as_slice() {
        let edit = Edit::Loses(disabled(alloc)?);
        return Ok(Some(Change::Edit(Scope::Root(word.to_vec(alloc)?), edit)));
    }
    if command == b"remove".as_slice() {
        return Ok(Some(Change::Remove(word.to_vec(alloc)?)));
    }
    Ok(None)
}

// What a command says of two words.
#[tactic(auto, unfolding(crate::specs::Lines::two_said))]
fn read_two(
    alloc: Global,
    command: &[u8],
    word: &[u8],
    mark: &[u8],
) -> Result<Option<Change>, NoMemory>
    ensures { IfOk result (λ change. option_map change_shown change
        ≡ two_said command.now word.now mark.now) }
{
    if command == b"trait".as_slice() {
        let edit = read_trait(alloc, mark)?;
        return read_edit(alloc, word, edit);
    }
    if command == b"aggregate".as_slice() {
        return read_edit(alloc, word, read_aggregate(mark));
    }
    Ok(None)
}

// What a command says of three words.
#[tactic(auto, unfolding(crate::specs::Lines::three_said))]
fn read_three(
    alloc: Global,
    command: &[u8],
    count: &[u8],
    word: &[u8],
    name: &[u8],
) -> Result<Option<Change>, NoMemory>
    ensures { IfOk result (λ change. option_map change_shown change
        ≡ three_said command.now count.now word.now name.now) }
{
    if command != b"add".as_slice() || word != b"like".as_slice() {
        return Ok(None);
    }
    match read_count(count) {
        Some(count) => Ok(Some(Change::Add(count, name.to_vec(alloc)?))),
        None => Ok(None),
    }
}

// What a command says of four words.
#[tactic(auto, unfolding(crate::specs::Lines::four_said))]
fn read_four(
    alloc: Global,
    command: &[u8],
    word: &[u8],
    class: &[u8],
    field: &[u8],
    value: &[u8],
) -> Result<Option<Change>, NoMemory>
    ensures { IfOk result (λ change. option_map change_shown change
        ≡ four_said command.now word.now class.now field.now value.now) }
{
    if command == b"set".as_slice() {
        let edit = read_set(alloc, class, field, value)?;
        return read_edit(alloc, word, edit);
    }
    Ok(None)
}

// The change that words say.
pub(crate) fn read_change(alloc: Global, words: &[&[u8]]) -> Result<Option<Change>, NoMemory>
    ensures { IfOk result (λ change. option_map change_shown change
        ≡ change_value (map (λ w. w.now) words.now)) }
{
    match words {
        [command, word] => read_one(alloc, command, word),
        [command, word, mark] => read_two(alloc, command, word, mark),
        [command, count, word, name] => read_three(alloc, command, count, word, name),
        [command, word, class, field, value] => {
            read_four(alloc, command, word, class, field, value)
        }
        _ => Ok(None),
    }
}
