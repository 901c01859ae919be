//! Claims by name: a name stands for one until it is released.
ghost use Rattle.std.specs.Prelude.{◌≡◌, Err, IfErr, None, Some, option_map};
ghost use Rattle.ac_session.specs.Held.{claim_shown, held_of, named_in};
ghost use Rattle.ac_session.specs.Standing.{IsNamed, TakesTurn, status_told};
ghost use Rattle.ac_session.specs.Tries.{NamedPlaceMayStop};
ghost use Rattle.ac_session.specs.Turns.{is_done, named_claim_turn, named_move_turn, named_place_turn, named_release_turn};
ghost use Rattle.ac_session.specs.Turns.Named.{Knows, terms_of};

use super::held::Held;
use super::names::{Claim, Names};
use super::place::place;
use super::terms::Terms;
use super::{answer_claim, answer_move, answer_release};
use crate::endings::{AnswerFault, Ending, write_said};
use ac_base::Sink;
use ac_query::Version;
use std::alloc::Global;

// Whether what was asked is done.
fn is_done(ending: &Ending) -> bool
    ensures { result ≡ is_done (status_told ending.now) }
{
    match ending {
        Ending::Given(status) => *status == 0,
        _ => false,
    }
}

// The same answer; where it is that what was asked is done, a name stands for this claim from then on.
fn name_made(
    alloc: Global,
    names: &mut Names,
    name: &str,
    made: Claim,
    answered: Result<Ending, AnswerFault>,
) -> Result<Ending, AnswerFault>
    ensures { IsNamed name.now (Some (claim_shown made)) answered result (named_in names.old)
        (named_in names.new) }
{
    match answered {
        Ok(ending) => {
            if !is_done(&ending) {
                return Ok(ending);
            }
            match names.set(alloc, name, made) {
                Ok(()) => Ok(ending),
                Err(_) => Err(AnswerFault::NoMemory),
            }
        }
        Err(fault) => Err(fault),
    }
}

// The same answer; where it is that what was asked is done, a name stands for nothing from then on.
fn name_gone(
    names: &mut Names,
    name: &str,
    answered: Result<Ending, AnswerFault>,
) -> Result<Ending, AnswerFault>
    ensures named { IsNamed name.now None answered result (named_in names.old)
        (named_in names.new) }
    ensures failed { IfErr result (λ fault. answered ≡ Err fault) }
{
    match answered {
        Ok(ending) => {
            if is_done(&ending) {
                names.remove(name);
            }
            Ok(ending)
        }
        Err(fault) => Err(fault),
    }
}

/// The answer to a claim with a name, which stands for it from then on.
pub(super) fn answer_named_claim<W: Sink>(
    alloc: Global,
    held: &mut Held,
    version: Version,
    query: &str,
    token: &str,
    name: &str,
    out: &mut W,
) -> Result<Ending, AnswerFault>
    ensures { TakesTurn ⊥ (held_of held.old)
        (named_claim_turn version query.now token.now name.now (held_of held.old)) result
        (held_of held.new) (W.taken out.old) (W.taken out.new) (W.failures out.old)
        (W.failures out.new) }
{
    if held.names.find(name).is_some() {
        return write_said(out, b"in use\n", 1);
    }
    let Ok(made) = Claim::new(alloc, query, token) else {
        return Err(AnswerFault::NoMemory);
    };
    let answered = answer_claim(alloc, &mut held.cloud, version, query, token, out);
    name_made(alloc, &mut held.names, name, made, answered)
}

/// The answer to a placement with a name, which stands for it from then on.
pub(super) fn answer_named_place<W: Sink>(
    alloc: Global,
    held: &mut Held,
    terms: &Terms<'_, '_>,
    query: &str,
    name: &str,
    host: Option<&str>,
    out: &mut W,
) -> Result<Ending, AnswerFault>
    requires { Knows terms.now (held_of held.old).world }
    ensures { TakesTurn (NamedPlaceMayStop terms.now.tries (terms_of terms.now)
        (held_of held.old) query.now name.now (option_map (λ t. t.now) host.entry))
        (held_of held.old) (named_place_turn (terms_of terms.now) query.now
        (option_map (λ t. t.now) host.entry) name.now (held_of held.old)) result
        (held_of held.new) (W.taken out.old) (W.taken out.new) (W.failures out.old)
        (W.failures out.new) }
{
    if let Some(_) = held.names.find(name) {
        return write_said(out, b"in use\n", 1);
    }
    let (ending, token) = match place(alloc, &mut held.cloud, terms, query, host, out) {
        Ok(placed) => placed,
        Err(fault) => return Err(fault),
    };
    let Ok(made) = Claim::new(alloc, query, &token) else {
        return Err(AnswerFault::NoMemory);
    };
    name_made(alloc, &mut held.names, name, made, Ok(ending))
}

/// The answer to a release of what a name stands for.
pub(super) fn answer_named_release<W: Sink>(
    alloc: Global,
    held: &mut Held,
    version: Version,
    name: &str,
    out: &mut W,
) -> Result<Ending, AnswerFault>
    ensures { TakesTurn ⊥ (held_of held.old)
        (named_release_turn version name.now (held_of held.old)) result (held_of held.new)
        (W.taken out.old) (W.taken out.new) (W.failures out.old) (W.failures out.new) }
{
    let Some(made) = held.names.find(name) else {
        return write_said(out, b"not in use\n", 1);
    };
    let cloud = &mut held.cloud;
    let answered = answer_release(alloc, cloud, version, &made.query, &made.token, out);
    name_gone(&mut held.names, name, answered)
}

/// The answer to a move of what a name stands for.
pub(super) fn answer_named_move<W: Sink>(
    alloc: Global,
    held: &mut Held,
    version: Version,
    name: &str,
    token: &str,
    out: &mut W,
) -> Result<Ending, AnswerFault>
    ensures { TakesTurn ⊥ (held_of held.old)
        (named_move_turn version name.now token.now (held_of held.old)) result (held_of held.new)
        (W.taken out.old) (W.taken out.new) (W.failures out.old) (W.failures out.new) }
{
    let Some(made) = held.names.find(name) else {
        return write_said(out, b"not in use\n", 1);
    };
    let Ok(moved) = Claim::new(alloc, &made.query, token) else {
        return Err(AnswerFault::NoMemory);
    };
    let cloud = &mut held.cloud;
    let answered = answer_move(alloc, cloud, version, &made.query, &made.token, token, out);
    name_made(alloc, &mut held.names, name, moved, answered)
}
