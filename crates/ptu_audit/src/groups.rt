//! What a group of lines says that grandmasters did.

ghost use Rattle.std.specs.Prelude.{◌≡◌, ◌∷◌, [], option_map, IfOk, filter_map};
ghost use Rattle.std.specs.List.{list_all, list_any, zip};
ghost use Rattle.ptu_audit.specs.Answered.{is_answered_by as is_answered_by_told, tells_of as tells_told};
ghost use Rattle.ptu_audit.specs.Groups as specs;

use crate::answered::{is_answered_by, tells_of};
use crate::deed::{Act, Deed, Sheddings};
use crate::line::{Line, Said};
use ptu_audit_lines::Decision;
use ptu_messages::{PortIdentity, Tlv, TlvList};
use ptu_trail::Shedding;
use ptu_units::sizes::MOST_TLVS;
use ptu_units::{Client, OutOfMemory};
use std::alloc::{AllocError, Global};

/// Whether the group has this number of a script's line.
pub(crate) fn is_of_script(group: &[Line], script: u64) -> bool
    ensures { result ≡ specs.is_of_script group.now script }
{
    match group {
        [] => false,
        [first, ..] => first.script == script,
    }
}

// What the decision did to the client.
fn deed_of(client: Client, decision: &Decision) -> Option<Deed>
    ensures { result ≡ specs.deed_of client decision.now }
{
    match *decision {
        Decision::Granted {
            kind,
            log,
            at,
            until,
        } => Some(Deed::Granted {
            at,
            client,
            kind,
            log,
            until,
        }),
        Decision::Cancelled { kind, at } => Some(Deed::Ended { at, client, kind }),
        Decision::Nothing { kind, at } => Some(Deed::Ended { at, client, kind }),
        _ => None,
    }
}

// What was done to the client by a decision that this says.
fn said_deed(client: Client, said: &Said) -> Option<Deed>
    ensures { result ≡ specs.said_deed client said.now }
{
    match said {
        Said::Decided(decision) => deed_of(client, decision),
        _ => None,
    }
}

// What the line tells that the grandmaster did to the client.
fn decided(line: &Line, grandmaster: u32, client: Client) -> Option<Act>
    ensures { result ≡ specs.act_at line.now grandmaster (specs.said_deed client line.now.said) }
{
    let deed = said_deed(client, &line.said)?;
    Some(Act {
        line: line.number,
        grandmaster,
        deed,
    })
}

// What the lines tell that the grandmaster did to the client.
fn all_decided(
    alloc: Global,
    asked: &[Line],
    grandmaster: u32,
    client: Client,
) -> Result<Vec<Act>, AllocError>
    ensures { IfOk result (λ acts. acts.items ≡ filter_map
        (λ line. specs.act_at line grandmaster (specs.said_deed client line.said)) asked.now) }
{
    asked
        .iter()
        .filter_map(|line| decided(line, grandmaster, client))
        .collect(alloc)
}

// Whether each line says a decision that the TLV in its place answers.
fn are_answered_in_order(asked: &[Line], list: &[Tlv]) -> bool
    ensures { result ≡ list_all (λ pair. is_answered_by_told pair.0.said pair.1)
        (zip asked.now list.now) }
{
    asked
        .iter()
        .zip(list)
        .all(|(line, tlv)| is_answered_by(&line.said, tlv))
}

// Whether at most 32 lines are decisions that the TLVs answer in order.
fn are_few_and_answered(asked: &[Line], list: &[Tlv]) -> bool
    ensures { result ≡ specs.are_few_and_answered asked.now list.now }
{
    asked.len() <= MOST_TLVS && asked.len() == list.len() && are_answered_in_order(asked, list)
}

// What the lines tell that are answered by this, or nothing where they are not.
fn answered_acts(
    alloc: Global,
    asked: &[Line],
    said: &Said,
) -> Result<Option<Vec<Act>>, OutOfMemory>
    ensures { IfOk result (λ told. option_map (λ acts. acts.items) told
        ≡ specs.answered_acts asked.now said.now) }
{
    let Said::Signaled {
        from,
        to,
        target,
        list,
    } = said
    else {
        return Ok(None);
    };
    if !are_few_and_answered(asked, list.list()) {
        return Ok(None);
    }
    let client = Client {
        ip: *to,
        clock: target.clock,
        port: target.port,
    };
    Ok(Some(all_decided(alloc, asked, *from, client)?))
}

// What a group of decisions on a Signaling tells, or nothing where they are not answered.
fn decided_acts(alloc: Global, group: &[Line]) -> Result<Option<Vec<Act>>, OutOfMemory>
    ensures { IfOk result (λ told. option_map (λ acts. acts.items) told
        ≡ specs.decided_acts (specs.last_apart group.now)) }
{
    match group.split_last() {
        None => Ok(None),
        Some((last, asked)) => answered_acts(alloc, asked, &last.said),
    }
}

// Whether each of the first lines says a shedding, and that in its place that it was told.
fn all_tell(grandmaster: u32, sheds: &[Line], sends: &[Line]) -> bool
    ensures { result ≡ list_all (λ pair. tells_told grandmaster pair.0.said pair.1.said)
        (zip sheds.now sends.now) }
{
    sheds.iter().zip(sends).all(|(shed, send)| tells_of(grandmaster, &shed.said, &send.said))
}

// Whether the first half of these lines are sheddings, and the second half tells of each, in order.
fn are_told(grandmaster: u32, rest: &[Line]) -> bool
    ensures { result ≡ specs.are_told grandmaster rest.now }
{
    let count = rest.len() / 2;
    rest.len() == count * 2 && all_tell(grandmaster, &rest[..count], &rest[count..])
}

// The shedding that this says.
fn shedding_of(said: &Said) -> Option<Shedding>
    ensures { result ≡ specs.shedding_of said.now }
{
    match said {
        Said::Shed { kind, client } => Some(Shedding {
            client: *client,
            kind: *kind,
        }),
        _ => None,
    }
}

// The sheddings that the lines say.
fn sheddings(alloc: Global, sheds: &[Line]) -> Result<Vec<Shedding>, AllocError>
    ensures { IfOk result (λ list. list.items
        ≡ filter_map (λ line. specs.shedding_of line.said) sheds.now) }
{
    sheds
        .iter()
        .filter_map(|line| shedding_of(&line.said))
        .collect(alloc)
}

// The one act.
fn alone(alloc: Global, act: Act) -> Result<Vec<Act>, OutOfMemory>
    ensures { IfOk result (λ acts. acts.items ≡ act ∷ []) }
{
    let mut acts = Vec::new(alloc);
    acts.push(act)?;
    Ok(acts)
}

// What a group of a change of capacity tells, or nothing where the clients were not told.
fn changed(
    alloc: Global,
    number: u32,
    grandmaster: u32,
    capacity: u64,
    at: u64,
    rest: &[Line],
) -> Result<Option<Vec<Act>>, OutOfMemory>
    ensures { IfOk result (λ told. option_map (λ acts. acts.items) told
        ≡ specs.changed number grandmaster capacity at rest.now) }
{
    if !are_told(grandmaster, rest) {
        return Ok(None);
    }
    let shed = Sheddings::new(sheddings(alloc, &rest[..rest.len() / 2])?);
    let act = Act {
        line: number,
        grandmaster,
        deed: Deed::Changed { at, capacity, shed },
    };
    Ok(Some(alone(alloc, act)?))
}

// Whether this is a decision, a change of capacity or a shedding.
fn decides(said: &Said) -> bool
    ensures { result ≡ specs.decides said.now }
{
    match said {
        Said::Decided(_) | Said::Change { .. } | Said::Shed { .. } => true,
        _ => false,
    }
}

// The timing message that the line with this number tells.
fn message_at(number: u32, said: &Said) -> Option<Act>
    ensures { result ≡ specs.message_at number said.now }
{
    match said {
        Said::Timed {
            from,
            to,
            kind,
            stamp,
        } => Some(Act {
            line: number,
            grandmaster: *from,
            deed: Deed::Sent {
                stamp: *stamp,
                ip: *to,
                kind: *kind,
            },
        }),
        _ => None,
    }
}

// The timing messages that the lines tell.
fn all_messages(alloc: Global, group: &[Line]) -> Result<Vec<Act>, AllocError>
    ensures { IfOk result (λ acts. acts.items
        ≡ filter_map (λ line. specs.message_at line.number line.said) group.now) }
{
    group
        .iter()
        .filter_map(|line| message_at(line.number, &line.said))
        .collect(alloc)
}

// Whether a line is a decision, a change of capacity or a shedding.
fn has_decision(group: &[Line]) -> bool
    ensures { result ≡ list_any (λ line. specs.decides line.said) group.now }
{
    group.iter().any(|line| decides(&line.said))
}

// What any other group tells, or nothing where one of its lines belongs into a group of those.
fn messages_in(alloc: Global, group: &[Line]) -> Result<Option<Vec<Act>>, OutOfMemory>
    ensures { IfOk result (λ told. option_map (λ acts. acts.items) told
        ≡ specs.messages_in group.now) }
{
    if has_decision(group) {
        return Ok(None);
    }
    Ok(Some(all_messages(alloc, group)?))
}

/// What the lines of a group say that was done, in order, or nothing exactly where the group is
/// not as it must be.
///
/// # Errors
/// `OutOfMemory`.
#[tactic(auto, unfolding(crate::specs::Groups::acts_of))]
pub(crate) fn acts_of(alloc: Global, group: &[Line]) -> Result<Option<Vec<Act>>, OutOfMemory>
    ensures { IfOk result (λ told. option_map (λ acts. acts.items) told
        ≡ specs.acts_of group.now) }
{
    let [first, rest @ ..] = group else {
        return Ok(Some(Vec::new(alloc)));
    };
    match first.said {
        Said::Decided(_) => decided_acts(alloc, group),
        Said::Change {
            grandmaster,
            capacity,
            at,
        } => changed(alloc, first.number, grandmaster, capacity, at, rest),
        _ => messages_in(alloc, group),
    }
}
