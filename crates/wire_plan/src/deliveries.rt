//! The fences and the gets that bring a key to a node.

ghost use Rattle.std.specs.Prelude.{◌≡◌, ◌≤◌, ℕ, map, option_map, IfSome};
ghost use Rattle.wire_runs.specs.Plan.{event_of, event_count};
ghost use Rattle.wire_runs.specs.Plan as runs;
ghost use Rattle.wire_runs.specs.Races.{IsPutOnce};
ghost use Rattle.wire_scripts.specs.Planned.{plan_of};
ghost use Rattle.wire_fence.specs.FenceTable.{AreFencesOf};
ghost use Rattle.wire_plan.specs.Index.{IsNextDelivery, AreGetDeliveries};
ghost use Rattle.wire_plan.specs.Keys.{AreKeysOf};
ghost use Rattle.wire_plan.specs.Indexed.{IsIndexed};
ghost use Rattle.wire_plan.specs.Gets.{AreGetLists};

use crate::events::Events;
use crate::gets::GetTable;
use crate::index::Index;
use crate::keys::KeyTable;
use wire_fence::Fences;
use wire_types::{Event, Proc};

/// What a fence or a get may bring: a key of its owner, to a node.
#[derive(Clone, Copy)]
pub(crate) struct Delivery {
    pub owner: Proc,
    pub key: u32,
    pub node: u32,
}

/// The higher of two numbers.
fn higher(a: u32, b: u32) -> u32
    ensures first { a ≤ result }
    ensures second { b ≤ result }
    ensures least { (n : ℕ) → a ≤ n → b ≤ n → result ≤ n }
{
    if a < b { b } else { a }
}

/// The owner's first arrival, from its event of this number on, at a fence that makes the delivery, of a
/// key that the owner puts once. No arrival before the commit that stores the key makes it, so it is the
/// first that brings data to the node from there on.
pub(crate) fn next_delivery(
    events: &Events,
    fences: &Fences,
    index: &Index,
    delivery: Delivery,
    from: u32,
) -> Option<Event>
    requires fences { AreFencesOf events.now fences.now }
    requires index { IsIndexed events.now fences.now index.now }
    ensures owner { IfSome result (λ e. e.proc ≡ delivery.owner) }
    ensures next { IsPutOnce (plan_of events.now) delivery.owner.number delivery.key
        → IsNextDelivery (plan_of events.now) delivery.owner.number delivery.key delivery.node from (option_map (λ e. e.at) result) }
{
    let Delivery { owner, key, node } = delivery;
    match index.keys.sending_commit(owner, key) {
        Some(commit) => {
            let at = higher(from, commit);
            index
                .bringing
                .first_from(events, fences, node, Event { proc: owner, at })
        }
        None => None,
    }
}

/// The gets that make the delivery, of a key that the owner, which has so many events, puts once: those
/// of processes of the node, if what the owner stores is for processes of other nodes.
pub(crate) fn delivering_gets<'a>(
    gets: &'a GetTable,
    keys: &KeyTable,
    delivery: Delivery,
    events: u32,
) -> &'a [Event]
    ensures { (plan : runs.Plan) → AreGetLists plan gets.now → AreKeysOf plan keys.now → events ≡ event_count plan delivery.owner.number
        → IsPutOnce plan delivery.owner.number delivery.key
        → AreGetDeliveries plan delivery.owner.number delivery.key delivery.node (map event_of result.now) }
{
    match keys.sending_commit(delivery.owner, delivery.key) {
        Some(commit) => {
            if commit < events {
                gets.gets(delivery)
            } else {
                &[]
            }
        }
        None => &[],
    }
}
