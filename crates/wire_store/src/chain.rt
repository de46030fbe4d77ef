//! The slots of a store: each put in order, with the number of the slot of its key that was stored last when it came.

ghost use Rattle.std.specs.Prelude.{◌≡◌, ◌<◌, ◌≤◌, ℕ, length, map, take};
ghost use Rattle.std.specs.Option.{ForSome};
ghost use Rattle.wire_store.specs.Kept.{is_stored_before, last_stored_before, seen};
ghost use Rattle.wire_store.specs.Slots.{last_slot, put_in, put_at, IsLinked, IsChained, store_slot};

use crate::seen::{Seen, admits};
use wire_types::{CallAt, Scope};

// A put, and what the store keeps with it.
#[derive(Clone, Copy)]
pub(crate) struct Slot {
    pub at: u32,
    pub key: u32,
    pub scope: Scope,
    pub call: CallAt,
    pub stored_by: Option<u32>,
    pub stored_before: Option<usize>,
}

impl Slot {
    /// Whether a commit stored it before this event.
    fn is_stored_before(self, event: u32) -> bool
        ensures { result ≡ is_stored_before event self.stored_by }
    {
        match self.stored_by {
            Some(commit) => commit < event,
            None => false,
        }
    }
}

/// The last stored slot of a key, told from the newest slot of the key.
pub(crate) fn last_stored(slots: &[Slot], newest: Option<usize>, committed: usize) -> Option<usize>
    requires linked { IsLinked slots.now committed }
    requires there { ForSome newest (λ i. i < length slots.now) }
    requires within { committed ≤ length slots.now }
    ensures { (key : ℕ) → newest ≡ last_slot slots.now key (length slots.now) → result ≡ last_slot slots.now key committed }
{
    match newest {
        Some(i) if i >= committed => slots[i].stored_before,
        _ => newest,
    }
}

/// The last slot of a key that a commit before this event stored, told from the last stored slot of the key.
pub(crate) fn last_before(slots: &[Slot], stored: Option<usize>, event: u32) -> Option<usize>
    requires chained { IsChained slots.now }
    requires there { ForSome stored (λ i. i < length slots.now) }
    ensures there { ForSome result (λ i. i < length slots.now) }
    ensures last { (key n : ℕ) → n ≤ length slots.now → stored ≡ last_slot slots.now key n
        → put_at slots.now result ≡ last_stored_before key event (take n (map put_in slots.now)) }
{
    let mut last = stored;
    while let Some(i) = last {
        let slot = slots[i];
        if slot.is_stored_before(event) {
            return last;
        }
        last = slot.stored_before;
    }
    None
}

/// What the slot of a number shows to a process that is, or isn't, on the owner's node.
pub(crate) fn show_slot(slots: &[Slot], number: Option<usize>, same_node: bool) -> Seen
    requires { ForSome number (λ i. i < length slots.now) }
    ensures { result ≡ seen same_node (put_at slots.now number) }
{
    let Some(i) = number else {
        return Seen::Nothing;
    };
    let slot = slots[i];
    if admits(slot.scope, same_node) {
        Seen::Value(slot.call)
    } else {
        Seen::Outside
    }
}

/// Marks each slot as stored by the commit of this number.
pub(crate) fn store_all(slots: &mut [Slot], at: u32)
    ensures { slots.new ≡ map (store_slot at) slots.old }
{
    for slot in slots.iter_mut() {
        slot.stored_by = Some(at);
    }
}
