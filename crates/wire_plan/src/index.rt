//! What is looked up of a plan's events.

ghost use Rattle.std.specs.Prelude.{IfOk};
ghost use Rattle.wire_fence.specs.FenceTable.{AreFencesOf};
ghost use Rattle.wire_plan.specs.Indexed.{IsIndexed};

use crate::bringing::BringingArrivals;
use crate::events::Events;
use crate::gets::GetTable;
use crate::keys::KeyTable;
use crate::meetings::Meetings;
use crate::names::NameTable;
use std::alloc::{AllocError, Global};
use wire_fence::Fences;

/// Who arrives at each fence, the keys that are put, the calls on each name, the arrivals at fences that
/// bring data, and the gets that bring a key to a node.
pub(crate) struct Index {
    pub meetings: Meetings,
    pub keys: KeyTable,
    pub names: NameTable,
    pub bringing: BringingArrivals,
    pub gets: GetTable,
}

// By hand and not derived: so dropping one is a call, and the proof of a function that drops one doesn't take it apart.
impl Drop for Index {
    fn drop(self) {
        let Index {
            meetings: _,
            keys: _,
            names: _,
            bringing: _,
            gets: _,
        } = self;
    }
}

impl Index {
    /// The index of these events, whose fences these are. The only error is that memory ran out.
    pub(crate) fn of(alloc: Global, events: &Events, fences: &Fences) -> Result<Index, AllocError>
        requires { AreFencesOf events.now fences.now }
        ensures { IfOk result (λ index. IsIndexed events.now fences.now index) }
    {
        // Last come those with the most parts, which no later error has to drop.
        Ok(Index {
            bringing: BringingArrivals::of(alloc, events, fences)?,
            meetings: Meetings::of(alloc, events, fences)?,
            keys: KeyTable::of(alloc, events)?,
            gets: GetTable::of(alloc, events)?,
            names: NameTable::of(alloc, events)?,
        })
    }
}
