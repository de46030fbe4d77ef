//! How late the commits are that store what gets read up to a phase, by the lists of the gets. That nothing is missed is
//! only tested.

use std::alloc::{AllocError, Global};
use std::collections::HashMap;
use wire_types::Proc;

/// More than the steps from any phase to the last, and back to the first.
const MOST_STEPS: u32 = 33;

/// A commit, by its number in its process, and the process of a get that reads a key which it stores.
#[derive(Clone, Copy)]
pub(crate) struct ReadStore {
    pub at: u32,
    pub reader: Proc,
}

/// For stretches of phases, the last commit of the owner that stores a key which a get of a list reads in them. A stretch
/// is told by its end, the number of phases up to it; it has as many phases as the end's lowest bit says (a Fenwick tree).
pub(crate) struct LastStores {
    stretches: HashMap<(u32, u32, u32), ReadStore>,
    phases: u32,
}

// By hand and not derived: so dropping one is a call, and the proof of a function that drops one doesn't take it apart.
impl Drop for LastStores {
    fn drop(self) {
        let LastStores {
            stretches: _,
            phases: _,
        } = self;
    }
}

/// The end of the next larger stretch that has a stretch.
fn outer(end: u32) -> u32 {
    (end | end.saturating_sub(1)).saturating_add(1)
}

/// The end of the stretch in front of one, 0 where there is none.
fn in_front(end: u32) -> u32 {
    end & end.saturating_sub(1)
}

impl LastStores {
    /// Of no get yet, in a plan of so many phases.
    pub(crate) fn empty(alloc: Global, phases: u32) -> LastStores {
        LastStores {
            stretches: HashMap::new(alloc),
            phases,
        }
    }

    /// Whether a get of a stretch reads a key that the commit of this number or a later one stores.
    fn has(&self, stretch: (u32, u32, u32), at: u32) -> bool {
        self.reader(stretch, at).is_some()
    }

    /// The process of such a get.
    fn reader(&self, stretch: (u32, u32, u32), at: u32) -> Option<Proc> {
        match self.stretches.get(&stretch) {
            Some(last) if last.at >= at => Some(last.reader),
            _ => None,
        }
    }

    /// Takes up a commit that stores a key which a get of a list reads in a phase.
    pub(crate) fn take(
        &mut self,
        listed: (u32, u32, u32),
        store: ReadStore,
    ) -> Result<(), AllocError> {
        let (owner, place, phase) = listed;
        let mut end = phase.saturating_add(1);
        for _ in 0..MOST_STEPS {
            let stretch = (owner, place, end);
            if end > self.phases || self.has(stretch, store.at) {
                return Ok(());
            }
            self.stretches.insert(stretch, store)?;
            end = outer(end);
        }
        Ok(())
    }

    /// The process of a get of a list that reads, in one of the first so many phases, a key that the commit of this number
    /// or a later one stores.
    pub(crate) fn reader_in(&self, listed: (u32, u32, u32), at: u32) -> Option<Proc> {
        let (owner, place, mut end) = listed;
        for _ in 0..MOST_STEPS {
            if end == 0 {
                return None;
            }
            let found = self.reader((owner, place, end), at);
            if found.is_some() {
                return found;
            }
            end = in_front(end);
        }
        None
    }
}
