//! A core under a lock.

ghost use Rattle.wire_locked.specs.Rule.{IsLegal};

use crate::advance::advance_far;
use std::sync::{Mutex, Wait};
use wire_core::Core;
use wire_types::Proc;

/// A core that many threads may serve. Whenever the lock is free, the core's state is the run of its
/// history, each step of which was of a process that was ready when it came.
#[derive(Drop)]
pub struct LockedCore<'a> {
    core: Mutex<Core<'a>>,
}

impl<'a> LockedCore<'a> {
    /// Puts a core under a lock. It takes no memory and can't fail.
    pub fn new(core: Core<'a>) -> LockedCore<'a> {
        LockedCore {
            core: Mutex::new(core),
        }
    }

    /// Waits for the lock, then steps a process until it isn't ready, and answers how many steps that were.
    /// It takes no memory. No clause says what it did: other threads step the core before and after.
    pub fn serve<R: Wait>(&self, rt: &R, proc: Proc) -> usize {
        let mut core = self.core.lock(rt);
        advance_far(&mut core, proc)
    }

    /// The core. It runs some plan: the type of a lock doesn't say which. It takes no memory and can't fail.
    pub fn into_core(self) -> Core<'a>
        ensures legal { IsLegal result }
    {
        let core = self.core.into_inner();
        // Whatever threads did, the steps so far are an interleaving.
        let _ = core.history();
        core
    }
}
