//! The lanes of all ranks, each under a lock.

ghost use Rattle.std.specs.Prelude.{◌≡◌, length, IfOk, IfSome, IsOkUnless, vec_len};
ghost use Rattle.wire_types.specs.declared.Fault.TheVariants.{Memory};
ghost use Rattle.wire_scripts.specs.Planned.{plan_of};
ghost use Rattle.wire_board.specs.Cuts.{procs_of};
ghost use Rattle.wire_board.specs.Seats.{opening_seats};
ghost use Rattle.wire_board.specs.Lanes.{AreLaneTrails, AreTrails, AreUnlocked, IsToldByLanes};

use crate::board::Board;
use crate::lane::Lane;
use crate::row::{lanes_of, trails_of};
use crate::seat::Seat;
use std::alloc::{AllocError, Global};
use std::marker::Model;
use std::sync::{Mutex, Wait};
use wire_fates::{Fate, Settled};
use wire_types::{Event, Fault, Proc};

/// What became of a rank that was served: how many events that were, how many of its events are done, and the event
/// that was missing, for which its next one waits.
#[derive(Clone, Copy)]
pub struct Served {
    pub events: usize,
    pub done: usize,
    pub missing: Option<Event>,
}

/// A lane for each rank, in process order, each under a lock of its own. Whenever the lock is free, the
/// lane's trail has the fates of its rank's first events, as many as are done. Contracts see how many lanes
/// there are.
#[derive(Drop)]
pub struct Lanes<'a> {
    lanes: Vec<Mutex<Lane<'a>>>,
}

impl<'a> Model for Lanes<'a> {
    ghost use Rattle.std.specs.Prelude.{vec_len};
    ghost use Rattle.wire_board.specs.Lanes.{LanesAre};

    ghost Value = { LanesAre };

    ghost view = { λ l. record { count = vec_len l.lanes } };
}

impl<'a> Lanes<'a> {
    /// A lane for each of these seats. Each reserves its whole trail. The caller ensures that the board was
    /// made of this settled plan, and that the seats are those that `Board::new` gave, in their order, with
    /// nothing read or done yet. The one fault is `Fault::Memory`.
    pub fn new(
        alloc: Global,
        board: &'a Board,
        settled: &'a Settled,
        seats: Vec<Seat>,
    ) -> Result<Lanes<'a>, Fault>
        requires plan { board.now.plan ≡ settled.now }
        requires seats { seats.items ≡ opening_seats board.now }
        ensures count { IfOk result (λ lanes. lanes.count ≡ procs_of board.now.plan) }
        ensures memory { IsOkUnless result Memory }
    {
        let lanes = lanes_of(alloc, board, settled, seats)?;
        let lanes = lock_lanes(alloc, lanes)?;
        Ok(Lanes { lanes })
    }

    /// Waits for the lock of a rank's lane, then serves the rank as far as it goes, and answers how many
    /// events that were (`Lane::advance_far`); 0 for a process that has no lane. It takes no memory. No
    /// clause says what it did: other threads serve the lane before and after.
    pub fn serve<R: Wait>(&self, rt: &R, proc: Proc) -> usize {
        match self.lanes.get(proc.index()) {
            Some(lane) => lane.lock(rt).advance_far(),
            None => 0,
        }
    }

    /// The same, and tells how far the rank is then, and for which event it waits (`Lane::missing`).
    pub fn serve_far<R: Wait>(&self, rt: &R, proc: Proc) -> Served {
        match self.lanes.get(proc.index()) {
            Some(lane) => {
                let mut lane = lane.lock(rt);
                let events = lane.advance_far();
                Served {
                    events,
                    done: lane.trail().len(),
                    missing: lane.missing(),
                }
            }
            None => Served {
                events: 0,
                done: 0,
                missing: None,
            },
        }
    }

    /// Waits for the lock of a rank's lane, then answers whether the rank's next event can happen, after
    /// fresh reads of its sources (`Lane::is_ready`); false for a process that has no lane. It takes no
    /// memory.
    pub fn ready<R: Wait>(&self, rt: &R, proc: Proc) -> bool {
        match self.lanes.get(proc.index()) {
            Some(lane) => lane.lock(rt).is_ready(),
            None => false,
        }
    }

    /// The trails of the lanes that come from under the locks, in process order: the r-th is the whole trail of a lane
    /// of rank r. `None` where there aren't as many lanes as this plan has ranks, or where a lane is of another rank
    /// than its place says or has entries that aren't the fates of this plan (`trails_of`). How far the lanes are isn't
    /// told: other threads may have served them, or not; nor of which board they are, as no clause can name what is
    /// under a lock. The one fault is `Fault::Memory`.
    pub fn trails(self, alloc: Global, settled: &Settled) -> Result<Option<Vec<Vec<Fate>>>, Fault>
        ensures told { IfOk result (λ o. IsToldByLanes (plan_of settled.now) self.entry.count o) }
        ensures lanes { IfOk result (λ o. IfSome o (λ trails. AreLaneTrails trails.items)) }
        ensures trails { IfOk result (λ o. IfSome o (λ trails. AreTrails (plan_of settled.now) trails.items)) }
        ensures count { IfOk result (λ o. IfSome o (λ trails. length trails.items ≡ self.entry.count)) }
        ensures memory { IsOkUnless result Memory }
    {
        let lanes = unlock_lanes(alloc, self.lanes)?;
        let told = trails_of(alloc, lanes, settled)?;
        Ok(told)
    }
}

/// These lanes, in their order, each under a lock.
fn lock_lanes<'a>(alloc: Global, lanes: Vec<Lane<'a>>) -> Result<Vec<Mutex<Lane<'a>>>, AllocError>
    ensures { IfOk result (λ locked. vec_len locked ≡ vec_len lanes.entry) }
{
    let mut lanes = lanes;
    let mut locked = Vec::with_capacity(alloc, lanes.len())?;
    'lanes: while let Some(lane) = lanes.pop() {
        locked.push_reserved(Mutex::new(lane));
    }
    locked.reverse();
    Ok(locked)
}

/// These lanes, in their order, under no lock.
fn unlock_lanes<'a>(
    alloc: Global,
    locked: Vec<Mutex<Lane<'a>>>,
) -> Result<Vec<Lane<'a>>, AllocError>
    ensures { IfOk result (λ lanes. AreUnlocked (vec_len locked.entry) lanes.items) }
{
    let mut locked = locked;
    let mut lanes = Vec::with_capacity(alloc, locked.len())?;
    'locks: while let Some(lock) = locked.pop() {
        let lane = lock.into_inner();
        // The lane keeps its trail.
        let _ = lane.trail();
        lanes.push_reserved(lane);
    }
    lanes.reverse();
    Ok(lanes)
}
