//! Pieces of a round that are taken, stolen and left, and a core under its lock.
ghost use Rattle.std.specs.Prelude.{◌≡◌, ◌≢◌, ◌<◌};
ghost use Rattle.wire_rounds.specs.Rounds.{ArePassesOf, workers_of};

use crate::workers::{WAITING, are, plan_of_file};
use std::alloc::Global;
use std::process::Abort;
use std::sync::Wait;
use std::test::Fail;
use wire_core::Core;
use wire_locked::LockedCore;
use wire_plan::Plan;
use wire_sched::{Pass, Piece, StealRound, Take};
use wire_types::{Fault, Proc};

/// The piece of a process in the fifth round.
fn piece(rank: u32) -> Piece {
    Piece {
        rank: Proc::new(rank),
        round: 5,
    }
}

/// Asserts that these pieces are those of these processes, in this order.
fn are_of(rt: &impl Abort, pieces: &[Piece], ranks: &[u32]) {
    assert!(rt; pieces.len() == ranks.len());
    for (left, rank) in pieces.iter().zip(ranks) {
        assert_eq!(rt; *left, piece(*rank));
    }
}

/// A worker's pass takes a piece of its own deque.
fn take(round: &StealRound, passes: &mut Vec<Pass>, worker: usize) -> Option<Piece>
    requires passes { ArePassesOf round.now passes.old.items }
    requires worker { worker < workers_of round.now }
    ensures { ArePassesOf round.now passes.new.items }
{
    round.own_take(&mut passes[worker])
}

/// A worker's pass tries to steal from the deque of another.
fn try_steal(round: &StealRound, passes: &mut Vec<Pass>, worker: usize, victim: usize) -> Take
    requires passes { ArePassesOf round.now passes.old.items }
    requires worker { worker < workers_of round.now }
    requires victim { (victim < workers_of round.now) × (victim ≢ worker) }
    ensures { ArePassesOf round.now passes.new.items }
{
    round.steal_take(&mut passes[worker], victim)
}

/// A worker's pass steals from the deque of another, in 1,000 attempts at most.
fn steal(round: &StealRound, passes: &mut Vec<Pass>, worker: usize, victim: usize) -> Option<Piece>
    requires passes { ArePassesOf round.now passes.old.items }
    requires worker { worker < workers_of round.now }
    requires victim { (victim < workers_of round.now) × (victim ≢ worker) }
    ensures { ArePassesOf round.now passes.new.items }
{
    for _ in 0..1_000 {
        match try_steal(round, passes, worker, victim) {
            Take::Got(piece) => return Some(piece),
            Take::Empty => return None,
            Take::Again => {}
        }
    }
    None
}

/// Where no worker took a piece, all are left, deque by deque.
#[test]
fn all_are_left(rt: HostRuntime) -> Result<(), Fail> {
    let (round, passes) = StealRound::deal(rt.alloc(), 5, 3, 7)?;
    are_of(&rt, round.finish(passes).as_slice(), &[0, 1, 2]);
    let (round, passes) = StealRound::deal(rt.alloc(), 5, 10, 3)?;
    are_of(
        &rt,
        round.finish(passes).as_slice(),
        &[0, 3, 6, 9, 1, 4, 7, 2, 5, 8],
    );
    Ok(())
}

/// A worker takes from the front of its own deque, and another steals from there.
#[test]
fn some_are_taken(rt: HostRuntime) -> Result<(), Fail> {
    let (round, mut passes) = StealRound::deal(rt.alloc(), 5, 10, 3)?;
    assert_eq!(rt; take(&round, &mut passes, 0), Some(piece(0)));
    assert_eq!(rt; take(&round, &mut passes, 0), Some(piece(3)));
    assert_eq!(rt; steal(&round, &mut passes, 1, 0), Some(piece(6)));
    are_of(&rt, round.finish(passes).as_slice(), &[9, 1, 4, 7, 2, 5, 8]);
    Ok(())
}

/// Whether the core that is under the lock steps as far as a process can go, and never for one that isn't there.
fn serves_in_turn<R: Wait>(rt: &R, locked: &LockedCore<'_>) -> bool {
    locked.serve(rt, Proc::new(0)) == 2
        && locked.serve(rt, Proc::new(1)) == 1
        && locked.serve(rt, Proc::new(9)) == 0
}

/// Whether a core of this plan has done all three events.
fn has_ended(core: &Core<'_>, plan: &Plan) -> bool {
    are(core.history(), &[0, 0, 1]) && core.ended() && *core.plan() == *plan
}

/// Whether `serve` does to the core that is under the lock what it should.
fn is_served_in_turn<R: Wait>(rt: &R, alloc: Global, plan: &Plan) -> Result<bool, Fault> {
    let locked = LockedCore::new(Core::new(alloc, plan)?);
    let is_served = serves_in_turn(rt, &locked);
    let core = locked.into_core();
    let has_ended = has_ended(&core, plan);
    drop(core);
    Ok(is_served && has_ended)
}

/// `serve` takes the steps of a process that is ready, and none of one that waits.
#[test]
fn steps_under_the_lock(rt: HostRuntime) -> Result<(), Fail> {
    let alloc = rt.alloc();
    let plan = plan_of_file(alloc, WAITING)?;
    let served = is_served_in_turn(&rt, alloc, &plan);
    drop(plan);
    assert!(rt; served?);
    Ok(())
}
