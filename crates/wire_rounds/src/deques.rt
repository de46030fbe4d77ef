//! The deques of a round.

ghost use Rattle.std.specs.Prelude.{◌≡◌, ℕ, ◌+◌, ◌-◌, ◌<◌, ◌≤◌, ◌∷◌, [], IfOk, OnOk, IsOkUnless, MatchOption, length};
ghost use Rattle.std.specs.Prelude.{vec_capacity, vec_len};
ghost use mathlib.Core.Option.{some};
ghost use lib.ListN.{get_elem?};
ghost use Rattle.wire_rounds.specs.Views.{deque_view, Takes};
ghost use Rattle.wire_rounds.specs.Rules.{joined, TookAll, IsDrained};
ghost use Rattle.wire_rounds.specs.Shares.{share_of};
ghost use Rattle.wire_rounds.specs.Rounds.{own_view, MatchTake};
ghost use Rattle.wire_rounds.specs.Deques.{EachPair, IsFilled, GaveOne, IsPermitOf, SameDeque, IsStart, Made, Cutting};
ghost use Rattle.wire_rounds.specs.Deques.{CanTake, AreJoined, CanJoinAll, AreGathered};
ghost use Rattle.crossbeam_deque.specs.Handles as deque;
ghost use Rattle.crossbeam_deque.specs.Handles.{view, SamePass, stealer_deque, stealer_flavor, worker_deque};
ghost use Rattle.crossbeam_deque.specs.Handles.{worker_flavor, worker_view};

use crate::round::{Pass, Take};
use crate::rule::{Deals, Owner, Permit, Piece, Splits, TakesOne, Thief};
use crossbeam_deque::Steal;
use std::alloc::Global;
use std::mem;
use wire_types::{Fault, Proc};

/// A deque with the pieces of one worker. It has room for them from the start.
fn fill_deque(
    alloc: Global,
    round: u64,
    ranks: u32,
    workers: usize,
    worker: usize,
) -> Result<Owner, Fault>
    requires { worker < workers }
    ensures filled { IfOk result (IsFilled (share_of worker workers round ranks)) }
    ensures memory { IsOkUnless result Fault.Memory }
{
    let mut own = Owner::fifo_as(alloc, ranks as usize / workers + 1)?;
    let mut next = worker;
    'turns: while next < ranks as usize {
        let Ok(()) = own.push_as::<Deals>(Piece {
            rank: Proc::new(next as u32),
            round,
        }) else {
            return Err(Fault::Memory);
        };
        next = next.saturating_add(workers);
    }
    Ok(own)
}

/// Cuts one permit of a deque from its owner.
fn cut_permit(own: &mut Owner) -> Permit
    requires { 1 < (worker_view own.old).parts }
    ensures permit { IsPermitOf own.old result }
    ensures same { SameDeque own.old own.new }
    ensures view { worker_view own.new ≡ deque_view ((worker_view own.old).parts - 1) (worker_view own.old).below (worker_view own.old).dealt
        (worker_view own.old).taken }
{
    own.another::<Splits>()
}

/// Cuts one permit of each deque from the passes.
fn cut_permits(alloc: Global, passes: &mut Vec<Pass>) -> Result<Vec<Permit>, Fault>
    requires { (k : ℕ) (p : Pass) → get_elem? passes.old.items k ≡ some p → 1 < (own_view p).parts }
    ensures cut { OnOk result (EachPair GaveOne passes.old.items passes.new.items) }
    ensures permits { IfOk result (λ permits. EachPair (λ p t. IsPermitOf p.own t) passes.old.items permits.items) }
    ensures memory { IsOkUnless result Fault.Memory }
{
    let mut permits = Vec::with_capacity(alloc, passes.len())?;
    for i in 0..passes.len() {
        permits.push_reserved(cut_permit(&mut passes[i].own));
    }
    Ok(permits)
}

/// A worker's pass with no permit yet, and a handle with which others steal from it.
fn start(
    alloc: Global,
    round: u64,
    ranks: u32,
    workers: usize,
    worker: usize,
) -> Result<(Pass, Thief), Fault>
    requires { worker < workers }
    ensures start { IfOk result (λ r. IsStart (share_of worker workers round ranks) worker r.0 r.1) }
    ensures memory { IsOkUnless result Fault.Memory }
{
    let own = fill_deque(alloc, round, ranks, workers, worker)?;
    let thief = own.stealer()?;
    let pass = Pass {
        worker,
        own,
        permits: Vec::new(alloc),
    };
    Ok((pass, thief))
}

/// The passes of all workers, with no permit yet, and handles with which others steal from their deques.
pub(crate) fn start_all(
    alloc: Global,
    round: u64,
    ranks: u32,
    workers: usize,
) -> Result<(Vec<Pass>, Vec<Thief>), Fault>
    ensures made { IfOk result (λ r. Made round ranks workers r.0.items r.1.items workers) }
    ensures memory { IsOkUnless result Fault.Memory }
{
    let mut passes = Vec::with_capacity(alloc, workers)?;
    let mut thieves = Vec::with_capacity(alloc, workers)?;
    'starts: for worker in 0..workers {
        let (pass, thief) = start(alloc, round, ranks, workers, worker)?;
        passes.push_reserved(pass);
        thieves.push_reserved(thief);
    }
    Ok((passes, thieves))
}

/// Gives each pass a permit of each deque. No permit was cut before.
pub(crate) fn give_permits(alloc: Global, passes: &mut Vec<Pass>) -> Result<(), Fault>
    requires { Cutting passes.old.items passes.old.items 0 }
    ensures cut { OnOk result (Cutting passes.old.items passes.new.items (length passes.old.items)) }
    ensures memory { IsOkUnless result Fault.Memory }
{
    'cuts: for to in 0..passes.len() {
        let permits = cut_permits(alloc, passes)?;
        let pass = &mut passes[to];
        pass.permits = permits;
    }
    Ok(())
}

/// Takes the front piece of a deque.
pub(crate) fn take_front(own: &mut Owner) -> Option<Piece>
    requires fifo { worker_flavor own.old ≡ 0 }
    requires part { 0 < (worker_view own.old).parts }
    ensures same { SameDeque own.old own.new }
    ensures took { MatchOption result ((worker_view own.new ≡ worker_view own.old) × TookAll (worker_view own.old))
        (λ x. Takes (worker_view own.old) (x ∷ []) (worker_view own.new)) }
{
    own.pop_as::<TakesOne>()
}

/// Joins a permit of a deque into the deque's owner.
fn join_one(own: &mut Owner, permit: Permit)
    requires permit { deque.IsPassOf (worker_deque own.old) permit }
    requires part { 0 < (worker_view own.old).parts }
    ensures same { SameDeque own.old own.new }
    ensures view { worker_view own.new ≡ joined (worker_view own.old) (view permit) }
{
    own.absorb::<Splits>(permit);
}

/// Joins permits, one of each deque, into the owners of their deques.
fn join_permits(passes: &mut Vec<Pass>, permits: Vec<Permit>)
    requires { EachPair CanTake passes.old.items permits.items }
    ensures { AreJoined passes.old.items permits.items passes.new.items }
{
    let mut permits = permits;
    'joins: while let Some(permit) = permits.pop() {
        let to = permits.len();
        join_one(&mut passes[to].own, permit);
    }
}

/// Joins the permits of all passes into the owners of their deques, which then know all that was taken.
pub(crate) fn join_all(passes: &mut Vec<Pass>)
    requires { CanJoinAll passes.old.items }
    ensures { AreGathered passes.old.items passes.new.items }
{
    let alloc = *passes.allocator();
    'rows: for from in 0..passes.len() {
        let permits = mem::replace(&mut passes[from].permits, Vec::new(alloc));
        join_permits(passes, permits);
    }
}

/// Moves what is left in a deque, front to back.
pub(crate) fn drain(own: &mut Owner, left: &mut Vec<Piece>)
    requires fifo { worker_flavor own.old ≡ 0 }
    requires part { 0 < (worker_view own.old).parts }
    requires room { vec_len left.old + length (worker_view own.old).dealt ≤ vec_capacity left.old }
    ensures rest { IsDrained (worker_view own.old) left.old.items left.new.items }
    ensures bound { vec_len left.new ≤ vec_len left.old + length (worker_view own.old).dealt }
    ensures capacity { vec_capacity left.new ≡ vec_capacity left.old }
{
    'drains: while let Some(piece) = take_front(own) {
        left.push_reserved(piece);
    }
}

/// Steals the front piece of a deque.
pub(crate) fn steal_from(thief: &Thief, permit: &mut Permit) -> Take
    requires fifo { stealer_flavor thief.now ≡ 0 }
    requires permit { deque.IsPassOf (stealer_deque thief.now) permit.old }
    requires part { 0 < (view permit.old).parts }
    ensures same { SamePass permit.old permit.new }
    ensures took { MatchTake result (λ x. Takes (view permit.old) (x ∷ []) (view permit.new)) (view permit.new ≡ view permit.old) }
{
    match thief.steal_as::<TakesOne>(permit) {
        Steal::Success(piece) => Take::Got(piece),
        Steal::Empty => Take::Empty,
        Steal::Retry => Take::Again,
    }
}
