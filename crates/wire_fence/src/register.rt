//! The fences as calls are read: a row for each, by number.

ghost use Rattle.std.specs.Prelude.{◌≡◌, ◌+◌, ◌<◌, ◌≤◌, ◌^◌, [], ℕ, map, length, replicate, slice_get, slice_index_or};
ghost use Rattle.std.specs.Prelude.{◌↔◌, IsTrue, OnOk, IfOk, Some, None};
ghost use Rattle.wire_types.specs.declared.Call.TheVariants.{Fence as TheFence};
ghost use Rattle.wire_runs.specs.Plan.{update};
ghost use Rattle.wire_scripts.specs.Scripts.{Scripts, IsSound, IsCounted, numbers_of, call_at, set_at};
ghost use Rattle.wire_fence.specs.FenceTable.{written_calls};
ghost use Rattle.wire_fence.specs.Register.{IsKeyed, HasRow, IsCalled, IsAfter, AreNumbersOf, AreAllNumbers, AreRead};
ghost use Rattle.wire_fence.specs.Register.{AreForgotten, EndsBare, read_to, called, number_kept};

use indexmap::IndexSet;
use std::alloc::{AllocError, Global};
use wire_scripts::Process;
use wire_types::{Call, Proc};

/// What is kept of a call that is part of no fence. No fence has this number.
pub(crate) const NO_FENCE: u32 = u32::MAX;

// The nth fence over a set, as far as calls are read: how many members haven't called it, and whether
// all that have say collect.
#[derive(Clone, Copy)]
pub(crate) struct FenceDraft {
    pub set: u32,
    pub nth: usize,
    pub missing: usize,
    pub collects: bool,
}

// The rows by number, and the number of each by set and nth. Most processes call the same fences in the same order, so
// the one after the last that was found is looked at first.
#[derive(Drop)]
pub(crate) struct Register {
    pub rows: Vec<FenceDraft>,
    pub keys: IndexSet<(u32, usize)>,
    next: usize,
}

impl FenceDraft {
    /// The fence with one call more, which collects or doesn't.
    fn with_call(self, collect: bool) -> FenceDraft
        ensures { result ≡ called collect self }
    {
        FenceDraft {
            set: self.set,
            nth: self.nth,
            missing: self.missing.saturating_sub(1),
            collects: self.collects && collect,
        }
    }
}

/// The members of a set, none where the number has no set.
pub(crate) fn members_of(sets: &[Vec<Proc>], set: usize) -> &[Proc]
    ensures { numbers_of result.now ≡ set_at (map (λ v. numbers_of v.items) sets.now) set }
{
    match sets.get(set) {
        Some(members) => members.as_slice(),
        None => &[],
    }
}

/// Sets the counts of the sets that are called back to 0.
fn forget(counts: &mut Vec<usize>, calls: &[Call])
    requires { (c set : ℕ) (collect : _) → slice_get calls.now c ≡ Some (TheFence set collect) → set < length counts.old.items }
    ensures { AreForgotten counts.old.items calls.now (length calls.now) counts.new.items }
{
    for call in calls {
        if let Call::Fence { set, .. } = *call {
            counts[set as usize] = 0;
        }
    }
}

/// Whether the last of the first so many numbers is that of no fence.
fn ends_bare(numbers: &[u32], count: usize) -> bool
    requires { count ≤ length numbers.now }
    ensures { IsTrue result ↔ EndsBare numbers.now count }
{
    if count == 0 {
        return false;
    }
    numbers[count - 1] == NO_FENCE
}

/// The numbers kept of calls, up to the last fence call among them.
fn up_to_last(alloc: Global, mut numbers: Vec<u32>) -> Result<Vec<u32>, AllocError>
    ensures { IfOk result (λ kept. (c : ℕ) → slice_index_or (map number_kept kept.items) c None
        ≡ slice_index_or (map number_kept numbers.items) c None) }
{
    let mut count = numbers.len();
    'back: while ends_bare(&numbers, count) {
        count -= 1;
    }
    numbers.truncate(count);
    let kept = Vec::from_slice(alloc, &numbers)?;
    Ok(kept)
}

impl Register {
    /// A register without fences.
    pub(crate) fn new(alloc: Global) -> Register
        ensures rows { result.rows.items ≡ [] }
        ensures keyed { IsKeyed result }
    {
        Register {
            rows: Vec::new(alloc),
            keys: IndexSet::new(alloc),
            next: 0,
        }
    }

    /// Whether the row of this number is that of the nth fence over a set.
    fn is_row(&self, number: usize, set: u32, nth: usize) -> bool
        ensures { IsTrue result ↔ HasRow self.now.rows.items number set nth }
    {
        let Some(row) = self.rows.get(number) else {
            return false;
        };
        if row.set != set {
            return false;
        }
        if row.nth != nth {
            return false;
        }
        true
    }

    /// Counts a call of the fence of a row.
    fn call_row(&mut self, number: usize, collect: bool)
        requires keyed { IsKeyed self.old }
        requires there { number < length self.old.rows.items }
        ensures keyed { IsKeyed self.new }
        ensures called { (set nth members : ℕ) → HasRow self.old.rows.items number set nth →
            IsCalled self.old.rows.items set nth members collect number self.new.rows.items }
    {
        let row = self.rows[number];
        self.rows[number] = row.with_call(collect);
    }

    /// Counts a call of the nth fence over a set of so many members, and says the number of the fence, which is
    /// found by its key.
    fn add_by_key(
        &mut self,
        set: u32,
        nth: usize,
        members: usize,
        collect: bool,
    ) -> Result<usize, AllocError>
        requires { IsKeyed self.old }
        ensures keyed { OnOk result (IsKeyed self.new) }
        ensures called { IfOk result (λ n. IsCalled self.old.rows.items set nth members collect n self.new.rows.items) }
    {
        let (number, is_new) = self.keys.insert_full((set, nth))?;
        if is_new {
            let row = FenceDraft {
                set,
                nth,
                missing: members,
                collects: true,
            };
            self.rows.push(row.with_call(collect))?;
        } else {
            let row = self.rows[number];
            self.rows[number] = row.with_call(collect);
        }
        Ok(number)
    }

    /// Counts a call of the nth fence over a set of so many members, and says the number of the fence.
    fn add(
        &mut self,
        set: u32,
        nth: usize,
        members: usize,
        collect: bool,
    ) -> Result<usize, AllocError>
        requires { IsKeyed self.old }
        ensures keyed { OnOk result (IsKeyed self.new) }
        ensures called { IfOk result (λ n. IsCalled self.old.rows.items set nth members collect n self.new.rows.items) }
    {
        let next = self.next;
        if self.is_row(next, set, nth) {
            self.call_row(next, collect);
            self.next = next.saturating_add(1);
            return Ok(next);
        }
        let number = self.add_by_key(set, nth, members, collect)?;
        self.next = number.saturating_add(1);
        Ok(number)
    }

    /// Reads a call of a process that has so many fence calls over each set before, and says the number
    /// of its fence, `NO_FENCE` where it is no fence call.
    fn read(
        &mut self,
        counts: &mut Vec<usize>,
        sets: &[Vec<Proc>],
        call: Call,
    ) -> Result<u32, AllocError>
        requires keyed { IsKeyed self.old }
        requires room { length self.old.rows.items + 1 < 2 ^ 32 }
        requires counts { (n : ℕ) → slice_index_or counts.old.items n 0 + 1 < 2 ^ 64 }
        requires within { (set : ℕ) (collect : _) → call ≡ TheFence set collect → set < length counts.old.items }
        ensures keyed { OnOk result (IsKeyed self.new) }
        ensures after { IfOk result (λ number. IsAfter (map (λ v. numbers_of v.items) sets.now) call self.old.rows.items counts.old.items
            (number_kept number) self.new.rows.items counts.new.items) }
    {
        let Call::Fence { set, collect } = call else {
            return Ok(NO_FENCE);
        };
        let nth = counts[set as usize] + 1;
        counts[set as usize] = nth;
        let number = self.add(set, nth, members_of(sets, set as usize).len(), collect)?;
        Ok(number as u32)
    }

    /// Reads the calls of a process, and says the number of the fence of each, `NO_FENCE` where it is no fence
    /// call, up to the last fence call. The counts are all 0 before and after.
    fn read_calls(
        &mut self,
        alloc: Global,
        counts: &mut Vec<usize>,
        sets: &[Vec<Proc>],
        calls: &[Call],
    ) -> Result<Vec<u32>, AllocError>
        requires zeros { counts.old.items ≡ replicate (length sets.now) 0 }
        requires keyed { IsKeyed self.old }
        requires room { length self.old.rows.items + length calls.now < 2 ^ 32 }
        requires within { (c set : ℕ) (collect : _) → slice_get calls.now c ≡ Some (TheFence set collect) → set < length sets.now }
        ensures zeros { OnOk result (counts.new.items ≡ replicate (length sets.now) 0) }
        ensures keyed { OnOk result (IsKeyed self.new) }
        ensures few { OnOk result (length self.new.rows.items ≤ length self.old.rows.items + length calls.now) }
        ensures numbers { IfOk result (λ numbers. AreNumbersOf self.new.rows.items calls.now (map number_kept numbers.items)) }
        ensures kept { OnOk result ((m k j : ℕ) → HasRow self.old.rows.items m k j → HasRow self.new.rows.items m k j) }
        ensures read { OnOk result ((s : Scripts) (p : ℕ) (read : ℕ → ℕ) → IsSound s → map (λ v. numbers_of v.items) sets.now ≡ s.sets
            → calls.now ≡ written_calls s p → read p ≡ 0 → AreRead s read self.old.rows.items →
            AreRead s (update read p (length calls.now)) self.new.rows.items) }
    {
        let mut numbers = Vec::with_capacity(alloc, calls.len())?;
        self.next = 0;
        for call in calls {
            let number = self.read(counts, sets, *call)?;
            numbers.push(number)?;
        }
        forget(counts, calls);
        let kept = up_to_last(alloc, numbers)?;
        Ok(kept)
    }

    /// Reads the calls of all processes. The rows are those of the fences then.
    pub(crate) fn read_all(
        &mut self,
        alloc: Global,
        sets: &[Vec<Proc>],
        processes: &[Process],
    ) -> Result<Vec<Vec<u32>>, AllocError>
        requires keyed { IsKeyed self.old }
        requires first { self.old.rows.items ≡ [] }
        requires counted { IsCounted processes.now }
        requires within { (p c set : ℕ) (collect : _) → call_at processes.now p c ≡ Some (TheFence set collect) → set < length sets.now }
        ensures numbers { IfOk result (λ numbers. AreAllNumbers self.new.rows.items processes.now (map (λ v. map number_kept v.items) numbers.items)
            (length processes.now)) }
        ensures read { OnOk result ((s : Scripts) → IsSound s → map (λ v. numbers_of v.items) sets.now ≡ s.sets → processes.now ≡ s.processes
            → AreRead s (read_to s (length processes.now)) self.new.rows.items) }
    {
        let mut counts = vec![in alloc; 0; sets.len()]?;
        let mut numbers = Vec::with_capacity(alloc, processes.len())?;
        for process in processes {
            let numbers_there = self.read_calls(alloc, &mut counts, sets, process.calls())?;
            numbers.push(numbers_there)?;
        }
        Ok(numbers)
    }
}

/// The rows of the fences that processes call, and the number of the fence of each call.
pub(crate) fn read_rows(
    alloc: Global,
    sets: &[Vec<Proc>],
    processes: &[Process],
) -> Result<(Vec<FenceDraft>, Vec<Vec<u32>>), AllocError>
    requires counted { IsCounted processes.now }
    requires within { (p c set : ℕ) (collect : _) → call_at processes.now p c ≡ Some (TheFence set collect) → set < length sets.now }
    ensures numbers { IfOk result (λ made. AreAllNumbers made.0.items processes.now
        (map (λ v. map number_kept v.items) made.1.items) (length processes.now)) }
    ensures read { IfOk result (λ made. (s : Scripts) → IsSound s → map (λ v. numbers_of v.items) sets.now ≡ s.sets → processes.now ≡ s.processes
        → AreRead s (read_to s (length processes.now)) made.0.items) }
{
    let mut register = Register::new(alloc);
    let numbers = register.read_all(alloc, sets, processes)?;
    Ok((register.rows, numbers))
}
