//! The fences of scripts.

ghost use Rattle.std.specs.Prelude.{◌≡◌, ◌<◌, ◌||◌, ◌&&◌, ◌==◌, ℕ, Some, None, false, is_some, true, [], length};
ghost use Rattle.std.specs.Prelude.{map as map_list, slice_index_or, IfOk, OnOk, IsOkUnless};
ghost use Rattle.std.specs.List.{list_all};
ghost use Rattle.wire_runs.specs.Fences.{has_node};
ghost use Rattle.wire_scripts.specs.Scripts.{Scripts as TheScripts, numbers_of, set_at};
ghost use Rattle.wire_scripts.specs.Planned.{plan_of};
ghost use Rattle.wire_procmap.specs.Map.{map_of, row_count};
ghost use Rattle.wire_fence.specs.FenceTable.{FenceInfo, AreFencesOf, fence_at, members_in, full_in, collects_in};
ghost use Rattle.wire_fence.specs.FenceTable.{reaches_in, is_noted, fence_number as the_fence_number};
ghost use Rattle.wire_fence.specs.Register.{number_kept};

use crate::register::{FenceDraft, NO_FENCE, members_of, read_rows};
use std::alloc::{AllocError, Global};
use std::collections::HashSet;
use std::marker::Model;
use wire_procmap::ProcMap;
use wire_scripts::{Scripts, Sets};
use wire_types::{CallAt, Fault, Proc};

/// A fence, by its number.
#[derive(Clone, Copy)]
pub struct FenceId {
    pub number: u32,
}

/// The fences of scripts. The j-th fence call of a process over a set of processes is part of the j-th
/// fence over the set.
pub struct Fences {
    sets: Vec<Vec<Proc>>,
    // In a box, so that the layout of fences is small: a `HashSet` has many parts, and a proof writes out the layout of
    // all that its function holds.
    reached: Box<HashSet<(u32, u32)>>,
    rows: Vec<FenceDraft>,
    // For each process what is kept of its calls, up to its last fence call.
    numbers: Vec<Vec<u32>>,
}

// By hand and not derived: so dropping one is a call, and the proof of a function that drops one doesn't take it apart.
impl Drop for Fences {
    fn drop(self) {
        let Fences {
            sets: _,
            reached: _,
            rows: _,
            numbers: _,
        } = self;
    }
}

impl Model for Fences {
    ghost use Rattle.std.specs.Prelude.{map};
    ghost use Rattle.wire_scripts.specs.Scripts.{numbers_of};
    ghost use Rattle.wire_fence.specs.FenceTable.{FenceTable};
    ghost use Rattle.wire_fence.specs.Register.{info_of, number_kept};

    ghost Value = { FenceTable };

    ghost view = { λ f. record {
      fences = map (info_of (map (λ v. numbers_of v.items) f.sets.items)) f.rows.items;
      numbers = map (λ v. map number_kept v.items) f.numbers.items;
      reached = f.reached.value.keys;
    } };
}

/// A copy of each set, by number.
fn copy_sets(alloc: Global, sets: &Sets) -> Result<Vec<Vec<Proc>>, AllocError>
    ensures { IfOk result (λ copy. map_list (λ v. numbers_of v.items) copy.items ≡ sets.now) }
{
    let mut copy = Vec::with_capacity(alloc, sets.len() as usize)?;
    for set in 0..sets.len() {
        copy.push(Vec::from_slice(alloc, sets.members(set))?)?;
    }
    Ok(copy)
}

/// Notes the node of each member of a set, with the set.
fn note_nodes(
    reached: &mut HashSet<(u32, u32)>,
    map: &ProcMap,
    set: u32,
    members: &[Proc],
) -> Result<(), AllocError>
    requires { (k : ℕ) → k < length members.now → slice_index_or (numbers_of members.now) k 0 < row_count map.now }
    ensures { OnOk result ((s : TheScripts) (other node : ℕ) → map.now ≡ map_of s
        → is_noted reached.new.keys other node ≡ (is_noted reached.old.keys other node ||
        ((other == set) && has_node (plan_of s) (numbers_of members.now) node))) }
{
    for member in members {
        reached.insert((set, map.node_of(*member)))?;
    }
    Ok(())
}

/// Each set with the nodes of its members.
#[tactic(auto, unfolding(crate::specs::FenceTable::is_noted))]
fn nodes_of_sets(
    alloc: Global,
    map: &ProcMap,
    sets: &Sets,
) -> Result<Box<HashSet<(u32, u32)>>, AllocError>
    requires { (set k : ℕ) → k < length (set_at sets.now set) → slice_index_or (set_at sets.now set) k 0 < row_count map.now }
    ensures { IfOk result (λ reached. (s : TheScripts) (set node : ℕ) → map.now ≡ map_of s
        → is_noted reached.value.keys set node ≡ has_node (plan_of s) (set_at sets.now set) node) }
{
    let mut reached = HashSet::new(alloc);
    for set in 0..sets.len() {
        note_nodes(&mut reached, map, set, sets.members(set))?;
    }
    Ok(Box::new(alloc, reached)?)
}

/// Whether a set and a node are noted.
#[tactic(auto, unfolding(crate::specs::FenceTable::is_noted))]
fn is_reached(reached: &HashSet<(u32, u32)>, set: u32, node: u32) -> bool
    ensures { result ≡ is_noted reached.now.keys set node }
{
    reached.contains(&(set, node))
}

/// What is kept of a call, if it is the number of a fence.
fn number_at(numbers: &[u32], call: u32) -> Option<u32>
    ensures { result ≡ slice_index_or (map_list number_kept numbers.now) call None }
{
    match numbers.get(call as usize) {
        Some(number) if *number != NO_FENCE => Some(*number),
        _ => None,
    }
}

/// How many members the fence of each row has.
fn sizes_of(
    alloc: Global,
    sets: &[Vec<Proc>],
    rows: &[FenceDraft],
) -> Result<Vec<usize>, AllocError>
    ensures { IfOk result (λ sizes. sizes.items ≡ map_list (λ row. length (set_at (map_list (λ v. numbers_of v.items) sets.now) row.set)) rows.now) }
{
    let mut sizes = Vec::with_capacity(alloc, rows.len())?;
    for row in rows {
        sizes.push(members_of(sets, row.set as usize).len())?;
    }
    Ok(sizes)
}

impl Fences {
    /// The fences of scripts, whose process map is handed in. The only error is `Fault::Memory`.
    pub fn of(alloc: Global, scripts: &Scripts, map: &ProcMap) -> Result<Fences, Fault>
        requires { map.now ≡ map_of scripts.now }
        ensures ok { IfOk result (λ fences. AreFencesOf scripts.now fences) }
        ensures memory { IsOkUnless result Fault.Memory }
    {
        let processes = scripts.processes();
        let sets = copy_sets(alloc, scripts.sets())?;
        let reached = nodes_of_sets(alloc, map, scripts.sets())?;
        let (rows, numbers) = read_rows(alloc, &sets, processes)?;
        Ok(Fences {
            sets,
            reached,
            rows,
            numbers,
        })
    }

    /// The number of the fence that a call is part of, if it is part of one.
    fn fence_number(&self, call: CallAt) -> Option<u32>
        ensures { result ≡ the_fence_number self.now call.proc.number call.call }
    {
        match self.numbers.get(call.proc.index()) {
            Some(numbers) => number_at(numbers, call.call),
            None => None,
        }
    }

    /// The fence that a fence call of the scripts is part of.
    pub fn id_of(&self, call: CallAt) -> FenceId
        requires { is_some (the_fence_number self.now call.proc.number call.call) ≡ true }
        ensures { Some result.number ≡ the_fence_number self.now call.proc.number call.call }
    {
        FenceId {
            number: self.fence_number(call).unwrap(),
        }
    }

    /// The members of a fence, each once and in process order.
    pub fn members(&self, fence: FenceId) -> &[Proc]
        ensures { numbers_of result.now ≡ members_in (fence_at self.now fence.number) }
    {
        match self.rows.get(fence.number as usize) {
            Some(row) => members_of(&self.sets, row.set as usize),
            None => &[],
        }
    }

    /// Whether each member calls the fence.
    pub fn full(&self, fence: FenceId) -> bool
        ensures { result ≡ full_in (fence_at self.now fence.number) }
    {
        match self.rows.get(fence.number as usize) {
            Some(row) => row.missing == 0,
            None => false,
        }
    }

    /// Whether each call of the fence says that data is collected (PMIX_COLLECT_DATA). A member that doesn't call
    /// it has no say here, so the fence collects only where it is full besides.
    pub fn collects(&self, fence: FenceId) -> bool
        ensures { result ≡ collects_in (fence_at self.now fence.number) }
    {
        match self.rows.get(fence.number as usize) {
            Some(row) => row.collects,
            None => false,
        }
    }

    /// Whether a member of the fence is on the node.
    pub fn reaches(&self, fence: FenceId, node: u32) -> bool
        ensures told { result ≡ reaches_in self.now node (fence_at self.now fence.number) }
        ensures reached { (s : TheScripts) (info : FenceInfo) → AreFencesOf s self.now → fence_at self.now fence.number ≡ Some info →
            result ≡ has_node (plan_of s) info.members node }
    {
        match self.rows.get(fence.number as usize) {
            Some(row) => is_reached(&self.reached, row.set, node),
            None => false,
        }
    }

    /// How many members each fence has, by number.
    pub(crate) fn sizes(&self, alloc: Global) -> Result<Vec<usize>, AllocError>
        ensures { IfOk result (λ sizes. sizes.items ≡ map_list (λ (f : FenceInfo). length f.members) self.now.fences) }
    {
        let sizes = sizes_of(alloc, &self.sets, &self.rows)?;
        Ok(sizes)
    }
}
