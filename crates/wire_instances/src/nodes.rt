//! Nodes for the processes of an instance.

ghost use Rattle.std.specs.Prelude.{◌≡◌, ◌<◌, ◌^◌, ◌≤◌, ◌*◌, ◌/◌, ℕ, IfOk};
ghost use Rattle.wire_instances.specs.Nodes as spec;
ghost use Rattle.wire_instances.specs.Nodes.{AreNodes, HaveOwnNodes, ArePaired, ArePerNode, AreDealt};

use crate::cast::Nodes;
use std::alloc::{AllocError, Global};

/// Each process alone on a node that has its number.
pub fn all_alone(alloc: Global, processes: u32) -> Result<Nodes, AllocError>
    requires { processes < 2 ^ 31 }
    ensures nodes { IfOk result (λ nodes. AreNodes processes nodes) }
    ensures alone { IfOk result (λ nodes. HaveOwnNodes processes nodes) }
{
    let mut of = Vec::with_capacity(alloc, processes as usize)?;
    for process in 0..processes {
        of.push(process)?;
    }
    Ok(Nodes {
        count: processes,
        of,
    })
}

/// The node of a process, where the processes a and b share one, and all others are alone.
fn paired_node(a: u32, b: u32, process: u32) -> u32
    ensures { result ≡ spec.paired_node a b process }
{
    if process == b {
        a
    } else if process < b {
        process
    } else {
        process - 1
    }
}

/// The processes a and b on one node, all others alone. Nodes are numbered in the order of their first processes.
pub fn paired(alloc: Global, processes: u32, a: u32, b: u32) -> Result<Nodes, AllocError>
    requires few { processes < 2 ^ 31 }
    requires lower { a < b }
    requires there { b < processes }
    ensures nodes { IfOk result (λ nodes. AreNodes processes nodes) }
    ensures paired { IfOk result (λ nodes. ArePaired processes a b nodes) }
{
    let mut of = Vec::with_capacity(alloc, processes as usize)?;
    for process in 0..processes {
        of.push(paired_node(a, b, process))?;
    }
    Ok(Nodes {
        count: processes - 1,
        of,
    })
}

/// How many nodes so many processes need, with so many on each.
fn nodes_for(processes: u32, each: u32) -> u32
    requires { 0 < each }
    ensures most { result ≤ processes }
    ensures below { (v : ℕ) → v < processes → v / each < result }
    ensures used { (n : ℕ) → n < result → n * each < processes }
{
    if processes == 0 {
        0
    } else {
        (processes - 1) / each + 1
    }
}

/// So many processes on each node, in their order; the last node may have fewer.
pub fn per_node(alloc: Global, processes: u32, each: u32) -> Result<Nodes, AllocError>
    requires few { processes < 2 ^ 31 }
    requires some { 0 < each }
    ensures nodes { IfOk result (λ nodes. AreNodes processes nodes) }
    ensures filled { IfOk result (λ nodes. ArePerNode processes each nodes) }
{
    let mut of = Vec::with_capacity(alloc, processes as usize)?;
    for process in 0..processes {
        of.push(process / each)?;
    }
    Ok(Nodes {
        count: nodes_for(processes, each),
        of,
    })
}

/// The processes dealt in turn to so many nodes, or to as many as there are processes where these are fewer.
pub fn dealt(alloc: Global, processes: u32, nodes: u32) -> Result<Nodes, AllocError>
    requires few { processes < 2 ^ 31 }
    requires some { 0 < nodes }
    ensures nodes { IfOk result (λ n. AreNodes processes n) }
    ensures dealt { IfOk result (λ n. AreDealt processes nodes n) }
{
    let mut of = Vec::with_capacity(alloc, processes as usize)?;
    for process in 0..processes {
        of.push(process % nodes)?;
    }
    Ok(Nodes {
        count: processes.min(nodes),
        of,
    })
}
