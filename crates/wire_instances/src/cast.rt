//! Casts: how many processes each role of a pattern has, which turns its loops take, and the nodes.

ghost use Rattle.std.specs.Prelude.{◌≡◌, ◌≤◌, ◌<◌, ◌^◌, ◌↔◌, IsTrue, MatchOption, sum_by, ℕ, map, true};
ghost use Rattle.wire_pattern.specs.Instances.{IsCast};
ghost use Rattle.wire_pattern.specs.Views.{role_by};
ghost use Rattle.wire_instances.specs.Views.{cast_by};
ghost use Rattle.wire_instances.specs.Nodes.{AreNodes};
ghost use Rattle.wire_instances.specs.Tables.{AreSizes};

use wire_pattern::{Pattern, Role};

/// A turn of a loop of `for some`: the caller, the number of the step in its script, and the process that it is for.
#[derive(Clone, Copy, Debug, PartialEq, Eq)]
pub struct Turn {
    pub caller: u32,
    pub step: usize,
    pub each: u32,
}

/// Whether a turn is taken.
#[derive(Clone, Copy, Debug, PartialEq, Eq)]
pub struct Choice {
    pub turn: Turn,
    pub taken: bool,
}

/// How many nodes there are, and the number of each process's node.
#[derive(Drop)]
pub struct Nodes {
    pub count: u32,
    pub of: Vec<u32>,
}

/// How many processes each role has, which turns of loops of `for some` are taken, and the nodes of the processes.
/// Turns that aren't listed are taken.
#[derive(Drop)]
pub struct Cast {
    pub sizes: Vec<u32>,
    pub chosen: Vec<Choice>,
    pub nodes: Nodes,
}

/// How many processes roles of these sizes have, if these are fewer than 2^31.
pub fn process_total(sizes: &[u32]) -> Option<u32>
    ensures { MatchOption result (2 ^ 31 ≤ sum_by (λ (size : ℕ). size) sizes.now)
        (λ total. (total ≡ sum_by (λ (size : ℕ). size) sizes.now) × (total < 2 ^ 31)) }
{
    let mut total: u32 = 0;
    for size in sizes {
        let more = u64::from(total) + u64::from(*size);
        if more >= 1 << 31 {
            return None;
        }
        total = more as u32;
    }
    Some(total)
}

/// Whether a role may have this size: a single one only 1.
fn fits(role: &Role, size: u32) -> bool
    ensures { IsTrue result ↔ (role.now.single ≡ true → size ≡ 1) }
{
    !role.single || size == 1
}

/// Whether there is a size for each role, 1 for a single role.
fn are_sizes(roles: &[Role], sizes: &[u32]) -> bool
    ensures { IsTrue result ↔ AreSizes (map role_by roles.now) sizes.now }
{
    if roles.len() != sizes.len() {
        return false;
    }
    for (number, role) in roles.iter().enumerate() {
        if !fits(role, sizes[number]) {
            return false;
        }
    }
    true
}

/// Whether each of so many processes has a node, and there are fewer than 2^31 nodes.
fn are_nodes(processes: u32, nodes: &Nodes) -> bool
    ensures { IsTrue result ↔ AreNodes processes nodes.now }
{
    if nodes.of.len() != processes as usize || nodes.count >= 1 << 31 {
        return false;
    }
    for node in &nodes.of {
        if *node >= nodes.count {
            return false;
        }
    }
    true
}

/// Whether this is a cast of the pattern: each role has a size, that of a single role is 1, each process has a node,
/// and processes and nodes are fewer than 2^31.
pub fn is_cast(pattern: &Pattern, cast: &Cast) -> bool
    ensures { IsTrue result ↔ IsCast pattern.now (cast_by cast.now) }
{
    let sizes = cast.sizes.as_slice();
    match process_total(sizes) {
        None => false,
        Some(total) => are_sizes(pattern.roles(), sizes) && are_nodes(total, &cast.nodes),
    }
}
