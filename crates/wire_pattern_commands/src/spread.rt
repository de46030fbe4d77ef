//! How the ranks of an instance are spread over nodes.

ghost use Rattle.std.specs.Prelude.{◌≡◌, ◌<◌, ◌^◌, IfOk};
ghost use Rattle.wire_types.specs.declared.Version.TheVariants.{Two};
ghost use Rattle.wire_reader.specs.Limits.{limits_of};
ghost use Rattle.wire_instances.specs.Nodes.{AreNodes};
ghost use Rattle.wire_pattern_commands.specs.Spread.{AreNodesAsked};

use std::alloc::{AllocError, Global};
use std::num::NonZeroU32;
use wire_instances::{Nodes, dealt, per_node};
use wire_reader::{Limits, Size};
use wire_types::Version;

/// On which nodes the ranks of an instance are.
#[derive(Clone, Copy)]
pub enum Spread {
    /// Each on a node of its own, or dealt in turn to as many nodes as a plan may have.
    Apart,
    /// So many on each node, in rank order.
    PerNode(NonZeroU32),
    /// Dealt in turn to so many nodes.
    ByNode(NonZeroU32),
}

/// How many nodes a plan of this size may have.
fn most_nodes(size: Size) -> u32
    ensures most { result ≡ (limits_of size Two).nodes }
    ensures some { 0 < result }
{
    Limits::of(size, Version::Two).nodes
}

/// The nodes of so many processes.
pub(crate) fn spread_nodes(
    alloc: Global,
    processes: u32,
    size: Size,
    spread: Spread,
) -> Result<Nodes, AllocError>
    requires { processes < 2 ^ 31 }
    ensures nodes { IfOk result (λ nodes. AreNodes processes nodes) }
    ensures asked { IfOk result (λ nodes. AreNodesAsked size spread processes nodes) }
{
    match spread {
        Spread::Apart => dealt(alloc, processes, most_nodes(size)),
        Spread::PerNode(each) => per_node(alloc, processes, each.get()),
        Spread::ByNode(nodes) => dealt(alloc, processes, nodes.get()),
    }
}
