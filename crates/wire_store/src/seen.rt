//! What a process shows to others.

ghost use Rattle.std.specs.Prelude.{◌≡◌};
ghost use Rattle.wire_runs.specs.Plan.{admits as is_for};

use wire_types::{CallAt, Scope};

/// What another process, or the owner's server, shows under a key: the value of a put, that there is
/// one out of its scope, or nothing.
#[derive(Clone, Copy)]
pub enum Seen {
    Value(CallAt),
    Outside,
    Nothing,
}

/// Whether a put of this scope is for a process that is, or isn't, on the owner's node.
pub(crate) fn admits(scope: Scope, same_node: bool) -> bool
    ensures { result ≡ is_for scope same_node }
{
    match scope {
        Scope::Local => same_node,
        Scope::Remote => !same_node,
        Scope::Global => true,
    }
}
