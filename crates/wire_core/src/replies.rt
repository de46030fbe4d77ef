//! Replies to calls.

ghost use Rattle.std.specs.Prelude.{◌≡◌};
ghost use Rattle.wire_types.specs.Replies.{bare};
ghost use Rattle.wire_names.specs.Names.{status_of_publish, status_of_unpublish};
ghost use Rattle.wire_core.specs.Seeing.{reply_to, is_something, brought_of as brought_seen};
ghost use Rattle.wire_core.specs.Seeing.{reply_to_lookup as lookup_reply};

use wire_store::Seen;
use wire_types::{CallAt, Proc, Reply, Status, Value};

/// The reply to a get that sees this.
pub(crate) fn reply_to_get(seen: Seen) -> Reply
    ensures { result ≡ reply_to seen }
{
    match seen {
        Seen::Nothing => Reply::bare(Status::NotFound),
        Seen::Outside => Reply::bare(Status::ExistsOutsideScope),
        Seen::Value(call) => Reply {
            status: Status::Success,
            value: Value::Put(call),
        },
    }
}

/// Whether there is something to see.
pub(crate) fn is_shown(seen: Seen) -> bool
    ensures { result ≡ is_something seen }
{
    !matches!(seen, Seen::Nothing)
}

/// What came to another node of what its server would show there.
pub(crate) fn brought_of(seen: Seen) -> Seen
    ensures { result ≡ brought_seen seen }
{
    match seen {
        Seen::Value(call) => Seen::Value(call),
        Seen::Outside | Seen::Nothing => Seen::Nothing,
    }
}

/// The reply to a look-up of a name under which this publish stands.
pub(crate) fn reply_to_lookup(standing: Option<CallAt>) -> Reply
    ensures { result ≡ lookup_reply standing }
{
    match standing {
        Some(publish) => Reply {
            status: Status::Success,
            value: Value::Published(publish),
        },
        None => Reply::bare(Status::NotFound),
    }
}

/// The reply to a publish of a name under which this publish stands.
pub(crate) fn reply_to_publish(standing: Option<CallAt>) -> Reply
    ensures { result ≡ bare (status_of_publish standing) }
{
    match standing {
        Some(_) => Reply::bare(Status::DuplicateKey),
        None => Reply::bare(Status::Success),
    }
}

/// The reply to a process's unpublish of a name under which this publish stands.
pub(crate) fn reply_to_unpublish(standing: Option<CallAt>, proc: Proc) -> Reply
    ensures { result ≡ bare (status_of_unpublish proc.number standing) }
{
    match standing {
        Some(publish) if publish.proc == proc => Reply::bare(Status::Success),
        Some(_) | None => Reply::bare(Status::NotFound),
    }
}
