//! Replies, and what a run leaves of each call.

ghost use Rattle.std.specs.Prelude.{◌≡◌};
ghost use Rattle.wire_types.specs.Replies as replies;

use crate::place::CallAt;

/// The status of a reply, a return value of the PMIx Standard 5.0.
#[derive(Clone, Copy, Debug, PartialEq, Eq)]
pub enum Status {
    /// `PMIX_SUCCESS`.
    Success,
    /// `PMIX_ERR_NOT_FOUND`.
    NotFound,
    /// `PMIX_ERR_EXISTS_OUTSIDE_SCOPE`.
    ExistsOutsideScope,
    /// `PMIX_ERR_DUPLICATE_KEY`.
    DuplicateKey,
    /// `PMIX_ERR_BAD_PARAM`.
    BadParam,
}

/// What a reply brings besides its status.
#[derive(Clone, Copy, Debug, PartialEq, Eq)]
pub enum Value {
    Nothing,
    /// The value of a put.
    Put(CallAt),
    /// The value of a publish.
    Published(CallAt),
    /// A number of the process map.
    Number(u32),
    /// The name of a node, by the node's number.
    NodeName(u32),
}

/// The reply to a call.
#[derive(Clone, Copy, Debug, PartialEq, Eq)]
pub struct Reply {
    pub status: Status,
    pub value: Value,
}

impl Reply {
    /// A reply that brings nothing but its status.
    pub fn bare(status: Status) -> Reply
        ensures { result ≡ replies.bare status }
    {
        Reply {
            status,
            value: Value::Nothing,
        }
    }
}

/// What became of a call: it was answered, its process stands at it and waits, or stands at it and
/// can run, or hasn't come to it.
#[derive(Clone, Copy, PartialEq, Eq)]
pub enum CallEnd {
    Replied(Reply),
    Waiting,
    Ready,
    Unreached,
}

/// What became of every call: a row for each process, in process order, with its calls in their order;
/// and how many processes stand at a call and aren't ready.
#[derive(Drop)]
pub struct Outcome {
    pub rows: Vec<Vec<CallEnd>>,
    pub waiting: u32,
}
