//! The verbs of calls.

/// What a call does: the first word of its line.
#[derive(Clone, Copy, PartialEq, Eq, Hash)]
pub enum Verb {
    Put,
    Commit,
    Fence,
    Get,
    GetNow,
    Publish,
    Lookup,
    LookupWait,
    Unpublish,
}
