//! The calls of a script.

use crate::place::Proc;

/// Whom a put is for (PMIx Standard 5.0, the scope of put data): processes of the owner's node,
/// processes of other nodes, or all.
#[derive(Clone, Copy, Debug, PartialEq, Eq)]
pub enum Scope {
    Local,
    Remote,
    Global,
}

/// A call of a script. Keys, names, values and sets of processes are numbers in the tables of the scripts.
#[derive(Clone, Copy, PartialEq, Eq)]
pub enum Call {
    /// `PMIx_Put`.
    Put { scope: Scope, key: u32, value: u32 },
    /// `PMIx_Commit`.
    Commit,
    /// `PMIx_Fence` over a set of processes, with `PMIX_COLLECT_DATA` or without.
    Fence { set: u32, collect: bool },
    /// `PMIx_Get` without directives, which waits for the value.
    Get { owner: Proc, key: u32 },
    /// `PMIx_Get` with `PMIX_IMMEDIATE`, which is answered at once.
    GetNow { owner: Proc, key: u32 },
    /// `PMIx_Publish`.
    Publish { name: u32, value: u32 },
    /// `PMIx_Lookup`, which is answered at once.
    Lookup { name: u32 },
    /// `PMIx_Lookup` with `PMIX_WAIT`, which waits for the value.
    LookupWait { name: u32 },
    /// `PMIx_Unpublish` of one name.
    Unpublish { name: u32 },
    /// `PMIx_Unpublish` of no keys in particular: of all names that the caller has published.
    UnpublishAll,
}
