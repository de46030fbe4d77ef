//! The calls of a pattern's scripts.

use wire_types::Scope;

/// A process that a line names.
#[derive(Clone, Copy, Debug, PartialEq, Eq)]
pub enum Who {
    /// The one process of a role, by the number of the role.
    Only(u32),
    /// `self`: the caller.
    Caller,
    /// `each`: the process that the turn of a loop is for.
    Each,
}

/// A key or a name: a base, and in brackets the processes that index it.
pub struct Indexed {
    pub base: Vec<u8>,
    pub indices: Vec<Who>,
}

// By hand and not derived: so dropping one is a call, and the proof of a function that drops one doesn't take it apart.
impl Drop for Indexed {
    fn drop(self) {
        let Indexed {
            base: _,
            indices: _,
        } = self;
    }
}

/// An item of the set of a fence.
#[derive(Clone, Copy, Debug, PartialEq, Eq)]
pub enum Item {
    /// One process.
    One(Who),
    /// All processes of a role, by its number.
    Group(u32),
    /// All processes of a job, by its number.
    Job(u32),
}

/// A call of a script. Its keys, names and values are texts.
pub enum Call {
    Put {
        scope: Scope,
        key: Indexed,
        value: Vec<u8>,
    },
    Commit,
    Fence {
        items: Vec<Item>,
        collect: bool,
    },
    Get {
        owner: Who,
        key: Indexed,
    },
    GetNow {
        owner: Who,
        key: Indexed,
    },
    Publish {
        name: Indexed,
        value: Vec<u8>,
    },
    Lookup {
        name: Indexed,
    },
    LookupWait {
        name: Indexed,
    },
    Unpublish {
        name: Indexed,
    },
    /// `unpublish *`: of all names that the caller has published.
    UnpublishAll,
}

// By hand and not derived: so dropping one is a call, and the proof of a function that drops one doesn't take it apart.
impl Drop for Call {
    fn drop(self) {
        match self {
            Call::Commit | Call::UnpublishAll => {}
            Call::Put {
                scope: _,
                key: _,
                value: _,
            } => {}
            Call::Fence {
                items: _,
                collect: _,
            } => {}
            Call::Get { owner: _, key: _ } | Call::GetNow { owner: _, key: _ } => {}
            Call::Publish { name: _, value: _ } => {}
            Call::Lookup { name: _ } | Call::LookupWait { name: _ } | Call::Unpublish { name: _ } =>
                {}
        }
    }
}
