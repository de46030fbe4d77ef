//! What an event is.

ghost use Rattle.std.specs.Prelude.{◌≡◌, ◌∷◌, [], if◌then◌else◌};
ghost use Rattle.wire_runs.specs.Plan.{kinds_of};
ghost use Rattle.wire_types.specs.Replies.{bare};
ghost use Rattle.wire_types.specs.Said.{is_reserved as is_reserved_text};
ghost use Rattle.wire_scripts.specs.Scripts.{text_at};
ghost use Rattle.wire_scripts.specs.Planned.{planned_call, reply_of_key};
ghost use Rattle.wire_procmap.specs.Map.{map_of};
ghost use Rattle.wire_plan.specs.Kinds.{kind_of, kinds_after};

use wire_procmap::ProcMap;
use wire_scripts::Scripts;
use wire_types::{Call, Proc, Reply, Scope, Status, is_reserved};

/// What an event of a process is: one of the events that its calls are made of. Sets of processes, keys
/// and names are numbers in the tables of the scripts.
#[derive(Clone, Copy, Debug)]
pub enum Kind {
    /// A put of a key, for the processes that its scope admits.
    Put { scope: Scope, key: u32 },
    /// The commit of all puts so far.
    Commit,
    /// The arrival at a fence over a set of processes.
    Arrive { set: u32, collect: bool },
    /// The end of a fence, which waits for the arrival of all members.
    Leave { set: u32 },
    /// A get that waits for a key of its owner.
    Get { owner: Proc, key: u32 },
    /// A get that is answered at once.
    GetNow { owner: Proc, key: u32 },
    /// The publication of a name.
    Publish { name: u32 },
    /// A lookup of a name that is answered at once.
    Lookup { name: u32 },
    /// A lookup that waits for the name.
    LookupWait { name: u32 },
    /// The end of a name that its caller published.
    Unpublish { name: u32 },
    /// The end of all names that its caller published.
    UnpublishAll,
    /// A call of a reserved key or name, with its reply.
    Fixed(Reply),
}

/// What a get of a reserved key of a process replies; nothing is found of a process that isn't there.
fn reserved_reply(scripts: &Scripts, places: &ProcMap, owner: Proc, key: u32) -> Reply
    requires { places.now ≡ map_of scripts.now }
    ensures { result ≡ reply_of_key scripts.now owner.number key }
{
    if owner.index() < scripts.processes().len() {
        places.reserved(owner, key)
    } else {
        Reply::bare(Status::NotFound)
    }
}

/// Whether a name is one that the standard keeps for itself.
fn is_reserved_name(scripts: &Scripts, name: u32) -> bool
    ensures { result ≡ is_reserved_text (text_at scripts.now.names name) }
{
    is_reserved(scripts.names().text(name))
}

/// The event of a call on a name, unless the name is reserved.
fn name_kind(scripts: &Scripts, name: u32, kind: Kind) -> Kind
    ensures { result ≡ (if is_reserved_text (text_at scripts.now.names name) then Kind.Fixed (bare Status.BadParam) else kind) }
{
    if is_reserved_name(scripts, name) {
        Kind::Fixed(Reply::bare(Status::BadParam))
    } else {
        kind
    }
}

/// The event of a get, unless its key is reserved.
fn get_kind(scripts: &Scripts, places: &ProcMap, owner: Proc, key: u32, kind: Kind) -> Kind
    requires { places.now ≡ map_of scripts.now }
    ensures { result ≡ (if is_reserved_text (text_at scripts.now.keys key) then Kind.Fixed (reply_of_key scripts.now owner.number key) else kind) }
{
    if places.is_reserved(key) {
        Kind::Fixed(reserved_reply(scripts, places, owner, key))
    } else {
        kind
    }
}

/// The first event of a call.
pub(crate) fn first_kind(scripts: &Scripts, places: &ProcMap, call: Call) -> Kind
    requires { places.now ≡ map_of scripts.now }
    ensures { kinds_of (planned_call scripts.now call ∷ []) ≡ kind_of scripts.now.sets result ∷ kinds_after scripts.now.sets call }
{
    match call {
        Call::Put { scope, key, .. } => {
            if places.is_reserved(key) {
                Kind::Fixed(Reply::bare(Status::BadParam))
            } else {
                Kind::Put { scope, key }
            }
        }
        Call::Commit => Kind::Commit,
        Call::Fence { set, collect } => Kind::Arrive { set, collect },
        Call::Get { owner, key } => get_kind(scripts, places, owner, key, Kind::Get { owner, key }),
        Call::GetNow { owner, key } => get_kind(
            scripts,
            places,
            owner,
            key,
            Kind::GetNow { owner, key },
        ),
        Call::Publish { name, .. } => name_kind(scripts, name, Kind::Publish { name }),
        Call::Lookup { name } => name_kind(scripts, name, Kind::Lookup { name }),
        Call::LookupWait { name } => name_kind(scripts, name, Kind::LookupWait { name }),
        Call::Unpublish { name } => name_kind(scripts, name, Kind::Unpublish { name }),
        Call::UnpublishAll => Kind::UnpublishAll,
    }
}
